//! Rows that change an example: other lines stand in place of one of its lines.

use crate::rows::Condition;
use crate::runs::run_of;
use std::alloc::{AllocError, Global};

/// A change of an example: these lines, parted by semicolons, in place of the line with this number.
#[derive(Clone, Copy)]
pub struct Change<'a> {
    pub number: u32,
    pub lines: &'a str,
    /// What follows that line is left out.
    pub last: bool,
}

/// The name of an example and the change that a row makes of it.
pub fn change_of(row: &str) -> Option<(&str, Change)> {
    let (place, lines) = row.split_once(": ")?;
    let (name, number) = place.split_once(" line ")?;
    let number = number.parse::<u32>().ok()?;
    let (name, last) = match name.strip_suffix(" to") {
        Some(name) => (name, true),
        None => (name, false),
    };
    Some((
        name,
        Change {
            number,
            lines,
            last,
        },
    ))
}

/// The answer to a changed example: what is printed for the lines of the change, and whether all else is printed as for
/// the example itself.
pub fn change_answer(
    alloc: Global,
    script: &str,
    due: &str,
    change: Change,
) -> Result<String, AllocError> {
    let changed = changed_script(alloc, script, change)?;
    let done = run_of(alloc, changed.as_bytes(), changed.len(), Condition::Nothing)?;
    let Ok(printed) = str::from_utf8(done.printed.as_slice()) else {
        return String::from_str(alloc, "  => no text\n");
    };
    let mut out = String::new(alloc);
    for line in printed.lines() {
        if is_of_the_change(line, change) {
            write!(out, "  {line}\n")?;
        }
    }
    let one = Change {
        lines: "",
        ..change
    };
    if let Some(fault) = done.fault {
        write!(out, "  => {fault}\n")?;
    } else if texts_besides(alloc, printed, change)? == texts_besides(alloc, due, one)? {
        out.push_str("  => as it has to\n")?;
    } else {
        out.push_str("  => otherwise\n")?;
        for line in printed.lines() {
            write!(out, "    {line}\n")?;
        }
    }
    Ok(out)
}

/// The script with the change.
fn changed_script(alloc: Global, script: &str, change: Change) -> Result<String, AllocError> {
    let mut out = String::new(alloc);
    let mut number = 0u32;
    for line in script.lines() {
        number = number.saturating_add(1);
        if number == change.number {
            for line in change.lines.split(';') {
                write!(out, "{line}\n")?;
            }
        } else if number < change.number || !change.last {
            write!(out, "{line}\n")?;
        }
    }
    Ok(out)
}

/// Whether a printed line is of the lines of the change, or where these are the last, shown after them.
fn is_of_the_change(line: &str, change: Change) -> bool {
    match numbered(line) {
        (Some(number), _) => {
            change.number <= number
                && (change.last || number.wrapping_sub(change.number) < count_of(change.lines))
        }
        (None, _) => change.last,
    }
}

/// The other printed lines, without their numbers.
fn texts_besides(alloc: Global, printed: &str, change: Change) -> Result<String, AllocError> {
    let mut out = String::new(alloc);
    for line in printed.lines() {
        if !is_of_the_change(line, change) {
            let (_, text) = numbered(line);
            write!(out, "{text}\n")?;
        }
    }
    Ok(out)
}

/// How many lines these are.
fn count_of(lines: &str) -> u32 {
    let mut count = 0u32;
    for _ in lines.split(';') {
        count = count.saturating_add(1);
    }
    count
}

/// A printed line's number, if it has one, and its text.
fn numbered(line: &str) -> (Option<u32>, &str) {
    match line.split_once(' ') {
        Some((number, text)) => match number.parse::<u32>() {
            Ok(number) => (Some(number), text),
            Err(_) => (None, line),
        },
        None => (None, line),
    }
}
