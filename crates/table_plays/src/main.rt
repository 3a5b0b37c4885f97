//! Replays a table of scripts from the standard input, a row a script, and prints each row, the lines of its play and,
//! after `=>`, how the replay ended: `done`, or its fault. A row is one of these:
//!
//! - a script, whose lines end at `;`. It is read in pieces of one byte, of seven, and whole, which have to print the
//!   same;
//! - `read N fails: `, `write N fails: ` or `room for N bytes: ` and a script, which is read in pieces of seven bytes
//!   from a source whose Nth read fails, or printed to a sink whose Nth write fails or that takes so many bytes;
//! - `example NAME`: the script is the file NAME.ba, which has to print exactly what the file NAME.out holds, else what
//!   it printed is shown;
//! - `disks of ` and a script: the bytes of each node's disk that the replay hands out are shown;
//! - `in NAME line N: LINES` or `in NAME to line N: LINES`: the example NAME with these lines, parted by `;`, in place of its
//!   line N, and in the second form without those after it. What is printed for these lines is shown, in the second form with
//!   what each object shows then, and whether all else is printed as NAME.out has it;
//! - `# ` and a heading, which has no answer.
//!
//! In a script, a backslash and two digits stand for a byte, as in `\0d`, and braces for a piece so many times, as in
//! `{256*#}`; all else stands for itself.
#![tactic(auto)]

mod answers;
mod disks;
mod rows;
mod runs;
mod variants;

use std::{fs, io};

fn main(rt: HostRuntime) -> io::Result<()> {
    for line in rt.lines(rt.alloc()) {
        let line = line?;
        println!(rt; "{line}")?;
        print_answer(&rt, line.as_str())?;
    }
    Ok(())
}

// Prints the answer to a row.
fn print_answer(rt: &HostRuntime, row: &str) -> io::Result<()> {
    if row.starts_with("# ") {
        return Ok(());
    }
    if let Some(script) = row.strip_prefix("disks of ") {
        let answer = disks::disks_answer(rt.alloc(), script)?;
        return print!(rt; "{answer}");
    }
    if let Some(rest) = row.strip_prefix("in ") {
        if let Some((name, change)) = variants::change_of(rest) {
            let answer = change_answer(rt, name, change)?;
            return print!(rt; "{answer}");
        }
    }
    let answer = match row.strip_prefix("example ") {
        Some(name) => example_answer(rt, name)?,
        None => answers::row_answer(rt.alloc(), row)?,
    };
    print!(rt; "{answer}")
}

// The answer to a change of the example with this name.
fn change_answer(rt: &HostRuntime, name: &str, change: variants::Change) -> io::Result<String> {
    let alloc = rt.alloc();
    let script = fs::read(rt, format!(in alloc; "{name}.ba")?.as_str())?;
    let due = fs::read(rt, format!(in alloc; "{name}.out")?.as_str())?;
    match (
        str::from_utf8(script.as_slice()),
        str::from_utf8(due.as_slice()),
    ) {
        (Ok(script), Ok(due)) => Ok(variants::change_answer(alloc, script, due, change)?),
        _ => Ok(String::from_str(alloc, "  => no text\n")?),
    }
}

// The answer to the example with this name.
fn example_answer(rt: &HostRuntime, name: &str) -> io::Result<String> {
    let alloc = rt.alloc();
    let script = fs::read(rt, format!(in alloc; "{name}.ba")?.as_str())?;
    let due = fs::read(rt, format!(in alloc; "{name}.out")?.as_str())?;
    Ok(answers::example_answer(alloc, script.as_slice(), due.as_slice())?)
}
