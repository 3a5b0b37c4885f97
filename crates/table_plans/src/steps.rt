//! The steps of a row.

use ba_core::Id;
use ba_resend::Plan;
use std::alloc::AllocError;

/// Appends what each step answers.
pub fn put_steps(plan: &mut Plan, steps: &str, out: &mut String) -> Result<(), AllocError> {
    for (index, step) in steps.split(", ").enumerate() {
        if index != 0 {
            out.push_str(", ")?;
        }
        let (word, rest) = step.split_once(' ').unwrap_or((step, ""));
        put_step(plan, word, rest, out)?;
    }
    Ok(())
}

/// Appends what a step answers.
fn put_step(plan: &mut Plan, word: &str, rest: &str, out: &mut String) -> Result<(), AllocError> {
    let (first, second) = rest.split_once(' ').unwrap_or((rest, ""));
    let number = second.parse::<u64>().unwrap_or(0);
    if word == "next" {
        put_next(plan, first.parse::<usize>().unwrap_or(0), number, out)
    } else if word == "reserve" {
        put_reserved(plan, first.parse::<u64>().unwrap_or(0), out)
    } else if word == "all" {
        put_all(plan, first.parse::<u64>().unwrap_or(0), out)
    } else {
        match Id::of_text(first.as_bytes()) {
            None => out.push_str("no identifier"),
            Some(id) => put_changed(plan, word, id, number, out),
        }
    }
}

/// Changes what is due of an object, and appends what is due of it then.
fn put_changed(
    plan: &mut Plan,
    word: &str,
    id: Id,
    number: u64,
    out: &mut String,
) -> Result<(), AllocError> {
    if word == "quiet" {
        plan.quiet(id);
    } else if !plan.has_room(id) {
        return out.push_str("no room");
    } else if word == "prompt" {
        plan.prompt(id, number);
    } else if word == "later" {
        plan.later(id, number);
    } else if word == "sent" {
        plan.sent(id, number);
    }
    match plan.due(id) {
        None => out.push('-'),
        Some(due) => write!(out, "{}+{}", due.moment, due.delay),
    }
}

/// Appends whose turn it is.
fn put_next(plan: &Plan, share: usize, now: u64, out: &mut String) -> Result<(), AllocError> {
    if share >= plan.senders() {
        return out.push_str("no sender");
    }
    match plan.next(share, now) {
        None => out.push('-'),
        Some(id) => write!(out, "{id}"),
    }
}

/// Makes room, and appends whether there was memory.
fn put_reserved(plan: &mut Plan, last: u64, out: &mut String) -> Result<(), AllocError> {
    match plan.reserve(last) {
        Ok(()) => out.push_str("ok"),
        Err(_) => out.push_str("no memory"),
    }
}

/// Prompts so many objects, takes each when it is next, and appends how many were next in the order of their counters.
fn put_all(plan: &mut Plan, count: u64, out: &mut String) -> Result<(), AllocError> {
    let node = plan.node();
    if plan.senders() == 0 || plan.reserve(count).is_err() {
        return out.push_str("no memory");
    }
    for counter in 0..count {
        prompt_one(plan, Id::of(node, counter));
    }
    let mut right = 0u64;
    for counter in 0..count {
        if is_next(plan, Id::of(node, counter)) {
            right = right.saturating_add(1);
        }
    }
    write!(out, "{right}")
}

/// Prompts an object at 0.
fn prompt_one(plan: &mut Plan, id: Id) {
    if plan.has_room(id) {
        plan.prompt(id, 0);
    }
}

/// Whether the object is next of those that its sender serves; it is then put off.
fn is_next(plan: &mut Plan, id: Id) -> bool {
    let senders = plan.senders();
    if senders == 0 || !plan.has_room(id) {
        return false;
    }
    let share = id.counter() as usize % senders;
    let right = match plan.next(share, 0) {
        None => false,
        Some(next) => next.0 == id.0,
    };
    plan.later(id, 1_000_000);
    right
}
