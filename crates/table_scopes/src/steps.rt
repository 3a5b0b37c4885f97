//! The steps of a row.

use crate::answers::put_said;
use crate::scopes::enrol;
use crate::{ends, ups};
use ba_core::{Leave, Verdict, number_of};
use ba_scope::Scope;
use std::alloc::{AllocError, Global};

/// Appends what each step answers.
pub fn put_steps(
    alloc: Global,
    scope: &mut Scope,
    steps: &str,
    out: &mut String,
) -> Result<(), AllocError> {
    for (index, step) in steps.split(", ").enumerate() {
        if index != 0 {
            out.push_str(", ")?;
        }
        let (word, rest) = step.split_once(' ').unwrap_or((step, ""));
        put_step(alloc, scope, word, rest, out)?;
    }
    Ok(())
}

/// Appends what a step answers.
fn put_step(
    alloc: Global,
    scope: &mut Scope,
    word: &str,
    rest: &str,
    out: &mut String,
) -> Result<(), AllocError> {
    if word == "enrol" {
        put_enrolled(alloc, scope, rest, out)
    } else if word == "fill" {
        put_filled(alloc, scope, out)
    } else if rest.starts_with("1.") {
        ends::put_step(scope, word, rest, out)
    } else {
        put_own_step(alloc, scope, word, rest, out)
    }
}

/// Appends what a step on the scope itself answers.
fn put_own_step(
    alloc: Global,
    scope: &mut Scope,
    word: &str,
    rest: &str,
    out: &mut String,
) -> Result<(), AllocError> {
    if word == "decide" {
        match Verdict::of_word(rest.as_bytes()) {
            None => out.push_str("no verdict"),
            Some(verdict) => put_said(scope.decide(verdict), out),
        }
    } else if word == "expire" {
        let now = number_of(rest.as_bytes()).unwrap_or(0);
        let expired = scope.expire(now);
        write!(out, "{expired}")
    } else if word == "finish" {
        put_said(scope.finish(), out)
    } else if word == "leave" {
        put_said(scope.leave(leave_named(rest)), out)
    } else if word == "verdict" {
        match scope.verdict() {
            None => out.push('-'),
            Some(verdict) => write!(out, "{verdict:?}"),
        }
    } else if word == "drained" {
        match scope.drained() {
            None => out.push('-'),
            Some(drained) => write!(out, "{}", drained.any_failed),
        }
    } else {
        ups::put_step(alloc, scope, word, rest, out)
    }
}

/// The way to leave that has this word.
fn leave_named(word: &str) -> Leave {
    if word == "exit" {
        Leave::Exit
    } else if word == "fail" {
        Leave::Fail
    } else {
        Leave::CannotComplete
    }
}

/// Enrols a participant, and appends what is answered.
fn put_enrolled(
    alloc: Global,
    scope: &mut Scope,
    number: &str,
    out: &mut String,
) -> Result<(), AllocError> {
    let number = number.parse::<u32>().unwrap_or(0);
    match enrol(alloc, scope, number)? {
        None => out.push_str("there already"),
        Some(Ok(())) => out.push_str("enrolled"),
        Some(Err(why)) => write!(out, "{why}"),
    }
}

/// Enrols participants until one isn't, and appends how many ends there are, and why it isn't.
fn put_filled(alloc: Global, scope: &mut Scope, out: &mut String) -> Result<(), AllocError> {
    for number in 1000..2000 {
        if let Some(Err(why)) = enrol(alloc, scope, number)? {
            let count = scope.ends().len();
            return write!(out, "{count} ends and {why}");
        }
    }
    out.push_str("not full")
}
