//! The steps on an end, which name it.
ghost use Rattle.std.specs.Prelude.{IsTrue, IfSome};
ghost use Rattle.ba_core.specs.Messages.{is_column};

use crate::answers::{put_notice, put_said};
use ba_core::{CRow, Id, Notice, Verdict, name_of};
use ba_scope::Scope;
use std::alloc::AllocError;

/// The notices of the tables.
const NOTICES: [Notice; 14] = [
    Notice::Complete,
    Notice::Close,
    Notice::Cancel,
    Notice::Compensate,
    Notice::Failed,
    Notice::Exited,
    Notice::NotCompleted,
    Notice::Completed,
    Notice::Closed,
    Notice::Canceled,
    Notice::Compensated,
    Notice::Fail,
    Notice::Exit,
    Notice::CannotComplete,
];

/// The notice of the tables that has this name.
pub fn notice_named(name: &str) -> Option<Notice>
    ensures { IfSome result (λ notice. IsTrue (is_column notice)) }
{
    for notice in NOTICES {
        if name_of(notice) == name.as_bytes() {
            return column(notice);
        }
    }
    None
}

/// The notice, where it is one of the tables.
fn column(notice: Notice) -> Option<Notice>
    ensures { IfSome result (λ notice. IsTrue (is_column notice)) }
{
    match notice {
        Notice::GetStatus | Notice::Status(_) => None,
        _ => Some(notice),
    }
}

/// Appends what a step on an end answers.
pub fn put_step(
    scope: &mut Scope,
    word: &str,
    rest: &str,
    out: &mut String,
) -> Result<(), AllocError> {
    let (id, more) = rest.split_once(' ').unwrap_or((rest, ""));
    match Id::of_text(id.as_bytes()) {
        None => out.push_str("no end"),
        Some(id) => put_step_of(scope, word, id, more, out),
    }
}

/// Appends what a step on the end of this Id answers.
fn put_step_of(
    scope: &mut Scope,
    word: &str,
    id: Id,
    more: &str,
    out: &mut String,
) -> Result<(), AllocError> {
    if word == "choose" {
        match Verdict::of_word(more.as_bytes()) {
            None => out.push_str("no verdict"),
            Some(verdict) => put_said(scope.choose(id, verdict), out),
        }
    } else if word == "complete" {
        put_said(scope.complete(id), out)
    } else if word == "owe" {
        let owed = scope.owe(id);
        write!(out, "{owed}")
    } else if word == "ask" {
        let asked = scope.ask(id);
        write!(out, "{asked}")
    } else if word == "tick" {
        put_notice(scope.end_tick(id), out)
    } else {
        put_received(scope, id, more, out)
    }
}

/// Appends the state to which a notice leads an end.
fn put_received(scope: &mut Scope, id: Id, name: &str, out: &mut String) -> Result<(), AllocError> {
    match notice_named(name) {
        None => out.push_str("no step"),
        Some(notice) => match scope.end_receive(id, notice) {
            CRow::Invalid => out.push('-'),
            CRow::Row { next, prompt: _ } => write!(out, "{next}"),
        },
    }
}
