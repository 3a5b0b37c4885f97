//! The steps on the participant of a child.
ghost use Rattle.std.specs.Prelude.{◌≡◌};
ghost use Rattle.ba_scope_ends.specs.Parts.{is_registering};

use crate::answers::put_notice;
use crate::ends::notice_named;
use crate::scopes::endpoint;
use ba_core::PRow;
use ba_scope::Scope;
use std::alloc::{AllocError, Global};

/// Appends what a step on the participant of a child answers.
pub fn put_step(
    alloc: Global,
    scope: &mut Scope,
    word: &str,
    rest: &str,
    out: &mut String,
) -> Result<(), AllocError> {
    if word == "say" {
        put_notice(scope.up_tick(), out)
    } else if word == "hear" {
        put_heard(scope, rest, out)
    } else if !is_registering(scope) {
        out.push_str("no step")
    } else if word == "enrolled" {
        scope.enrolled(endpoint(alloc, 9)?);
        out.push_str("ok")
    } else {
        scope.refused();
        out.push_str("ok")
    }
}

/// Whether the scope is a child whose Register wasn't answered yet.
fn is_registering(scope: &Scope) -> bool
    ensures { result ≡ is_registering scope.now.up }
{
    match scope.up() {
        None => false,
        Some(part) => part.is_registering(),
    }
}

/// Appends the state to which a notice leads the participant of a child.
fn put_heard(scope: &mut Scope, name: &str, out: &mut String) -> Result<(), AllocError> {
    if is_registering(scope) {
        return out.push_str("registering");
    }
    match notice_named(name) {
        None => out.push_str("no step"),
        Some(notice) => match scope.up_receive(notice) {
            PRow::Invalid => out.push('-'),
            PRow::Row { next, prompt: _ } => write!(out, "{next}"),
        },
    }
}
