//! Words and the names of values.

use ba_core::{
    Act, Code, Kind, List, Memory, Notice, Octets, Protocol, StateName, Verdict, code_of, name_of,
};
use std::alloc::{AllocError, Global};
use std::fmt::Debug;

/// The notices, in the order of their codes.
const NOTICES: [Notice; 16] = [
    Notice::Complete,
    Notice::Close,
    Notice::Cancel,
    Notice::Compensate,
    Notice::Failed,
    Notice::Exited,
    Notice::NotCompleted,
    Notice::Completed,
    Notice::Closed,
    Notice::Canceled,
    Notice::Compensated,
    Notice::Fail,
    Notice::Exit,
    Notice::CannotComplete,
    Notice::GetStatus,
    Notice::Status(StateName::Active),
];

/// Appends what a word is read as, and how that is written.
pub fn put_word(form: &str, word: &str, out: &mut String) -> Result<(), AllocError> {
    let bytes = word.as_bytes();
    if form == "act" {
        match Act::of_word(bytes) {
            None => out.push('-'),
            Some(act) => put_value(act, act.word(), out),
        }
    } else if form == "protocol" {
        match Protocol::of_word(bytes) {
            None => out.push('-'),
            Some(protocol) => put_value(protocol, protocol.word(), out),
        }
    } else if form == "kind" {
        match Kind::of_word(bytes) {
            None => out.push('-'),
            Some(kind) => put_value(kind, kind.word(), out),
        }
    } else if form == "verdict" {
        match Verdict::of_word(bytes) {
            None => out.push('-'),
            Some(verdict) => put_value(verdict, verdict.word(), out),
        }
    } else {
        put_name(form, bytes, out)
    }
}

/// Appends what a name is read as, and how that is written.
fn put_name(form: &str, name: &[u8], out: &mut String) -> Result<(), AllocError> {
    if form == "code" {
        match Code::of_name(name) {
            None => out.push('-'),
            Some(code) => {
                put_value(code, code.name(), out)?;
                write!(out, " {code}")
            }
        }
    } else if form == "state" {
        match StateName::of_name(name) {
            None => out.push('-'),
            Some(state) => put_value(state, state.name(), out),
        }
    } else if form == "notice" {
        match notice_named(name) {
            None => out.push('-'),
            Some(notice) => write!(out, "{}", code_of(notice)),
        }
    } else {
        out.push_str("no row")
    }
}

/// The notice with this name.
fn notice_named(name: &[u8]) -> Option<Notice> {
    for notice in NOTICES {
        if name_of(notice) == name {
            return Some(notice);
        }
    }
    None
}

/// Appends the name of a value in the code, and the word by which it is written.
fn put_value<V: Copy + Debug>(value: V, word: &[u8], out: &mut String) -> Result<(), AllocError> {
    write!(out, "{value:?} ")?;
    put_bytes(word, out)
}

/// Appends bytes that are ASCII.
fn put_bytes(bytes: &[u8], out: &mut String) -> Result<(), AllocError> {
    for byte in bytes {
        out.push(char::from(*byte))?;
    }
    Ok(())
}

/// Appends the list of words and a dot, its length, whether a copy equals it, its length when it has been cleared, and what
/// the copy holds then.
pub fn put_octets(alloc: Global, words: &str, out: &mut String) -> Result<(), AllocError> {
    match octets_of(alloc, words.as_bytes()) {
        Err(Memory) => Err(AllocError),
        Ok((mut list, copy)) => {
            put_bytes(list.as_slice(), out)?;
            write!(out, ", {} bytes, copied {}", list.len(), list == copy)?;
            list.clear();
            write!(out, ", {} when cleared, ", list.len())?;
            put_bytes(copy.into_vec().as_slice(), out)
        }
    }
}

/// The list of words and a dot, and a copy.
fn octets_of(alloc: Global, words: &[u8]) -> Result<(Octets, Octets), Memory> {
    let mut list = List::new(alloc);
    list.append(words)?;
    if list.push(b'.').is_err() {
        return Err(Memory);
    }
    let copy = list.copy()?;
    Ok((list, copy))
}
