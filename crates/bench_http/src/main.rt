//! Reads the message in a file so many times from a link in memory, to be timed by hand, and prints how many times it was
//! whole. The words are what is read, `request` or `reply`, or `link` for the bytes alone; the file's path; how many times; and
//! how many bytes a read gives at most.
#![tactic(auto)]

use ba_core::List;
use ba_http::{read_reply, read_request};
use ba_ports::Link;
use ba_ports_memory::{Out, ScriptLink, Text};
use std::alloc::{AllocError, Global};
use std::process::ExitCode;
use std::{env, fs};

/// What is read of the link.
#[derive(Clone, Copy)]
enum Kind {
    Request,
    Reply,
    Link,
}

/// What the words ask for.
#[derive(Drop)]
struct Task {
    kind: Kind,
    text: String,
    times: u32,
    most: usize,
}

fn main(rt: HostRuntime) -> ExitCode {
    let Some(task) = asked(&rt) else {
        return ExitCode::FAILURE;
    };
    let Ok(whole) = read_all(rt.alloc(), &task) else {
        return ExitCode::FAILURE;
    };
    match println!(rt; "{whole} of {} whole", task.times) {
        Ok(()) => ExitCode::SUCCESS,
        Err(_) => ExitCode::FAILURE,
    }
}

fn asked(rt: &HostRuntime) -> Option<Task> {
    let mut words = env::args(rt).ok()?.skip(1);
    let kind = match words.next()?.as_str() {
        "request" => Kind::Request,
        "reply" => Kind::Reply,
        _ => Kind::Link,
    };
    let path = words.next()?;
    let times = words.next()?.parse::<u32>().ok()?;
    let most = words.next()?.parse::<usize>().ok()?;
    let text = fs::read_to_string(rt, path.as_str()).ok()?;
    Some(Task {
        kind,
        text,
        times,
        most,
    })
}

/// Reads the message so many times, and says how many times it was whole.
fn read_all(alloc: Global, task: &Task) -> Result<u32, AllocError> {
    let mut whole: u32 = 0;
    for _ in 0..task.times {
        let bytes = Vec::from_slice(alloc, task.text.as_bytes())?;
        let input = Text::of(List::of(bytes), task.most.max(1), List::new(alloc));
        let mut link = ScriptLink::of(input, Out::of(alloc, 0, List::new(alloc)));
        if is_whole(alloc, task.kind, &mut link) {
            whole = whole.saturating_add(1);
        }
    }
    Ok(whole)
}

fn is_whole(alloc: Global, kind: Kind, link: &mut ScriptLink) -> bool {
    match kind {
        Kind::Request => read_request(alloc, link).is_ok(),
        Kind::Reply => read_reply(alloc, link).is_ok(),
        Kind::Link => has_end(link),
    }
}

/// Whether the link's bytes end, all of which are read.
fn has_end(link: &mut ScriptLink) -> bool {
    let mut room = [0u8; 4096];
    for _ in 0..1_000_000 {
        match link.read(&mut room) {
            Ok(0) => return true,
            Ok(_) => (),
            Err(_) => return false,
        }
    }
    false
}
