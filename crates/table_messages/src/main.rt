//! Reads a table of endpoints, contexts and messages from the standard input, a row a line, and prints each row with its answer
//! after ` => `. A row is one of these:
//!
//! - `dial: ADDRESS`. The answer is whether the address can be dialed;
//! - `size: ENDPOINT`. The answer is how many bytes the endpoint takes in a record;
//! - `fits: ENDPOINT`. The answer is whether the endpoint fits into messages and records;
//! - `equal: ENDPOINT and ENDPOINT`. The answer is whether they are equal;
//! - `copy: CONTEXT`. The answer is a copy of the context, whose registration has to equal its own;
//! - `element: CONTEXT`. The answer is the context that is read from the element that is made of this one;
//! - `route: NUMBER ENDPOINT`. The answer is the route of a letter with this number to this endpoint;
//! - `notice: Close`. The answer is the message and its To, as read from the tree of an envelope made of it, which has to be writable;
//! - `message: TEXT`. The answer is the message that the text means, and its To;
//! - `action: TEXT`. The answer is the action of the message that the text means;
//! - `text: TEXT`. The answer is the text of the element that the text is;
//! - `check: TEXT`. The answer is what the command prints that checks an envelope;
//! - `response: 404`. The answer is the response with this code and no body, as it is written to a connection;
//! - `request: ADDRESS "ACTION" BODY`. The answer is the request, as it is written to a connection;
//! - `# ` and a heading, which has no answer.
//!
//! Endpoints and contexts stand as answers show them. An endpoint is its address in quotes and, in brackets, its parameter, where
//! there is one. A tree is a name, `name=value;` for each attribute and, after `|`, its content, with texts in quotes and namespaces
//! in braces.
//!
//! A backslash and two digits stand for a byte, as in `\0a`. In a row, not in an answer, braces with a star stand for a piece so
//! many times, as in `{255*h}`. All else stands for itself.
#![tactic(auto)]

mod answers;
mod contexts;
mod endpoints;
mod envelopes;
mod exchanges;
mod rows;

use std::io;

fn main(rt: HostRuntime) -> io::Result<()> {
    for line in rt.lines(rt.alloc()) {
        let line = line?;
        if line.starts_with("# ") {
            println!(rt; "{line}")?;
        } else {
            let answer = answers::answer(rt.alloc(), line.as_str())?;
            println!(rt; "{line} => {answer}")?;
        }
    }
    Ok(())
}
