//! Reads a table of envelopes from the standard input, a row a line, and prints each row with its answer after ` => `.
//! A row is one of these:
//!
//! - a text, which is read as the envelope of a message. The answer is what it means, or its refusal;
//! - `says: HEADERS | BODY`, which stands for an envelope with these header blocks and this content of the Body. The
//!   prefixes `s`, `w`, `c`, `b` and `o` are declared, for the namespaces that rows name `soap`, `wsa`, `wscoor`,
//!   `wsba` and `own`;
//! - `parts: CONTENT`, which stands for an envelope of this content, with the same prefixes;
//! - `text: ` and one of these. The answer is the canonical text of what it means; `unknown` where it names what isn't
//!   known; `unwritable` where that text would go past the limits; or the refusal;
//! - `letter: ENDPOINT of ` and one of the first three. The answer is the canonical text of the letter of what it means, from
//!   this endpoint, as answers show endpoints; or one of the same words, or the refusal;
//! - `# ` and a heading, which has no answer.
//!
//! What an envelope means is the name of its message; the texts of To, MessageID and RelatesTo and the reference
//! parameters, each where there are any, as `to`, `id`, `relates` and `parameters`; and after `|` what the message
//! says. Texts stand in quotes. An endpoint is its address, and in brackets its parameters. A tree is a name,
//! `name=value;` for each attribute and, after `|`, its content, with namespaces in braces.
//!
//! A refusal is `xml` with the number of its reason and the place, or `soap` or `wire` with its number, and the header's
//! name or the number of the header block or of the element in the body, where it has one.
//!
//! A backslash and two digits stand for a byte, as in `\0a`. In a row, not in an answer, braces stand for a piece so
//! many times, as in `{32*<a>}`, or for a namespace, as in `{wsa}`; a row has backslashes and braces only so. All else
//! stands for itself.
#![tactic(auto)]

mod answers;
mod rows;

use std::io;

fn main(rt: HostRuntime) -> io::Result<()> {
    for line in rt.lines(rt.alloc()) {
        let line = line?;
        if line.starts_with("# ") {
            println!(rt; "{line}")?;
        } else {
            let answer = answers::answer(rt.alloc(), line.as_str())?;
            println!(rt; "{line} => {answer}")?;
        }
    }
    Ok(())
}
