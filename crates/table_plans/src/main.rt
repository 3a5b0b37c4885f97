//! Reads what is done to plans from the standard input, a row a plan, and prints each row with the answers after ` => `. A row
//! is `plan NODE SENDERS LAST: ` and steps that are parted by commas. It makes the plan of that node for so many senders, with
//! room for its objects up to the counter LAST. Steps and their answers are
//!
//! - `prompt ID NOW`, `later ID MOMENT`, `sent ID NOW` and `quiet ID`: `MOMENT+DELAY` of the object then, or `-`, or `no room`;
//! - `next SHARE NOW`: the object whose turn it is, or `-`, or `no sender`;
//! - `reserve LAST`: `ok`, or `no memory`;
//! - `all COUNT`: room for so many objects, each of which is prompted at 0 and then, when it is next, put off to 1,000,000: how
//!   many were next in the order of their counters.
//!
//! A row that begins with `# ` is a heading, which has no answer.
#![tactic(auto)]

mod answers;
mod steps;

use std::io;

fn main(rt: HostRuntime) -> io::Result<()> {
    for line in rt.lines(rt.alloc()) {
        let line = line?;
        if line.starts_with("# ") {
            println!(rt; "{line}")?;
        } else {
            let answer = answers::answer(rt.alloc(), line.as_str())?;
            println!(rt; "{line} => {answer}")?;
        }
    }
    Ok(())
}
