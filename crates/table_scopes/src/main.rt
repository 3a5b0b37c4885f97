//! Reads what is done to scopes from the standard input, a row a scope, and prints each row with the answers after ` => `. A row
//! is `root KIND DEADLINE: ` or `child KIND DEADLINE: `, with `-` for no deadline, and steps that are parted by commas. The scope
//! is 1.1, and a child's participant 1.2, which is of CoordinatorCompletion and registering. Steps and their answers are
//!
//! - `enrol N`: the participant of this number, as the end 1.N: `enrolled`, `there already`, or why not;
//! - `fill`: participants from 1000 on, until one isn't enrolled: how many ends there are, and why not;
//! - `choose ID VERDICT`, `complete ID`, `decide VERDICT`, `finish`, `leave exit`: `ok`, or the number of a refusal and the
//!   object that shows it;
//! - `expire NOW`, `owe ID`, `ask ID`: whether that changes anything;
//! - `receive ID NOTICE` at an end, and `hear NOTICE` at a child's participant: the next state, or `-`;
//! - `tick ID` of an end, and `say` of a child's participant: the notice, or `-`;
//! - `enrolled`, `refused`: that the child's Register is answered;
//! - `verdict`: the scope's verdict, or `-`;
//! - `drained`: whether any end has failed where all have ended, or `-`.
//!
//! A row that begins with `# ` is a heading, which has no answer.
#![tactic(auto)]

mod answers;
mod ends;
mod scopes;
mod steps;
mod ups;

use std::io;

fn main(rt: HostRuntime) -> io::Result<()> {
    for line in rt.lines(rt.alloc()) {
        let line = line?;
        if line.starts_with("# ") {
            println!(rt; "{line}")?;
        } else {
            let answer = answers::answer(rt.alloc(), line.as_str())?;
            println!(rt; "{line} => {answer}")?;
        }
    }
    Ok(())
}
