//! The program `ba`: it replays written schedules of a business activity, checks envelopes, and lists
//! journals. `main` hands in the real standard streams and the words of the command line, and nothing else.
#![tactic(auto)]

mod command;
mod notes;
mod run;
#[cfg(test)]
mod tests;

use ba_core::List;
use ba_ports_system::{ReadSource, WriteSink};
use notes::{RunFault, refuse};
use run::run;
use std::alloc::Global;
use std::env;
use std::io::ErrorKind;
use std::process::ExitCode;
use std::rt::{Stderr, Stdin, Stdout};

fn main(rt: HostRuntime) -> ExitCode {
    let words = words_given(&rt);
    ExitCode::from(run_over(rt.alloc(), words, rt.stdin(), rt.stdout(), rt.stderr()))
}

// Runs over the standard streams. Their types alone say which is which, so that none stands in for another.
fn run_over(
    alloc: Global,
    words: Result<Vec<String>, RunFault>,
    stdin: Stdin,
    stdout: Stdout,
    stderr: Stderr,
) -> u8 {
    let mut source = ReadSource::of(stdin);
    let mut sink = WriteSink::of(stdout);
    let mut notes = WriteSink::of(stderr);
    match words {
        Ok(words) => run::<ReadSource<Stdin>, WriteSink<Stdout>, WriteSink<Stderr>>(
            alloc,
            words.as_slice(),
            &mut source,
            &mut sink,
            &mut notes,
            &mut List::new(alloc),
        ),
        Err(fault) => refuse::<WriteSink<Stderr>>(fault, &mut notes),
    }
}

// The words after the program's name. One that isn't UTF-8 is no word of any command line.
fn words_given(rt: &HostRuntime) -> Result<Vec<String>, RunFault> {
    match env::args(rt) {
        Ok(words) => words
            .skip(1)
            .collect(rt.alloc())
            .map_err(|_| RunFault::Memory),
        Err(error) if error.kind() == ErrorKind::OutOfMemory => Err(RunFault::Memory),
        Err(_) => Err(RunFault::Usage),
    }
}
