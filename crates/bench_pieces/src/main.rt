//! Reads a text of XML in pieces, or at once, to be timed by hand. The words are the file's path, the size of a piece, with 0
//! for the whole at once, and how many times it is read.
#![tactic(auto)]

ghost use Rattle.std.specs.Prelude.{◌<◌};

use ba_xml::{Reader, XmlFault, read};
use std::alloc::Global;
use std::process::ExitCode;
use std::{env, fs};

fn main(rt: HostRuntime) -> ExitCode {
    match asked(&rt) {
        Some((bytes, size, count)) => match read_each(rt.alloc(), &bytes, size, count) {
            Ok(()) => ExitCode::SUCCESS,
            Err(_) => ExitCode::FAILURE,
        },
        None => ExitCode::FAILURE,
    }
}

fn asked(rt: &HostRuntime) -> Option<(Vec<u8>, usize, u64)> {
    let mut words = env::args(rt).ok()?.skip(1);
    let path = words.next()?;
    let size = words.next()?.parse::<usize>().ok()?;
    let count = words.next()?.parse::<u64>().ok()?;
    let bytes = fs::read(rt, path.as_str()).ok()?;
    Some((bytes, size, count))
}

fn read_each(alloc: Global, bytes: &[u8], size: usize, count: u64) -> Result<(), XmlFault> {
    for _ in 0..count {
        if size == 0 {
            read(alloc, bytes)?;
        } else {
            read_in_pieces(alloc, bytes, size)?;
        }
    }
    Ok(())
}

fn read_in_pieces(alloc: Global, bytes: &[u8], size: usize) -> Result<(), XmlFault>
    requires { 0 < size }
{
    let mut reader = Reader::new(alloc)?;
    for piece in bytes.chunks(size) {
        reader.feed(piece)?;
    }
    reader.end()?;
    Ok(())
}
