//! A reader, a writer, a file, a connection and a clock are used once through their traits, with a failure in
//! the middle.

use ba_ports::{Clock, Disk, Failed, Link, Moment, Sink, Source};
use ba_ports_memory::FixedClock;
use ba_ports_system::{FileDisk, ReadSource, SystemClock, TcpLink, WriteSink};
use std::fs::OpenOptions;
use std::io::{ErrorKind, Read, Write};
use std::net::{TcpListener, TcpStream};
use std::test::Fail;
use std::time::Duration;
use std::{fs, io};

const PATH: &str = "ba_system_file_disk_test";

/// A reader or a writer whose second call fails.
#[derive(Drop)]
struct Shaky<T> {
    inner: T,
    calls: u8,
}

impl<T> Shaky<T> {
    fn of(inner: T) -> Shaky<T> {
        Shaky { inner, calls: 0 }
    }

    fn call(&mut self) -> io::Result<()> {
        self.calls = self.calls.saturating_add(1);
        if self.calls == 2 {
            return Err(io::Error::from(ErrorKind::Other));
        }
        Ok(())
    }
}

impl<R: Read> Read for Shaky<R> {
    fn read(&mut self, room: &mut [u8]) -> io::Result<usize> {
        self.call()?;
        self.inner.read(room)
    }
}

impl<W: Write> Write for Shaky<W> {
    fn write(&mut self, piece: &[u8]) -> io::Result<usize> {
        self.call()?;
        self.inner.write(piece)
    }

    fn flush(&mut self) -> io::Result<()> {
        self.inner.flush()
    }
}

/// What a read answers, and the count of faults after it.
fn read<S: Source>(source: &mut S, room: &mut [u8]) -> (Result<usize, Failed>, u64) {
    let answer = source.read(room);
    (answer, source.faults())
}

/// What a write answers, and the count of faults after it.
fn write<K: Sink>(sink: &mut K, piece: &[u8]) -> (Result<usize, Failed>, u64) {
    let answer = sink.write(piece);
    (answer, sink.faults())
}

#[test]
fn reads_a_reader(rt: HostRuntime) {
    let mut source = ReadSource::of(Shaky::of(b"hello".as_slice()));
    let mut room = *b"---";
    assert_eq!(rt; read(&mut source, &mut room), (Ok(3), 0));
    assert_eq!(rt; room, *b"hel");
    assert_eq!(rt; read(&mut source, &mut room), (Err(Failed), 1));
    assert_eq!(rt; read(&mut source, &mut room), (Ok(2), 1));
    assert_eq!(rt; room, *b"lol");
    assert_eq!(rt; read(&mut source, &mut room), (Ok(0), 1));
}

#[test]
fn writes_a_writer(rt: HostRuntime) {
    let mut bytes = Vec::new(rt.alloc());
    let mut sink = WriteSink::of(Shaky::of(&mut bytes));
    assert_eq!(rt; write(&mut sink, b"one"), (Ok(3), 0));
    assert_eq!(rt; write(&mut sink, b"two"), (Err(Failed), 1));
    assert_eq!(rt; write(&mut sink, b"two"), (Ok(3), 1));
    assert_eq!(rt; bytes.as_slice(), b"onetwo".as_slice());
}

/// Writes a piece, where the file reaches its place.
fn write_at<D: Disk>(disk: &mut D, place: u64, piece: &[u8]) -> Result<(), Failed> {
    if place > disk.len()? {
        return Err(Failed);
    }
    disk.write_at(place, piece)
}

/// Cuts the file, where it is as long.
fn cut<D: Disk>(disk: &mut D, len: u64) -> Result<(), Failed> {
    if len > disk.len()? {
        return Err(Failed);
    }
    disk.cut(len)
}

/// Writes, reads and cuts an empty disk.
fn use_disk<D: Disk>(disk: &mut D, room: &mut [u8]) -> Result<(u64, usize, usize), Failed> {
    write_at(disk, 0, b"hello")?;
    write_at(disk, 4, b"p me")?;
    disk.sync()?;
    cut(disk, 6)?;
    disk.sync()?;
    let moved = disk.read_at(1, room)?;
    Ok((disk.len()?, moved, disk.read_at(6, room)?))
}

#[test]
fn uses_a_file(rt: HostRuntime) -> Result<(), Fail> {
    let _ = fs::remove_file(&rt, PATH);
    let mut options = OpenOptions::new();
    options.read(true).write(true).create_new(true);
    let mut disk = FileDisk::of(options.open(&rt, PATH)?);
    let mut room = [0; 3];
    let answer = use_disk(&mut disk, &mut room);
    let past_the_end = disk.write_at(u64::MAX, b"ab");
    let text = fs::read(&rt, PATH);
    fs::remove_file(&rt, PATH)?;
    assert_eq!(rt; answer, Ok((6, 3, 0)));
    assert_eq!(rt; room, *b"ell");
    assert_eq!(rt; past_the_end, Err(Failed));
    assert_eq!(rt; disk.faults(), 1);
    assert_eq!(rt; text?.as_slice(), b"hellp ".as_slice());
    Ok(())
}

/// What a link answers that is written once, then read until it fails, and how often it has failed then.
fn talk<K: Link>(
    link: &mut K,
    room: &mut [u8],
) -> (Result<usize, Failed>, Result<usize, Failed>, u64) {
    let written = link.write(b"hello");
    let _ = link.read(room);
    let answer = link.read(room);
    (written, answer, link.faults())
}

#[test]
fn talks_over_tcp(rt: HostRuntime) -> Result<(), Fail> {
    let listener = TcpListener::bind(&rt, "127.0.0.1:0")?;
    let stream = TcpStream::connect(&rt, listener.local_addr()?)?;
    let (mut peer, _) = listener.accept()?;
    peer.write_all(b"hi")?;
    assert!(rt; TcpLink::of(peer.try_clone()?, Duration::ZERO).is_err());
    let mut link = TcpLink::of(stream, Duration::from_millis(50))?;
    let mut room = *b"---";
    assert_eq!(rt; talk(&mut link, &mut room), (Ok(5), Err(Failed), 1));
    assert_eq!(rt; room, *b"hi-");
    let mut heard = *b"-----";
    peer.read_exact(&mut heard)?;
    assert_eq!(rt; heard, *b"hello");
    Ok(())
}

/// The moments before and after a pause.
fn pause<C: Clock>(clock: &C, milliseconds: u64) -> (Moment, Moment) {
    let before = clock.now();
    clock.pause(milliseconds);
    (before, clock.now())
}

#[test]
fn pauses(rt: HostRuntime) -> Result<(), Fail> {
    let (before, after) = pause(&SystemClock::of(rt.clone()?), 20);
    assert!(rt; before > Moment(1_700_000_000_000));
    assert!(rt; after.since(before) >= 20);
    Ok(())
}

#[test]
fn stands_still(rt: HostRuntime) {
    assert_eq!(rt;
        pause(&FixedClock::of(Moment(77)), 1),
        (Moment(77), Moment(77))
    );
}
