// What came out, one answer to a line.
use std::cmp::Ordering;
use std::io;

pub fn text(rt: &impl Print, s: &[u8]) -> io::Result<()> {
    rt.write_all(s)
}

pub fn line(rt: &impl Print, s: &[u8]) -> io::Result<()> {
    text(rt, s)?;
    text(rt, b"\n")
}

pub fn bad(rt: &impl Print) -> io::Result<()> {
    text(rt, b"bad\n")
}

// The function and what it was asked of.
pub fn asked(rt: &impl Print, function: &[u8], s: &[u8]) -> io::Result<()> {
    text(rt, function)?;
    text(rt, b" ")?;
    text(rt, s)?;
    text(rt, b": ")
}

pub fn asked_both(rt: &impl Print, function: &[u8], a: &[u8], b: &[u8]) -> io::Result<()> {
    asked(rt, function, a)?;
    asked(rt, b"and", b)
}

pub fn flag(rt: &impl Print, is: bool) -> io::Result<()> {
    if is {
        text(rt, b"yes\n")
    } else {
        text(rt, b"no\n")
    }
}

fn byte(rt: &impl Print, b: u8) -> io::Result<()> {
    let one = [b];
    text(rt, &one)
}

// The letter, or a dot in its place.
pub fn mark(rt: &impl Print, letter: u8, is: bool) -> io::Result<()> {
    if is { byte(rt, letter) } else { byte(rt, b'.') }
}

pub fn count(rt: &impl Print, n: u64) -> io::Result<()> {
    println!(rt; "{n}")
}

// A number that was read, or a position where a reader ended, if any.
pub fn found(rt: &impl Print, n: Option<u64>) -> io::Result<()> {
    match n {
        Some(n) => count(rt, n),
        None => bad(rt),
    }
}

pub fn order(rt: &impl Print, o: Ordering) -> io::Result<()> {
    match o {
        Ordering::Less => text(rt, b"less\n"),
        Ordering::Equal => text(rt, b"equal\n"),
        Ordering::Greater => text(rt, b"greater\n"),
    }
}

// All of a buffer, and where the text ends.
pub fn buffer(rt: &impl Print, out: &[u8], to: usize) -> io::Result<()> {
    text(rt, out)?;
    text(rt, b" ")?;
    count(rt, to as u64)
}
