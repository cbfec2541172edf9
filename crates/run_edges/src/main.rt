// Runs the edges of an identifier: lengths, letters in both cases, kinds, every byte value by itself. For each it prints the word
// and its places among 48 and 32 buckets, or the number of the cause and what is returned with it.
// The file stdout was made from documents 01 and 02 by another program, and what is printed is compared with it.
#![tactic(auto)]

use identifier::{Identifier, Kind};
use std::{fmt, io};

// A vector, and its place among so many buckets.
#[derive(Clone, Copy)]
struct Placed {
    vector: u64,
    buckets: u64,
}

impl fmt::Display for Placed {
    fn fmt<W: fmt::Write>(&self, f: &mut fmt::Formatter<W>) -> fmt::Result {
        write!(
            f,
            "{:016x} place {} {}",
            self.vector,
            identifier::threshold(self.vector),
            identifier::bucket(self.vector, self.buckets)
        )
    }
}

// What the bytes are found to be as an identifier of this kind, and the line's end.
fn found(rt: &HostRuntime, kind: u8, s: &[u8]) -> io::Result<()> {
    let read = Identifier::read(kind, s.len(), s);
    match read {
        Ok(w) => {
            let first = Placed {
                vector: w,
                buckets: 48,
            };
            let second = Placed {
                vector: identifier::second(w),
                buckets: 32,
            };
            println!(rt; "word {first} second {second}")
        }
        Err(_) => println!(rt; "no {} {}", answer::number(read), answer::value(read)),
    }
}

fn named(rt: &HostRuntime, kind: u8, s: &str) -> io::Result<()> {
    print!(rt; "{kind} \"{s}\" ")?;
    found(rt, kind, s.as_bytes())
}

fn emaids(rt: &HostRuntime, cases: &[&str]) -> io::Result<()> {
    for s in cases {
        named(rt, Kind::Emaid as u8, s)?;
    }
    Ok(())
}

fn every_byte(rt: &HostRuntime) -> io::Result<()> {
    for b in 0..=255u8 {
        print!(rt; "{b:02x} ")?;
        found(rt, Kind::Emaid as u8, &[b])?;
    }
    Ok(())
}

fn lengths(rt: &HostRuntime) -> io::Result<()> {
    emaids(
        rt,
        &[
            "",
            "a",
            "A",
            "123456789012345678901234567890123456",
            "1234567890123456789012345678901234567",
            "abcdefghijklmnopqrstuvwxyzabcdefghij",
            "ABCDEFGHIJKLMNOPQRSTUVWXYZABCDEFGHIJ",
        ],
    )
}

fn letters_and_marks(rt: &HostRuntime) -> io::Result<()> {
    emaids(
        rt,
        &[
            "Bus-17",
            "BUS-17",
            "bus-17",
            "bUS-17",
            "Tram_2",
            "*",
            "|",
            "0",
            "*-_=:+|@.",
        ],
    )
}

fn refused(rt: &HostRuntime) -> io::Result<()> {
    emaids(
        rt,
        &[
            "a/b",
            "/ab",
            "ab/",
            "a/b/c",
            "a b",
            "123456789012345678901234567890123456/",
            "12345678901234567890123456789012345/",
        ],
    )
}

fn kinds(rt: &HostRuntime) -> io::Result<()> {
    let cases = [
        (0, "Bus-17"),
        (Kind::Central as u8, "Bus-17"),
        (Kind::Iso14443 as u8, "Bus-17"),
        (Kind::Iso15693 as u8, "Bus-17"),
        (Kind::KeyCode as u8, "Bus-17"),
        (Kind::Local as u8, "Bus-17"),
        (Kind::MacAddress as u8, "Bus-17"),
        (8, "Bus-17"),
        (255, "Bus-17"),
        (0, ""),
        (8, ""),
        (9, "a/b"),
    ];
    for (kind, s) in cases {
        named(rt, kind, s)?;
    }
    Ok(())
}

fn main(rt: HostRuntime) -> io::Result<()> {
    lengths(&rt)?;
    letters_and_marks(&rt)?;
    refused(&rt)?;
    kinds(&rt)?;
    every_byte(&rt)
}
