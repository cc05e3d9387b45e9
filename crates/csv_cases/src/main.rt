// Every way to FIELD, and what passes, as document 01 says. A line of standard input is a file: the first letter says
// which, / stands for LF, | for CR, @ for NUL and {}~ for a byte order mark. Each is read whole and a byte at a time.
#![tactic(auto)]

use csv_cursor::Reader;
use std::io;
use std::io::{Read, Write};

fn reader_of(letter: u8) -> Reader {
    match letter {
        b'f' => Reader::frame(),
        b's' => Reader::states(),
        b'm' => Reader::moves(),
        b'p' => Reader::presets(),
        b't' => Reader::pairs(),
        _ => Reader::scans(),
    }
}

fn byte_of(b: u8) -> u8 {
    match b {
        b'/' => b'\n',
        b'|' => b'\r',
        b'@' => 0,
        b'{' => 239,
        b'}' => 187,
        b'~' => 191,
        _ => b,
    }
}

// The file that a line stands for, as far as it has room.
fn decode(line: &[u8], file: &mut [u8]) {
    for (to, b) in file.iter_mut().zip(line) {
        *to = byte_of(*b);
    }
}

// The file, a byte a call.
fn one_by_one(r: Reader, file: &[u8], out: &mut [u64]) -> Reader {
    let mut s = r;
    for b in file {
        s = csv_records::feed(s, &[*b], out);
    }
    s
}

// What the reader answers at the end of its file; of rows all that out has then, the rest of it too.
fn print_end(rt: &impl Print, r: Reader, out: &mut [u64]) -> io::Result<()> {
    match csv_records::finish(r, out) {
        Ok(n) => {
            print!(rt; "ROWS,{n}")?;
            for n in out {
                print!(rt; " {n}")?;
            }
            Ok(())
        }
        Err(r) => {
            let number = meaning::number(r);
            let place = meaning::place(r);
            print!(rt; "REFUSED,{number},{place}")
        }
    }
}

fn both(rt: &impl Print, r: Reader, file: &[u8]) -> io::Result<()> {
    let mut out = [7u64; 12];
    print!(rt; " : ")?;
    let s = csv_records::feed(r, file, &mut out);
    print_end(rt, s, &mut out)?;
    let mut other = [7u64; 12];
    print!(rt; " : ")?;
    let t = one_by_one(r, file, &mut other);
    print_end(rt, t, &mut other)?;
    println!(rt)
}

// A line without a byte is none, and one that is longer than the room is left out.
fn show(rt: &impl Print, line: &[u8]) -> io::Result<()> {
    let Some((letter, rest)) = line.split_first() else {
        return Ok(());
    };
    io::writer(rt).write_all(line)?;
    let mut file = [0u8; 80];
    decode(rest, &mut file);
    match file.get(..rest.len()) {
        Some(whole) => both(rt, reader_of(*letter), whole),
        None => Ok(()),
    }
}

// As many records "1", and the bytes last, as a file of scans; no number is shown.
fn many(rt: &impl Print, count: usize, last: &[u8]) -> io::Result<()> {
    let mut s = Reader::scans();
    for _ in 0..count {
        s = csv_records::feed(s, b"1\n", &mut []);
    }
    s = csv_records::feed(s, last, &mut []);
    print_end(rt, s, &mut [])?;
    println!(rt)
}

// Two places for six numbers: the counting goes on.
fn short(rt: &impl Print) -> io::Result<()> {
    let mut out = [7u64; 2];
    let s = csv_records::feed(Reader::states(), b"1,2\n3,4\n5,6", &mut out);
    print_end(rt, s, &mut out)?;
    println!(rt)
}

fn main(rt: HostRuntime) -> io::Result<()> {
    let mut text = Vec::new(rt.alloc());
    rt.reader().read_to_end(&mut text)?;
    for piece in text.split_inclusive(|b| *b == b'\n') {
        if let Some(line) = piece.strip_suffix(b"\n") {
            show(&rt, line)?;
        }
    }
    many(&rt, 4096, b"")?;
    many(&rt, 4096, b"1")?;
    many(&rt, 4096, b"\n")?;
    many(&rt, 4096, b"x\n")?;
    many(&rt, 4095, b"x\n")?;
    short(&rt)
}
