// The program: reads the seven files of a folder, the one that its last argument names or else the one that it is
// started in, and prints what the crate `print_text` makes of them: the text and its run, or with --needs what the
// moves need. Every byte on standard output comes from there.
#![tactic(auto)]

mod message;

use csv_cursor::Reader;
use csv_file::File;
use csv_tables::Answers;
use meaning::Refusal;
use print_text::{PageKind, Stored};
use std::alloc::AllocError;
use std::env::Args;
use std::io::{Eprint, Read};
use std::rt::Runtime;
use std::{env, fs, io};

// What the reader of a file answers: how many records there are, or why the file is refused.
type Answer = Result<usize, Refusal>;

// Why nothing is printed. It is told in one line in words, but for trouble with memory or with the printing itself.
#[derive(Drop)]
enum Trouble {
    OnFolder(io::Error),
    OnFile(File, io::Error),
    Elsewhere(io::Error),
}

impl From<io::Error> for Trouble {
    fn from(error: io::Error) -> Trouble {
        Trouble::Elsewhere(error)
    }
}

impl From<AllocError> for Trouble {
    fn from(error: AllocError) -> Trouble {
        Trouble::Elsewhere(io::Error::from(error))
    }
}

// The file in pieces to its end. A proved loop has to end, so it counts its turns up to a number that no run reaches.
fn feed_all(file: &mut impl Read, first: Reader, out: &mut [u64]) -> io::Result<Reader> {
    let mut reader = first;
    let mut piece = [0u8; 4096];
    for _ in 0..u64::MAX {
        let n = file.read(&mut piece)?;
        if n == 0 {
            return Ok(reader);
        }
        reader = csv_records::feed(reader, &piece[..n], out);
    }
    Err(io::Error::from(io::ErrorKind::Other))
}

// "a missing one is empty"; one that is there and cannot be read is no refusal.
fn read_all<R: Runtime>(rt: &R, path: &str, file: File, out: &mut [u64]) -> io::Result<Answer> {
    let reader = csv_file::reader_for(file);
    let last = match fs::open(rt, path) {
        Ok(mut opened) => feed_all(&mut opened, reader, out)?,
        Err(error) if error.kind() == io::ErrorKind::NotFound => reader,
        Err(error) => return Err(error),
    };
    Ok(csv_records::finish(last, out))
}

fn load<R: Runtime>(rt: &R, folder: &str, file: File, out: &mut [u64]) -> Result<Answer, Trouble> {
    let path = format!(in rt.alloc(); "{folder}/{file}")?;
    read_all(rt, path.as_str(), file, out).map_err(|error| Trouble::OnFile(file, error))
}

// What is printed, and why nothing else is.
fn show(
    rt: &impl Runtime,
    page: PageKind,
    answers: Answers,
    stored: &Stored<'_>,
) -> io::Result<()> {
    let mut out = [0u8; print_text::PAGE_MOST];
    let printed = print_text::print(page, answers, stored, &mut out);
    rt.write_all(&out[..printed.length])?;
    match printed.verdict {
        Ok(()) => Ok(()),
        Err(r) => message::refusal(rt, r, answers),
    }
}

// Whether the folder is there and can be opened. It is closed again before its files are read.
fn open_once<R: Runtime>(rt: &R, folder: &str) -> io::Result<()> {
    let _folder = fs::open(rt, folder)?;
    Ok(())
}

// A folder that is not there is no folder of missing files. A row more is kept of each table than its limit, so that
// the check itself says SIZE.
fn run<R: Runtime>(rt: &R, page: PageKind, folder: &str) -> Result<(), Trouble> {
    open_once(rt, folder).map_err(Trouble::OnFolder)?;
    let mut frame = [0u64; 3];
    let mut states = [0u64; 514];
    let mut moves = [0u64; 5643];
    let mut presets = [0u64; 33];
    let mut timer_pairs = [0u64; 4098];
    let mut output_pairs = [0u64; 4098];
    let mut scans = [0u64; 4096];
    let answers = Answers {
        frame: load(rt, folder, File::Frame, &mut frame)?,
        states: load(rt, folder, File::States, &mut states)?,
        moves: load(rt, folder, File::Moves, &mut moves)?,
        presets: load(rt, folder, File::Presets, &mut presets)?,
        timer_pairs: load(rt, folder, File::TimerPairs, &mut timer_pairs)?,
        output_pairs: load(rt, folder, File::OutputPairs, &mut output_pairs)?,
        scans: load(rt, folder, File::Scans, &mut scans)?,
    };
    let stored = Stored {
        frame: &frame,
        states: &states,
        moves: &moves,
        presets: &presets,
        timer_pairs: &timer_pairs,
        output_pairs: &output_pairs,
        scans: &scans,
    };
    show(rt, page, answers, &stored)?;
    Ok(())
}

fn start<R: Runtime>(rt: &R, page: PageKind, folder: &str) -> io::Result<()> {
    match run(rt, page, folder) {
        Ok(()) => Ok(()),
        Err(Trouble::OnFolder(error)) => eprintln!(rt; "{folder}: {error}"),
        Err(Trouble::OnFile(file, error)) => eprintln!(rt; "{folder}/{file}: {error}"),
        Err(Trouble::Elsewhere(error)) => Err(error),
    }
}

// What the arguments ask for. The first is the program's name. The folder is the last, or the one that the program is
// started in; one whose name begins with - can be given as ./-name.
fn start_asked<R: Runtime>(rt: &R, mut words: Args) -> io::Result<()> {
    let _name = words.next();
    let mut page = PageKind::Text;
    let mut word = words.next();
    if word.as_deref() == Some("--needs") {
        page = PageKind::Needs;
        word = words.next();
    }
    let folder = word.as_deref().unwrap_or(".");
    if folder.starts_with('-') || words.next().is_some() {
        return eprintln!(rt; "usage: splicetuck [--needs] [FOLDER]");
    }
    start(rt, page, folder)
}

// An argument that is no text is trouble.
fn main(rt: HostRuntime) -> io::Result<()> {
    match env::args(&rt) {
        Ok(words) => start_asked(&rt, words),
        Err(error) => eprintln!(rt; "splicetuck: the arguments: {error}"),
    }
}
