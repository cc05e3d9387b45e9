// What goes to standard error: one line in words.
use csv_file::File;
use csv_tables::Answers;
use meaning::Refusal;
use std::io;
use std::io::Eprint;

// The name of a refusal. It is no Display of Refusal, which its own crate would have to have: only the program says it.
fn name(r: Refusal) -> &'static str {
    match r {
        Refusal::Size => "SIZE",
        Refusal::Hierarchy(_) => "HIERARCHY",
        Refusal::Initial(_) => "INITIAL",
        Refusal::Preset(_) => "PRESET",
        Refusal::TimerPair(_) => "TIMER PAIR",
        Refusal::OutputPair(_) => "OUTPUT PAIR",
        Refusal::Move(_) => "MOVE",
        Refusal::Literal(_) => "LITERAL",
        Refusal::IdleTimer(_) => "IDLE TIMER",
        Refusal::Overlap(_) => "OVERLAP",
        Refusal::FlipFlops => "FLIP-FLOPS",
        Refusal::Room(_) => "ROOM",
        Refusal::Text(_) => "TEXT",
        Refusal::State => "STATE",
        Refusal::Scans => "SCANS",
        Refusal::Field(_) => "FIELD",
    }
}

// FIELD is of the first file that is refused.
fn refused_file(a: Answers) -> Option<File> {
    let answers = [
        (File::Frame, a.frame),
        (File::States, a.states),
        (File::Moves, a.moves),
        (File::Presets, a.presets),
        (File::TimerPairs, a.timer_pairs),
        (File::OutputPairs, a.output_pairs),
        (File::Scans, a.scans),
    ];
    answers
        .iter()
        .find(|(_, answer)| answer.is_err())
        .map(|(file, _)| *file)
}

// The file whose record is the place of the refusal, where that is a record.
fn file_of(r: Refusal, a: Answers) -> Option<File> {
    match r {
        Refusal::Hierarchy(_) | Refusal::Initial(_) => Some(File::States),
        Refusal::Preset(_) => Some(File::Presets),
        Refusal::TimerPair(_) => Some(File::TimerPairs),
        Refusal::OutputPair(_) => Some(File::OutputPairs),
        Refusal::Move(_) | Refusal::Literal(_) | Refusal::IdleTimer(_) | Refusal::Overlap(_) => {
            Some(File::Moves)
        }
        Refusal::Field(_) => refused_file(a),
        Refusal::Size | Refusal::FlipFlops | Refusal::Room(_) => None,
        Refusal::Text(_) | Refusal::State | Refusal::Scans => None,
    }
}

// A record is counted from 0 in the place, and from 1 as a spreadsheet shows it.
fn print_record(rt: &impl Eprint, name: &str, file: File, record: usize) -> io::Result<()> {
    let row = record.saturating_add(1);
    eprintln!(rt;
        "splicetuck: refused, {name}: {file}, record {record} (row {row} in a spreadsheet)"
    )
}

// What is wrong, where that is no record.
fn print_reason(rt: &impl Eprint, name: &str, r: Refusal) -> io::Result<()> {
    match r {
        Refusal::Size => eprintln!(rt;
            "splicetuck: refused, {name}: there is no state, a table has too many rows, or the frame is beyond its limits"
        ),
        Refusal::FlipFlops => eprintln!(rt; "splicetuck: refused, {name}: more than 128"),
        Refusal::Room(length) => eprintln!(rt;
            "splicetuck: refused, {name}: the text has {length} bytes, and 65536 are the most"
        ),
        _ => eprintln!(rt; "splicetuck: refused, {name}"),
    }
}

// The line for a refusal.
pub fn refusal(rt: &impl Eprint, r: Refusal, a: Answers) -> io::Result<()> {
    match file_of(r, a) {
        Some(file) => print_record(rt, name(r), file, meaning::place(r)),
        None => print_reason(rt, name(r), r),
    }
}
