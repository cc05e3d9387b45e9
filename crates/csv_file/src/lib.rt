// One of the seven files as a whole: its numbers from the front of a slice, or why it is refused.
#![tactic(auto)]

ghost use Rattle.std.specs.Prelude.{◌≡◌};
ghost use Rattle.csv_file.specs.Reads.{reader_for, row_for, FilePassed, RecordsRead};

use csv_cursor::Reader;
use meaning::Refusal;
use std::fmt;
use tables::Chart;

// "file by file in the order of the program section"
#[derive(Clone, Copy)]
pub enum File {
    Frame,
    States,
    Moves,
    Presets,
    TimerPairs,
    OutputPairs,
    Scans,
}

// Its name in the folder.
impl fmt::Display for File {
    fn fmt<W: fmt::Write>(&self, f: &mut fmt::Formatter<W>) -> fmt::Result {
        f.write_str(match self {
            File::Frame => "frame.csv",
            File::States => "states.csv",
            File::Moves => "moves.csv",
            File::Presets => "presets.csv",
            File::TimerPairs => "timerpairs.csv",
            File::OutputPairs => "outputpairs.csv",
            File::Scans => "scans.csv",
        })
    }
}

// How many records the file has, and how many numbers they are.
#[derive(Clone, Copy)]
pub struct FileRead {
    pub records: usize,
    pub numbers: usize,
}

// The reader of the file's records.
pub fn reader_for(file: File) -> Reader
    ensures { result ≡ reader_for file }
{
    match file {
        File::Frame => Reader::frame(),
        File::States => Reader::states(),
        File::Moves => Reader::moves(),
        File::Presets => Reader::presets(),
        File::TimerPairs | File::OutputPairs => Reader::pairs(),
        File::Scans => Reader::scans(),
    }
}

// The fields of a record.
fn row_for(file: File) -> usize
    ensures { result ≡ row_for file }
{
    match file {
        File::Frame => 3,
        File::States | File::TimerPairs | File::OutputPairs => 2,
        File::Moves => Chart::MOVE_ROW,
        File::Presets | File::Scans => 1,
    }
}

// The file from its first byte to its end: it measures over an empty part, and writes over one with room.
fn pass(file: File, bytes: &[u8], out: &mut [u64]) -> Result<usize, Refusal>
    ensures { FilePassed file bytes.now out.old result out.new }
{
    let s = csv_records::feed(reader_for(file), bytes, out);
    csv_records::finish(s, out)
}

// FIELD, then ROOM with how many numbers the file has; a refused file leaves out as it was.
pub fn read_records(file: File, bytes: &[u8], out: &mut [u64]) -> Result<FileRead, Refusal>
    ensures { RecordsRead file bytes.now out.old result out.new }
{
    let records = pass(file, bytes, &mut [])?;
    let numbers = records * row_for(file);
    if out.len() < numbers {
        return Err(Refusal::Room(numbers));
    }
    pass(file, bytes, out)?;
    Ok(FileRead { records, numbers })
}
