// Where a reader of records stands in its file, and what ends a field and a record: which byte, whether it is in its
// place, and the reader after it.
#![tactic(auto)]

ghost use Rattle.std.specs.Prelude.{◌≡◌};
ghost use Rattle.csv_cursor.specs.Passing.{fresh_reader, bad, ends, separator_fits, passed};

use csv_field::FieldPhase;

pub const COMMA: u8 = b',';

pub const LF: u8 = b'\n';

pub const CR: u8 = b'\r';

// The whole state of the reader of one file.
#[derive(Clone, Copy)]
pub struct Reader {
    // the largest number of the fields' type, and the size of its least
    pub most: u64,
    pub below: u64,
    // the fields of a record after its first
    pub more: usize,
    // how many records the file must have, and may have
    pub least: usize,
    pub limit: usize,
    // the record that is being read, the fields of it to come, and how many numbers are stored
    pub record_no: usize,
    pub left: usize,
    pub at: usize,
    pub phase: FieldPhase,
}

impl Reader {
    // Any number of records.
    fn new(most: u64, below: u64, more: usize) -> Self
        ensures { result ≡ fresh_reader most below more 0 18446744073709551615 }
    {
        Reader {
            most,
            below,
            more,
            least: 0,
            limit: usize::MAX,
            record_no: 0,
            left: more,
            at: 0,
            phase: FieldPhase::Fresh,
        }
    }

    // "frame.csv has one record: none is FIELD at 0, a second FIELD at 1."
    pub fn frame() -> Self
        ensures { result ≡ fresh_reader 4294967295 0 2 1 1 }
    {
        Reader {
            least: 1,
            limit: 1,
            ..Reader::new(u64::from(u32::MAX), 0, 2)
        }
    }

    // states.csv: two numbers of 16 bits.
    pub fn states() -> Self
        ensures { result ≡ fresh_reader 65535 0 1 0 18446744073709551615 }
    {
        Reader::new(u64::from(u16::MAX), 0, 1)
    }

    // moves.csv: eleven numbers of 16 bits with a sign.
    pub fn moves() -> Self
        ensures { result ≡ fresh_reader 32767 32768 10 0 18446744073709551615 }
    {
        Reader::new(32767, 32768, 10)
    }

    // presets.csv: one number of 32 bits.
    pub fn presets() -> Self
        ensures { result ≡ fresh_reader 4294967295 0 0 0 18446744073709551615 }
    {
        Reader::new(u64::from(u32::MAX), 0, 0)
    }

    // timer pairs and output pairs
    pub fn pairs() -> Self
        ensures { result ≡ fresh_reader 65535 0 1 0 18446744073709551615 }
    {
        Reader::new(u64::from(u16::MAX), 0, 1)
    }

    // "scans.csv has at most 4,096: more is FIELD at 4,096."
    pub fn scans() -> Self
        ensures { result ≡ fresh_reader 18446744073709551615 0 0 0 4096 }
    {
        Reader {
            limit: 4096,
            ..Reader::new(u64::MAX, 0, 0)
        }
    }

    // The reader after a record that does not pass.
    pub fn fail(self) -> Self
        ensures { result ≡ bad self }
    {
        Reader {
            phase: FieldPhase::Bad,
            ..self
        }
    }

    // The reader after a field that passes, which b ends. Counts stop at the largest.
    #[tactic(auto, unfolding(crate::specs::Passing::passed))]
    pub fn pass(self, b: u8, at: usize) -> Self
        ensures { result ≡ passed self b at }
    {
        match b {
            COMMA => Reader {
                phase: FieldPhase::Empty,
                left: self.left.saturating_sub(1),
                at,
                ..self
            },
            CR => Reader {
                phase: FieldPhase::Return,
                at,
                ..self
            },
            _ => Reader {
                phase: FieldPhase::Fresh,
                record_no: self.record_no.saturating_add(1),
                left: self.more,
                at,
                ..self
            },
        }
    }
}

// Whether a byte ends a bare field.
pub fn is_end(b: u8) -> bool
    ensures { result ≡ ends b }
{
    matches!(b, COMMA | LF | CR)
}

// "record of wrong field count": a comma has fields after it, the record's end has none.
pub fn in_place(left: usize, b: u8) -> bool
    ensures { result ≡ separator_fits left b }
{
    if b == COMMA { 0 < left } else { left == 0 }
}
