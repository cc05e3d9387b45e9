// Answers told in document 01's numbers: what the calls for C answer, as structs that C has too, and what each is made
// of.
#![tactic(auto)]

ghost use Rattle.std.specs.Prelude.{◌≡◌, leb, Ok, Err};
ghost use Rattle.c_answers.specs.Answers.{Told, CountTold, OutcomeTold, StepTold, SizesTell, ScanTold, WitnessTold};
ghost use Rattle.c_answers.specs.Files.{file_of, RecordsTold};

use chart_calls::StepSeen;
use check_witness::Witness;
use csv_file::{File, FileRead};
use il_sizes::Sizes;
use meaning::Refusal;
use roundtrip_call::WrittenRun;

// Document 01's number of the answer, its place, and how much was written.
#[repr(C)]
#[derive(Clone, Copy)]
pub struct CAnswer {
    pub number: u32,
    pub place: usize,
    pub length: usize,
}

// A refusal has written nothing.
impl From<Refusal> for CAnswer {
    ghost from_gives = { λ r a. Told (Err r) 0 a };

    fn from(r: Refusal) -> CAnswer {
        CAnswer {
            number: meaning::number(r),
            place: meaning::place(r),
            length: 0,
        }
    }
}

// How many scans were done, bytes written or words read; of what was refused none.
impl From<Result<usize, Refusal>> for CAnswer {
    ghost from_gives = { λ r a. CountTold r a };

    fn from(answer: Result<usize, Refusal>) -> CAnswer {
        match answer {
            Ok(length) => CAnswer {
                number: 0,
                place: 0,
                length,
            },
            Err(r) => r.into(),
        }
    }
}

// A check has nothing to tell but its verdict.
impl From<Result<(), Refusal>> for CAnswer {
    ghost from_gives = { λ v a. Told v 0 a };

    fn from(verdict: Result<(), Refusal>) -> CAnswer {
        verdict.map(|_| 0usize).into()
    }
}

// Of a text that was written, read back and run, its length.
impl From<Result<WrittenRun, Refusal>> for CAnswer {
    ghost from_gives = { λ o a. OutcomeTold o a };

    fn from(outcome: Result<WrittenRun, Refusal>) -> CAnswer {
        match outcome {
            Ok(ran) => Ok::<usize, Refusal>(ran.text).into(),
            Err(r) => r.into(),
        }
    }
}

// Of a file that was read, how many numbers it has.
impl From<Result<FileRead, Refusal>> for CAnswer {
    ghost from_gives = { λ r a. RecordsTold r a };

    fn from(read: Result<FileRead, Refusal>) -> CAnswer {
        match read {
            Ok(file) => Ok::<usize, Refusal>(file.numbers).into(),
            Err(r) => r.into(),
        }
    }
}

// Whether a number is that of one of the seven files.
pub fn is_file(kind: u32) -> bool
    ensures { result ≡ leb kind 6 }
{
    kind <= 6
}

// The file that C names by its place in the order of the program section, from 0; scans.csv for any number above. C
// gives a number; and no TryFrom, since this answers for each.
pub fn file_of(kind: u32) -> File
    ensures { result ≡ file_of kind }
{
    match kind {
        0 => File::Frame,
        1 => File::States,
        2 => File::Moves,
        3 => File::Presets,
        4 => File::TimerPairs,
        5 => File::OutputPairs,
        _ => File::Scans,
    }
}

// Document 01's number of the verdict and its place; for an OVERLAP what check_witness shows, else 0.
#[repr(C)]
#[derive(Clone, Copy)]
pub struct CWitness {
    pub number: u32,
    pub place: u64,
    pub earlier: u64,
    pub state: u64,
    pub inputs_on: u64,
    pub inputs_off: u64,
    pub timers_on: u64,
    pub timers_off: u64,
}

// Of a check with a witness, the verdict and what is shown.
impl From<Witness> for CWitness {
    ghost from_gives = { λ w a. WitnessTold w a };

    fn from(w: Witness) -> CWitness {
        let a = CAnswer::from(w.verdict);
        CWitness {
            number: a.number,
            place: a.place as u64,
            earlier: w.earlier as u64,
            state: w.state as u64,
            inputs_on: w.on.inputs,
            inputs_off: w.off.inputs,
            timers_on: w.on.timers,
            timers_off: w.off.timers,
        }
    }
}

// Document 01's number of the answer and its place, and what is seen after one scan.
#[repr(C)]
#[derive(Clone, Copy)]
pub struct CStep {
    pub number: u32,
    pub place: usize,
    pub leaf: u16,
    pub outputs: u64,
}

// Of one scan of a chart, the leaf and the outputs after it.
impl From<Result<StepSeen, Refusal>> for CStep {
    ghost from_gives = { λ s a. StepTold s a };

    fn from(step: Result<StepSeen, Refusal>) -> CStep {
        match step {
            Ok(seen) => CStep {
                number: 0,
                place: 0,
                leaf: seen.leaf,
                outputs: seen.outputs,
            },
            Err(r) => {
                let CAnswer { number, place, .. } = r.into();
                CStep {
                    number,
                    place,
                    leaf: 0,
                    outputs: 0,
                }
            }
        }
    }
}

// Document 01's number of the answer, its place, and the output word of a scan.
#[repr(C)]
#[derive(Clone, Copy)]
pub struct CScan {
    pub number: u32,
    pub place: usize,
    pub outputs: u64,
}

// Of one scan of a program, its output word.
impl From<Result<u64, Refusal>> for CScan {
    ghost from_gives = { λ r a. ScanTold r a };

    fn from(scan: Result<u64, Refusal>) -> CScan {
        match scan {
            Ok(word) => CScan {
                number: 0,
                place: 0,
                outputs: word,
            },
            Err(r) => {
                let CAnswer { number, place, .. } = r.into();
                CScan {
                    number,
                    place,
                    outputs: 0,
                }
            }
        }
    }
}

// How many flip-flop bytes and blocks a controller for a list of words has.
#[repr(C)]
#[derive(Clone, Copy)]
pub struct ControllerSizes {
    pub number: u32,
    pub place: usize,
    pub flip_flops: usize,
    pub blocks: usize,
}

// Of words that are a program's, the two sizes.
impl From<Result<Sizes, Refusal>> for ControllerSizes {
    ghost from_gives = { λ s a. SizesTell s a };

    fn from(sizes: Result<Sizes, Refusal>) -> ControllerSizes {
        match sizes {
            Ok(told) => ControllerSizes {
                number: 0,
                place: 0,
                flip_flops: told.flip_flops,
                blocks: told.blocks,
            },
            Err(r) => {
                let CAnswer { number, place, .. } = r.into();
                ControllerSizes {
                    number,
                    place,
                    flip_flops: 0,
                    blocks: 0,
                }
            }
        }
    }
}
