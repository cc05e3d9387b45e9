// What the readers of the seven files answered: FIELD of the first that has it, how many numbers of each table stand
// where they were stored, and the chart's frame.
#![tactic(auto)]

ghost use Rattle.std.specs.Prelude.{◌≡◌};
ghost use Rattle.csv_tables.specs.Told.{rows_of, field_verdict, Counted, chart_from};

use csv_columns::{Column, kept};
use meaning::Refusal;
use tables::Chart;

// What the reader of each file answered.
#[derive(Clone, Copy)]
pub struct Answers {
    pub frame: Result<usize, Refusal>,
    pub states: Result<usize, Refusal>,
    pub moves: Result<usize, Refusal>,
    pub presets: Result<usize, Refusal>,
    pub timer_pairs: Result<usize, Refusal>,
    pub output_pairs: Result<usize, Refusal>,
    pub scans: Result<usize, Refusal>,
}

// "FIELD comes before all, file by file in the order of the program section."
pub fn fields_pass(a: Answers) -> Result<(), Refusal>
    ensures { result ≡ field_verdict a }
{
    a.frame?;
    a.states?;
    a.moves?;
    a.presets?;
    a.timer_pairs?;
    a.output_pairs?;
    a.scans?;
    Ok(())
}

// How many numbers of each table there are, or were kept.
#[derive(Clone, Copy)]
pub struct Counts {
    pub states: usize,
    pub moves: usize,
    pub presets: usize,
    pub timer_pairs: usize,
    pub output_pairs: usize,
    pub scans: usize,
}

// A file that is refused has no rows.
fn rows(a: Result<usize, Refusal>) -> usize
    ensures { result ≡ rows_of a }
{
    a.unwrap_or(0)
}

// How many rows each file has.
pub fn count_rows(a: Answers) -> Counts
    ensures { Counted a result }
{
    Counts {
        states: kept::<2>(rows(a.states), 514),
        moves: kept::<{ Chart::MOVE_ROW }>(rows(a.moves), 5643),
        presets: kept::<1>(rows(a.presets), 33),
        timer_pairs: kept::<2>(rows(a.timer_pairs), 4098),
        output_pairs: kept::<2>(rows(a.output_pairs), 4098),
        scans: kept::<1>(rows(a.scans), 4096),
    }
}

// "frame.csv (step, inputs, outputs, 32 bits each)"
pub fn chart_of(frame: &[u64; 3]) -> Chart
    ensures { result ≡ chart_from frame.now }
{
    Chart {
        step: u32::narrow(frame[0]),
        inputs: u32::narrow(frame[1]),
        outputs: u32::narrow(frame[2]),
    }
}
