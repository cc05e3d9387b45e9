// The sizes that a chart's tables are held to, for any tables at all: document 01's refusals 1, SIZE, and 11,
// FLIP-FLOPS.
#![tactic(auto)]

ghost use Rattle.std.specs.Prelude.{◌≡◌, ◌≤◌};
ghost use Rattle.meaning.specs.Check.{size_passes, flip_flop_passes};
ghost use Rattle.meaning.specs.Tables.{state_count};
ghost use Rattle.tables.specs.Given.{given};
ghost use Rattle.check_sizes.specs.Parts.{rows_whole, counts_fit, frame_fits};

use tables::{Chart, ChartTables};

// "slice no whole number of rows"
fn rows_whole(t: &ChartTables<'_>) -> bool
    ensures { result ≡ rows_whole (given t.now) }
{
    t.states.len() % 2 == 0
        && t.moves.len() % Chart::MOVE_ROW == 0
        && t.timer_pairs.len() % 2 == 0
        && t.output_pairs.len() % 2 == 0
}

// "count .. beyond its limit, no state"
fn counts_fit(t: &ChartTables<'_>) -> bool
    ensures { result ≡ counts_fit (given t.now) }
{
    1 <= t.state_count()
        && t.state_count() <= Chart::STATES
        && t.move_count() <= Chart::MOVES
        && t.timer_count() <= Chart::TIMERS
        && tables::pair_count(t.timer_pairs) <= Chart::PAIRS
        && tables::pair_count(t.output_pairs) <= Chart::PAIRS
}

// "count or scan step beyond its limit"
fn frame_fits(t: &ChartTables<'_>) -> bool
    ensures { result ≡ frame_fits (given t.now) }
{
    t.chart.inputs <= Chart::INPUTS
        && t.chart.outputs <= Chart::OUTPUTS
        && 1 <= t.chart.step
        && t.chart.step <= Chart::STEP
}

// 1 SIZE.
#[tactic(auto, using(crate::specs::Parts::size_parts))]
pub fn size_passes(t: &ChartTables<'_>) -> bool
    ensures { result ≡ size_passes (given t.now) }
{
    rows_whole(t) && counts_fit(t) && frame_fits(t)
}

// "more than 128"
#[tactic(auto, using(layout::specs::LaidLaws::all_flip_flops), unfolding(meaning::specs::Check::flip_flop_passes))]
pub fn flip_flops_pass(t: &ChartTables<'_>) -> bool
    ensures { state_count (given t.now) ≤ 256 → result ≡ flip_flop_passes (given t.now) }
{
    layout::flip_flops(t) <= Chart::FLIP_FLOPS
}
