// The run over a lent chart state. The tables have passed the check; on other tables it is harmless.
#![tactic(auto)]

ghost use Rattle.std.specs.Prelude.{◌≤◌, ◌/◌};
ghost use Rattle.meaning.specs.Tables.{Tables, state_count, move_count};
ghost use Rattle.meaning.specs.Rules.{Rules};
ghost use Rattle.check_needs.specs.Words.{need_words};
ghost use Rattle.chart_scan.specs.Held.{TablesGiven};
ghost use Rattle.chart_lent.specs.Slice.{LentRun};

use check_needs::Needs;
use meaning::Refusal;
use tables::{Chart, ChartTables};

// A small chart has no more states than these, and no more moves.
const SMALL: usize = 32;

const SMALL_NEEDS: usize = SMALL * Needs::WORDS;

const MOST_NEEDS: usize = Chart::MOVES * Needs::WORDS;

// "then 14, 15": the refusals after those of the tables. "A refusal writes nothing." The run works in slices with room
// for so many states and so many words of what the moves need.
fn run_in<const STATES: usize, const NEEDS: usize>(
    t: &ChartTables<'_>,
    state: &mut [u32],
    inputs: &[u64],
    leaves: &mut [u16],
    outputs: &mut [u64],
) -> Result<usize, Refusal>
    requires { (STATES ≤ 256) × (NEEDS ≤ 2048) }
    ensures { (c : Tables) → TablesGiven c t.now.chart.step t.now.chart.outputs t.now.states.now
        t.now.moves.now t.now.presets.now t.now.timer_pairs.now t.now.output_pairs.now
        → Rules c → state_count c ≤ STATES → move_count c ≤ NEEDS / need_words
        → LentRun c inputs.now state.old leaves.old outputs.old result state.new leaves.new outputs.new }
{
    let codes = layout::codes_of(t);
    let mut wants = [0u32; STATES];
    let mut memory = [0u16; STATES];
    let mut timers = [0u32; 32];
    let mut runs = [0u64; STATES];
    if !chart_state_read::state_passes(
        t,
        &codes,
        state,
        &mut wants,
        &mut memory,
        &mut timers,
        &mut runs,
    ) {
        return Err(Refusal::State);
    }
    if !chart_state_rules::scans_pass(leaves.len(), outputs.len(), inputs.len()) {
        return Err(Refusal::Scans);
    }
    let mut shows = [0u64; STATES];
    let mut needs = [0u64; NEEDS];
    chart_scan::run(
        t,
        &runs,
        &mut shows,
        &mut needs,
        &mut memory,
        &mut timers,
        inputs,
        leaves,
        outputs,
    );
    chart_state_write::encode(t, &codes, &memory, &timers, state);
    Ok(inputs.len())
}

// A small chart clears only small slices.
pub fn run_checked(
    t: &ChartTables<'_>,
    state: &mut [u32],
    inputs: &[u64],
    leaves: &mut [u16],
    outputs: &mut [u64],
) -> Result<usize, Refusal>
    ensures { (c : Tables) → TablesGiven c t.now.chart.step t.now.chart.outputs t.now.states.now
        t.now.moves.now t.now.presets.now t.now.timer_pairs.now t.now.output_pairs.now
        → Rules c → LentRun c inputs.now state.old leaves.old outputs.old result state.new leaves.new outputs.new }
{
    if t.state_count() <= SMALL && t.move_count() <= SMALL {
        run_in::<{ SMALL }, { SMALL_NEEDS }>(t, state, inputs, leaves, outputs)
    } else {
        run_in::<{ Chart::STATES }, { MOST_NEEDS }>(t, state, inputs, leaves, outputs)
    }
}
