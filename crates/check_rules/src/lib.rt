// The rules that rows of a chart's tables are held to, one row a call, for any tables at all: document 01's refusals
// 4 to 7.
#![tactic(auto)]

ghost use Rattle.std.specs.Prelude.{◌≡◌};
ghost use Rattle.meaning.specs.Tables.{timer_count};
ghost use Rattle.meaning.specs.Check.{preset_passes, pair_after, pair_passes, below, move_passes};
ghost use Rattle.tables.specs.Given.{given};
ghost use Rattle.check_rules.specs.Parts.{mark_passes};

use tables::{Chart, ChartTables};

// ---- 4 PRESET, 5 TIMER PAIR and 6 OUTPUT PAIR

#[tactic(auto, unfolding(meaning::specs::Check::preset_passes, meaning::specs::Tables::preset))]
pub fn preset_passes(t: &ChartTables<'_>, i: usize) -> bool
    ensures { result ≡ preset_passes (given t.now) i }
{
    matches!(t.presets.get(i), Some(1..=Chart::PRESET))
}

// "each table strictly ascending"
#[tactic(auto, unfolding(meaning::specs::Check::pair_after))]
fn pair_after(pairs: &[u16], j: usize, i: usize) -> bool
    ensures { result ≡ pair_after pairs.now j i }
{
    let before = (tables::pair_number(pairs, j), tables::pair_state(pairs, j));
    before < (tables::pair_number(pairs, i), tables::pair_state(pairs, i))
}

// "unknown timer or state, or not above the pair before": `many` is how many timers or outputs there are.
#[tactic(auto, unfolding(meaning::specs::Check::pair_passes))]
pub fn pair_passes(t: &ChartTables<'_>, many: usize, pairs: &[u16], i: usize) -> bool
    ensures { result ≡ pair_passes (given t.now) many pairs.now i }
{
    let number = tables::pair_number(pairs, i);
    1 <= number
        && number <= many
        && tables::pair_state(pairs, i) < t.state_count()
        && (i == 0 || pair_after(pairs, i - 1, i))
}

// Timer pairs go by the number of timers.
pub fn timer_pair_passes(t: &ChartTables<'_>, i: usize) -> bool
    ensures { let c = given t.now in result ≡ pair_passes c (timer_count c) c.timer_pairs i }
{
    pair_passes(t, t.timer_count(), t.timer_pairs, i)
}

// Output pairs go by the number of outputs.
pub fn output_pair_passes(t: &ChartTables<'_>, i: usize) -> bool
    ensures { let c = given t.now in result ≡ pair_passes c c.outputs c.output_pairs i }
{
    pair_passes(t, t.chart.outputs as usize, t.output_pairs, i)
}

// ---- 7 MOVE

// Whether v is one of 0, 1, .., n - 1.
#[tactic(auto, unfolding(meaning::specs::Check::below))]
fn below(n: usize, v: i16) -> bool
    ensures { result ≡ below n v }
{
    usize::try_from(v).is_ok_and(|k| k < n)
}

// 7 MOVE, of move i.
#[tactic(auto, unfolding(meaning::specs::Check::move_passes))]
pub fn move_passes(t: &ChartTables<'_>, i: usize) -> bool
    ensures { result ≡ move_passes (given t.now) i }
{
    let n = t.state_count();
    below(n, t.cell(i, 0)) && below(n, t.cell(i, 1)) && mark_passes(t, i)
}

// "other mark, mark 1 on a leaf"
#[tactic(auto, unfolding(meaning::specs::Check::below))]
fn mark_passes(t: &ChartTables<'_>, i: usize) -> bool
    ensures { result ≡ mark_passes (given t.now) i }
{
    match t.cell(i, 2) {
        0 => true,
        1 => !t.leaf(t.target(i)),
        _ => false,
    }
}
