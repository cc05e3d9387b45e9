// The rules that a lent state and lent results are held to: document 01's refusals 14, STATE, and 15, SCANS.
#![tactic(auto)]

ghost use Rattle.std.specs.Prelude.{◌≡◌, ◌&&◌, ◌≤◌, eqb, ltb};
ghost use Rattle.meaning.specs.Tables.{timer_count};
ghost use Rattle.meaning.specs.Rows.{every};
ghost use Rattle.meaning.specs.Machine.{remembered};
ghost use Rattle.tables.specs.Given.{given};
ghost use Rattle.chart_state_rules.specs.Values.{value_passes, row_passes};

use tables::{Chart, ChartTables};

// ---- 14 STATE

// "code of no sub-state": such a code leads to no state.
pub fn codes_pass(memory: &[u16], n: usize) -> bool
    ensures { result ≡ every (λ a. ltb (remembered memory.now a) n) 0 n }
{
    (0..n).all(|a| chart_paths::remembered(memory, a) < n)
}

// "timer not a whole number of scan steps from 0 to N, or not 0 while idle"
fn value_passes(step: u32, preset: u32, runs: bool, value: u32) -> bool
    ensures { 1 ≤ step → result ≡ value_passes step preset runs value }
{
    0 < step
        && value % step == 0
        && u64::from(value) <= chart_timers::longest(step, preset)
        && (runs || value == 0)
}

// 14 STATE, of the values of the timers.
pub fn values_pass(t: &ChartTables<'_>, running: u64, timers: &[u32]) -> bool
    ensures { 1 ≤ (given t.now).scan_step → timer_count (given t.now) ≤ 32
        → result ≡ every (row_passes (given t.now).scan_step (given t.now).presets running timers.now) 0
        (timer_count (given t.now)) }
{
    if Chart::TIMERS < t.timer_count() {
        return false;
    }
    for (i, preset) in t.presets.iter().enumerate() {
        let runs = chart_paths::bit_at(running, i);
        if !value_passes(t.chart.step, *preset, runs, slices::at(timers, i, 0)) {
            return false;
        }
    }
    true
}

// ---- 15 SCANS

// "a result slice differs in length from the inputs"
pub fn scans_pass(leaves: usize, outputs: usize, inputs: usize) -> bool
    ensures { result ≡ (eqb leaves inputs && eqb outputs inputs) }
{
    leaves == inputs && outputs == inputs
}
