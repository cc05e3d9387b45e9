// The values of a chart's timers: how long each may grow, and what a step makes of them.
#![tactic(auto)]

ghost use Rattle.std.specs.Prelude.{◌≡◌, ℕ, suc, ◌<◌, ◌≤◌, length, get_or};
ghost use Rattle.meaning.specs.Tables.{timer_count};
ghost use Rattle.meaning.specs.Literals.{input_on};
ghost use Rattle.tables.specs.Given.{given};
ghost use Rattle.chart_timers.specs.Times.{longest, value_grown};

use tables::{Chart, ChartTables};

// N scan steps in ms: no sum or product of 32-bit numbers wraps here.
pub fn longest(step: u32, preset: u32) -> u64
    ensures { result ≡ longest step preset }
{
    if step == 0 {
        return 0;
    }
    u64::from(preset).div_ceil(u64::from(step)) * u64::from(step)
}

// N scan steps of each timer, once for all scans.
pub fn longest_of(t: &ChartTables<'_>) -> [u32; 32]
    ensures { timer_count (given t.now) ≤ 32 → 1 ≤ (given t.now).scan_step
        → (i : ℕ) → i < timer_count (given t.now)
        → longest (given t.now).scan_step (get_or (given t.now).presets i 0) < 4294967296
        → get_or result i 0 ≡ longest (given t.now).scan_step (get_or (given t.now).presets i 0) }
{
    let mut most = [0u32; 32];
    for i in 0..t.timer_count().min(Chart::TIMERS) {
        most[i] = u32::try_from(longest(t.chart.step, t.presets[i])).unwrap_or(u32::MAX);
    }
    most
}

// "after a step it grows by the scan step if it ran before and runs after, else it is 0"; "A stored timer value
// stops growing at N scan steps."
fn grown(step: u32, most: u32, goes_on: bool, value: u32) -> u32
    ensures { result ≡ value_grown step most goes_on value }
{
    if goes_on {
        value.saturating_add(step).min(most)
    } else {
        0
    }
}

// The values of the timers after a step.
pub fn time(t: &ChartTables<'_>, most: &[u32], goes_on: u64, timers: &mut [u32])
    ensures { timer_count (given t.now) ≤ 32 → timer_count (given t.now) ≤ length timers.old
        → (i : ℕ) → i < timer_count (given t.now)
        → get_or timers.new i 0 ≡ value_grown (given t.now).scan_step (get_or most.now i 0)
        (input_on goes_on (suc i)) (get_or timers.old i 0) }
{
    for i in 0..t.timer_count().min(Chart::TIMERS) {
        let runs_on = chart_paths::bit_at(goes_on, i);
        let value = grown(
            t.chart.step,
            slices::at(most, i, 0),
            runs_on,
            slices::at(timers, i, 0),
        );
        slices::put(timers, i, value);
    }
}
