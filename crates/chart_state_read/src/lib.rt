// The chart state as it is lent: one slice, a code for each super-state by rising number, then a value in ms for each
// timer; whether it passes, and what it stands for. The tables have passed the check; on other tables all of this is
// harmless.
#![tactic(auto)]

ghost use Rattle.std.specs.Prelude.{◌≡◌, true, List, ℕ, ◌+◌, ◌<◌, ◌≤◌, length, get_or, take};
ghost use Rattle.meaning.specs.Tables.{Tables, state_count};
ghost use Rattle.meaning.specs.Rules.{Rules};
ghost use Rattle.meaning.specs.Lent.{super_states_below, lent_length, lent_memory, state_passes};
ghost use Rattle.chart_state_read.specs.Codes.{CodesStand, Wanted, Found, StateRoom, StateDecoded};

use tables::{Chart, ChartTables};

// How many states there are; in tables that break the rules at most as many as a chart may have.
pub fn state_count(t: &ChartTables<'_>) -> usize
    ensures { (result ≤ 256)
        × ((c : Tables) → c.states ≡ t.now.states.now → Rules c → result ≡ state_count c) }
{
    t.state_count().min(Chart::STATES)
}

// A code stands in the slice for each super-state: those that have an initial sub-state.
fn super_states(t: &ChartTables<'_>) -> usize
    ensures { (result ≤ 256) × ((c : Tables) → c.states ≡ t.now.states.now → Rules c
        → result ≡ super_states_below c (state_count c)) }
{
    let mut n = 0;
    for a in 0..state_count(t) {
        if t.initial(a) != 0 {
            n += 1;
        }
    }
    n
}

// How long a slice the chart's state needs.
pub fn state_length(t: &ChartTables<'_>) -> usize
    ensures { (c : Tables) → c.states ≡ t.now.states.now → c.presets ≡ t.now.presets.now → Rules c
        → result ≡ lent_length c }
{
    super_states(t) + t.presets.len()
}

// What stands in the slice for each super-state; and it has found no sub-state yet: n, which is no state's number. It
// answers how many codes there are.
fn want_all(t: &ChartTables<'_>, state: &[u32], wants: &mut [u32], memory: &mut [u16]) -> usize
    ensures { (c : Tables) → c.states ≡ t.now.states.now → Rules c
        → state_count c ≤ length wants.old → state_count c ≤ length memory.old
        → ((s : ℕ) → get_or memory.old s 0 ≡ 0) → (result ≡ super_states_below c (state_count c))
        × Wanted c state.now (state_count c) wants.new
        × Found c state.now (state_count c) memory.new }
{
    let n = t.state_count();
    let mut at = 0;
    for a in 0..n {
        if t.initial(a) != 0 {
            slices::put(wants, a, slices::at(state, at, 0));
            chart_moving::remember(memory, a, n);
            at += 1;
        }
    }
    at
}

// One look at each state finds what all super-states remember: a state is what its super-state remembers if it has the
// code that is wanted. From the last state on, so that the least counts; the root has no super-state.
fn find_all(t: &ChartTables<'_>, codes: &[u16], wants: &[u32], memory: &mut [u16])
    ensures { (c : Tables) (l : List ℕ) → c.states ≡ t.now.states.now → Rules c
        → state_count c ≤ length memory.old → CodesStand c codes.now
        → Wanted c l (state_count c) wants.now → Found c l (state_count c) memory.old
        → take (state_count c) memory.new ≡ lent_memory c l }
{
    for s in (1..t.state_count()).rev() {
        let a = t.super_state(s);
        if u32::from(slices::at(codes, s, 0)) == slices::at(wants, a, 0) {
            chart_moving::remember(memory, a, s);
        }
    }
}

// The values of the timers stand behind the codes; past the end of the slice they are 0.
fn copy_timers(state: &[u32], from: usize, timers: &mut [u32])
    ensures { (i : ℕ) → i < length timers.old → get_or timers.new i 0 ≡ get_or state.now (from + i) 0 }
{
    let values = state.get(from..).unwrap_or(&[]);
    for (i, timer) in timers.iter_mut().enumerate() {
        *timer = slices::at(values, i, 0);
    }
}

// What it looks at is left in the lent slices: the memory, the timers, and of each state the timers that run in it.
pub fn state_passes(
    t: &ChartTables<'_>,
    codes: &[u16],
    state: &[u32],
    wants: &mut [u32],
    memory: &mut [u16],
    timers: &mut [u32],
    runs: &mut [u64],
) -> bool
    ensures { (c : Tables) → c.scan_step ≡ t.now.chart.step → c.states ≡ t.now.states.now
        → c.presets ≡ t.now.presets.now → c.timer_pairs ≡ t.now.timer_pairs.now → Rules c
        → CodesStand c codes.now → StateRoom c wants.old memory.old timers.old runs.old
        → (result ≡ state_passes c state.now)
        × (result ≡ true → StateDecoded c state.now memory.new timers.new runs.new) }
{
    if state.len() != state_length(t) {
        return false;
    }
    let from = want_all(t, state, wants, memory);
    find_all(t, codes, wants, memory);
    if !chart_state_rules::codes_pass(memory, t.state_count()) {
        return false;
    }
    copy_timers(state, from, timers);
    check_pairing::paired_words(t, t.timer_pairs, runs);
    let running = slices::at(runs, chart_paths::active_leaf(memory), 0);
    chart_state_rules::values_pass(t, running, timers)
}
