// The chart state put back into the lent slice: the codes, then the timers' values.
#![tactic(auto)]

ghost use Rattle.std.specs.Prelude.{◌≡◌, ◌≤◌, length, take};
ghost use Rattle.meaning.specs.Tables.{Tables, state_count};
ghost use Rattle.meaning.specs.Rules.{Rules};
ghost use Rattle.meaning.specs.Machine.{Valid};
ghost use Rattle.meaning.specs.Lent.{super_states_below, lent_length, lent_of};
ghost use Rattle.chart_scan.specs.Held.{held};
ghost use Rattle.chart_state_read.specs.Codes.{codes_in, CodesStand};

use tables::{Chart, ChartTables};

// The codes of what the super-states remember; it answers how many there are.
fn write_codes(t: &ChartTables<'_>, codes: &[u16], memory: &[u16], state: &mut [u32]) -> usize
    ensures { (result ≤ 256) × ((c : Tables) → c.states ≡ t.now.states.now → Rules c
        → super_states_below c (state_count c) ≤ length state.old → (result ≡ super_states_below c (state_count c))
        × (take result state.new ≡ codes_in c codes.now memory.now (state_count c))) }
{
    let mut at = 0;
    for a in 0..chart_state_read::state_count(t) {
        if t.initial(a) != 0 {
            let code = slices::at(codes, chart_paths::remembered(memory, a), 0);
            slices::put(state, at, u32::from(code));
            at += 1;
        }
    }
    at
}

// The codes and values of a state, into the lent slice; it ends where the values of the chart's timers do.
pub fn encode(t: &ChartTables<'_>, codes: &[u16], memory: &[u16], timers: &[u32], state: &mut [u32])
    ensures { (c : Tables) → c.states ≡ t.now.states.now → c.presets ≡ t.now.presets.now → Rules c
        → CodesStand c codes.now → length timers.now ≡ 32
        → Valid c (held c memory.now timers.now) → length state.old ≡ lent_length c
        → state.new ≡ lent_of c (held c memory.now timers.now) }
{
    let from = write_codes(t, codes, memory, state);
    for (i, timer) in timers.iter().enumerate() {
        slices::put(state, from + i, *timer);
    }
}
