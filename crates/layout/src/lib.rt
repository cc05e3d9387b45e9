// The layout of a chart's flip-flops: which group each super-state has, and which code each sub-state. One pass over
// the states gives each, so that the whole is linear in their number.
#![tactic(auto)]

ghost use Rattle.std.specs.Prelude.{◌≡◌, ◌+◌, ◌<◌, ◌≤◌};
ghost use Rattle.meaning.specs.Rows.{least};
ghost use Rattle.meaning.specs.Tables.{state_count};
ghost use Rattle.meaning.specs.Hierarchy.{sub_state};
ghost use Rattle.meaning.specs.Layout.{width, group_first, other_sub_state};
ghost use Rattle.meaning.specs.Lent.{coded};
ghost use Rattle.tables.specs.Given.{given};
ghost use Rattle.layout.specs.Laid.{laid_states, given_code, row, tally, LaidOut};

use tables::{Chart, ChartTables};

// For each state the first flip-flop and the width of its group, and its code; and how many flip-flops there are.
#[derive(Clone, Copy)]
pub struct Layout {
    pub first: [u16; 256],
    pub width: [u8; 256],
    pub code: [u16; 256],
    pub total: u32,
}

// "A super-state with n sub-states gets the number of significant bits of n - 1: 0 for n = 1." A leaf's group is
// empty too.
fn width(n: usize) -> u32
    ensures { result ≡ width n }
{
    usize::BITS - n.saturating_sub(1).leading_zeros()
}

// How many states are laid out: none where there are more than a chart may have.
#[tactic(auto, unfolding(crate::specs::Laid::laid_states))]
fn laid_states(t: &ChartTables<'_>) -> usize
    ensures { (result ≤ 256) × (result ≤ state_count (given t.now)) × (result ≡ laid_states (given t.now)) }
{
    let n = t.state_count();
    if n <= Chart::STATES { n } else { 0 }
}

// The number of sub-states of each state: "State 0 is the root .. and is nobody's sub-state". In tables that break
// the rules a super-state can be any number, so those that no state has are passed over.
fn sub_states_each(t: &ChartTables<'_>) -> [u16; 256]
    ensures { result ≡ tally (sub_state (given t.now)) (laid_states (given t.now)) }
{
    let mut counts = [0; 256];
    for s in 1..laid_states(t) {
        let a = t.super_state(s);
        if a < Chart::STATES {
            counts[a] += 1;
        }
    }
    counts
}

// "Its initial sub-state has code 0, the others 1, 2, and so on by rising state number.": for each super-state,
// others has how many of them are below s.
fn code_one(t: &ChartTables<'_>, s: usize, others: &mut [u16; 256], codes: &mut [u16; 256])
    requires { (0 < s) × (s < 256) × (s < state_count (given t.now))
        × (others.old ≡ tally (other_sub_state (given t.now)) s) × (codes.old ≡ row (given_code (given t.now)) s) }
    ensures { (others.new ≡ tally (other_sub_state (given t.now)) (s + 1))
        × (codes.new ≡ row (given_code (given t.now)) (s + 1)) }
{
    let a = t.super_state(s);
    if Chart::STATES <= a {
        return;
    }
    if s == t.initial(a) {
        codes[s] = 0;
        return;
    }
    others[a] += 1;
    codes[s] = others[a];
}

// The code of each sub-state alone, for those who ask for no group. The root has no code.
pub fn codes_of(t: &ChartTables<'_>) -> [u16; 256]
    ensures { result ≡ row (given_code (given t.now)) (laid_states (given t.now)) }
{
    let mut others = [0; 256];
    let mut codes = [0; 256];
    for s in 1..laid_states(t) {
        code_one(t, s, &mut others, &mut codes);
    }
    codes
}

// "Groups stand one after the other by rising super-state number, .. from %MX0."
pub fn lay_out(t: &ChartTables<'_>) -> Layout
    ensures { LaidOut (given t.now) result }
{
    let counts = sub_states_each(t);
    let code = codes_of(t);
    let mut first = [0; 256];
    let mut widths = [0; 256];
    let mut total = 0;
    for a in 0..laid_states(t) {
        let w = width(usize::from(counts[a]));
        first[a] = total as u16;
        widths[a] = w as u8;
        total += w;
    }
    Layout {
        first,
        width: widths,
        code,
        total,
    }
}

// How many flip-flops there are, where nothing else of the layout is asked for.
pub fn flip_flops(t: &ChartTables<'_>) -> u32
    ensures { result ≡ group_first (given t.now) (laid_states (given t.now)) }
{
    let counts = sub_states_each(t);
    let mut many = 0;
    for n in &counts[..laid_states(t)] {
        many += width(usize::from(*n));
    }
    many
}

// The sub-state of a with code k, or the number of states where there is none: no Option, since `coded_sub_state` of
// meaning, of which the theorems speak, is that number.
pub fn sub_with_code(t: &ChartTables<'_>, a: usize, k: usize) -> usize
    ensures { result ≡ least (coded (given t.now) a k) 0 (state_count (given t.now)) }
{
    let n = t.state_count();
    let mut others = 0;
    for s in 0..n {
        if !t.sub_state(a, s) {
            continue;
        }
        let code = if s == t.initial(a) {
            0
        } else {
            others += 1;
            others
        };
        if code == k {
            return s;
        }
    }
    n
}
