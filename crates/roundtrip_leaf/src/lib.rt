// The leaf that flip-flops show. The tables have passed the check; on other tables all of this is harmless.
#![tactic(auto)]

ghost use Rattle.std.specs.Prelude.{◌≡◌, ◌<◌, ◌≤◌};
ghost use Rattle.meaning.specs.Tables.{Tables, state_count};
ghost use Rattle.meaning.specs.Rules.{Rules};
ghost use Rattle.meaning.specs.Stands.{code_at, coded_sub_state, coded_leaf};
ghost use Rattle.layout.specs.Laid.{LaidOut};

use layout::Layout;
use tables::{Chart, ChartTables};

// The number whose bits stand in so many flip-flops, lowest first. No group is wider than 8.
fn code_at(flip_flops: &[u8], first: u16, width: u8) -> usize
    ensures { width ≤ 8 → result ≡ code_at flip_flops.now first width }
{
    if 8 < width {
        return 0;
    }
    let mut code = 0;
    for i in (0..usize::from(width)).rev() {
        code *= 2;
        if il_values::flip_flop(flip_flops, usize::from(first) + i) {
            code += 1;
        }
    }
    code
}

// The sub-state that the flip-flops give the super-state a.
fn shown_sub_state(t: &ChartTables<'_>, layout: &Layout, flip_flops: &[u8], a: usize) -> usize
    ensures { (c : Tables) → c.states ≡ t.now.states.now → Rules c → LaidOut c layout.now → a < state_count c
        → result ≡ coded_sub_state c flip_flops.now a }
{
    if Chart::STATES <= a {
        return 0;
    }
    let code = code_at(flip_flops, layout.first[a], layout.width[a]);
    layout::sub_with_code(t, a, code)
}

// The leaf that they lead to, where the states are laid out so: following from the root.
pub fn laid_leaf(t: &ChartTables<'_>, layout: &Layout, flip_flops: &[u8]) -> usize
    ensures { (c : Tables) → c.states ≡ t.now.states.now → Rules c → LaidOut c layout.now
        → (result ≡ coded_leaf c flip_flops.now) × (result ≤ 256) }
{
    let mut s = 0;
    for k in 0..Chart::DEPTH {
        if t.initial(s) == 0 {
            return s;
        }
        s = shown_sub_state(t, layout, flip_flops, s);
    }
    s
}
