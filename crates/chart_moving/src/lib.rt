// What a move does to the memory.
#![tactic(auto)]

ghost use Rattle.std.specs.Prelude.{◌≡◌, cond, ◌<◌, ◌≤◌, length, set, take, ltb};
ghost use Rattle.meaning.specs.Tables.{Tables, state_count, move_count, initial};
ghost use Rattle.meaning.specs.Rules.{Rules};
ghost use Rattle.meaning.specs.Machine.{memory_after_move};
ghost use Rattle.chart_moving.specs.Moves.{set_above, set_below};

use tables::{Chart, ChartTables};

// The sub-state s remembered of a.
pub fn remember(memory: &mut [u16], a: usize, s: usize)
    ensures { s < 65536 → memory.new ≡ set memory.old a s }
{
    if let Ok(s) = u16::try_from(s) {
        slices::put(memory, a, s);
    }
}

// "A move sets every super-state above its target to lead to the target."
fn set_above(t: &ChartTables<'_>, target: usize, memory: &mut [u16])
    ensures { (c : Tables) → c.states ≡ t.now.states.now → Rules c → target < state_count c
        → memory.new ≡ set_above c 8 target memory.old }
{
    let mut s = target;
    for k in 0..Chart::DEPTH {
        if s == 0 {
            return;
        }
        let above = t.super_state(s);
        remember(memory, above, s);
        s = above;
    }
}

// "Mark 0: the target, if a super-state, and those reached below it by initial sub-states are set to initial."
fn set_below(t: &ChartTables<'_>, target: usize, memory: &mut [u16])
    ensures { (c : Tables) → c.states ≡ t.now.states.now → Rules c → target < state_count c
        → memory.new ≡ set_below (initial c) 9 target memory.old }
{
    let mut s = target;
    for k in 0..Chart::DEPTH + 1 {
        let below = t.initial(s);
        remember(memory, s, below);
        if below == 0 {
            return;
        }
        s = below;
    }
}

// "Mark 1: nothing at or below the target is set"; "with none, the state stays".
pub fn enter(t: &ChartTables<'_>, i: usize, memory: &mut [u16])
    ensures { (c : Tables) → c.states ≡ t.now.states.now → c.moves ≡ t.now.moves.now → Rules c
        → state_count c ≤ length memory.old
        → take (state_count c) memory.new ≡ cond (ltb i (move_count c))
        (memory_after_move c i (take (state_count c) memory.old))
        (take (state_count c) memory.old) }
{
    if t.move_count() <= i {
        return;
    }
    let target = t.target(i);
    set_above(t, target, memory);
    if t.mark(i) == 0 {
        set_below(t, target, memory);
    }
}
