// The rules of the hierarchy, one state a call, for any tables at all: document 01's refusals 2, HIERARCHY, and 3,
// INITIAL; and of 10, OVERLAP, what it asks of two sources.
#![tactic(auto)]

ghost use Rattle.std.specs.Prelude.{◌≡◌, cond, ◌||◌, eqb, ltb};
ghost use Rattle.meaning.specs.Tables.{super_state};
ghost use Rattle.meaning.specs.Hierarchy.{at_or_above};
ghost use Rattle.meaning.specs.Check.{hierarchy_passes, initial_passes};
ghost use Rattle.tables.specs.Given.{given};
ghost use Rattle.check_tree.specs.Falling.{Falling};

use tables::{Chart, ChartTables};

fn super_state_passes(t: &ChartTables<'_>, s: usize) -> bool
    ensures { result ≡ cond (eqb s 0) (eqb (super_state (given t.now) s) 0) (ltb (super_state (given t.now) s) s) }
{
    if s == 0 {
        t.super_state(s) == 0
    } else {
        t.super_state(s) < s
    }
}

// 2 HIERARCHY, of state s.
#[tactic(auto, unfolding(meaning::specs::Check::hierarchy_passes))]
pub fn hierarchy_passes(t: &ChartTables<'_>, s: usize) -> bool
    ensures { result ≡ hierarchy_passes (given t.now) s }
{
    super_state_passes(t, s) && t.depth(s) <= Chart::DEPTH
}

// 3 INITIAL, of state s.
#[tactic(auto, unfolding(meaning::specs::Check::initial_passes))]
pub fn initial_passes(t: &ChartTables<'_>, s: usize) -> bool
    ensures { result ≡ initial_passes (given t.now) s }
{
    let first = t.initial(s);
    if t.leaf(s) {
        first == 0
    } else {
        t.sub_state(s, first)
    }
}

// ---- 10 OVERLAP: the sources

// Whether a is at or above s. After the check of the hierarchy a super-state has the smaller number, so that the walk
// ends once it is past a.
fn over(t: &ChartTables<'_>, a: usize, s: usize) -> bool
    ensures { Falling (given t.now) → result ≡ at_or_above (given t.now) a s }
{
    let mut up = s;
    for _k in 0..Chart::DEPTH + 1 {
        if up <= a {
            return up == a;
        }
        up = t.super_state(up);
    }
    false
}

// "one source is at or above the other"
#[tactic(auto, using(crate::specs::Falling::near_low, crate::specs::Falling::near_high))]
pub fn near(t: &ChartTables<'_>, a: usize, b: usize) -> bool
    ensures { Falling (given t.now)
        → result ≡ (at_or_above (given t.now) a b || at_or_above (given t.now) b a) }
{
    if a <= b { over(t, a, b) } else { over(t, b, a) }
}
