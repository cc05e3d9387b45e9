// What can follow the instructions that were read, and what one more does to that.
#![tactic(auto)]

ghost use Rattle.std.specs.Prelude.{◌≡◌};
ghost use Rattle.format.specs.Automata.Phases as Phases;

use format::{Phase, Reading};

// Whether the reading stands at this phase: for callers who follow a list word by word. Here each function is a match.
pub fn is_at(w: Phase, s: Reading) -> bool
    ensures { result ≡ Phases.at w s }
{
    s.phase as u8 == w as u8
}

// The reading with another phase.
pub fn to(w: Phase, s: Reading) -> Reading
    ensures { result ≡ Phases.to w s }
{
    Reading { phase: w, ..s }
}

// A body tests Tn.Q (n is 0 for a test of anything else).
fn naming(n: u32, s: Reading) -> Reading
    ensures { result ≡ Phases.naming n s }
{
    Reading {
        named: s.named.max(n),
        ..s
    }
}

// Before the first instruction, with at least a and at most b blocks.
#[tactic(auto, unfolding(format::specs::Automata::Phases::begin))]
pub fn begin(a: u32, b: u32) -> Reading
    ensures { result ≡ Phases.begin a b }
{
    Reading {
        phase: Phase::Between,
        timers: 0,
        named: a,
        most: b,
    }
}

// LD and LDN begin a rung or a bracket.
#[tactic(auto, unfolding(format::specs::Automata::Phases::load))]
pub fn load(n: u32, s: Reading) -> Reading
    ensures { result ≡ Phases.load n s }
{
    match s.phase {
        Phase::Opened if n <= s.most => naming(n, to(Phase::Inside, s)),
        Phase::Between | Phase::Stored if n <= s.most => naming(n, to(Phase::Body, s)),
        _ => to(Phase::Refused, s),
    }
}

// After a test of %MX, %IX or Tn.Q of which n is to be declared.
#[tactic(auto, unfolding(format::specs::Automata::Phases::also))]
pub fn also(n: u32, s: Reading) -> Reading
    ensures { result ≡ Phases.also n s }
{
    match s.phase {
        Phase::Body | Phase::Inside if n <= s.most => naming(n, s),
        _ => to(Phase::Refused, s),
    }
}

// OR( stands in a body.
#[tactic(auto, unfolding(format::specs::Automata::Phases::phase_opened))]
pub fn opened(s: Reading) -> Reading
    ensures { result ≡ Phases.phase_opened s }
{
    match s.phase {
        Phase::Body => to(Phase::Opened, s), // "no group in a group"
        _ => to(Phase::Refused, s),
    }
}

// After a bracket ends.
#[tactic(auto, unfolding(format::specs::Automata::Phases::phase_closed))]
pub fn closed(s: Reading) -> Reading
    ensures { result ≡ Phases.phase_closed s }
{
    match s.phase {
        Phase::Inside => to(Phase::Body, s),
        _ => to(Phase::Refused, s),
    }
}

// The first store ends the timer rungs; every block that a body named must be declared by then.
#[tactic(auto, unfolding(format::specs::Automata::Phases::store))]
pub fn store(s: Reading) -> Reading
    ensures { result ≡ Phases.store s }
{
    match s.phase {
        Phase::Body | Phase::Stored if s.named <= s.timers => Reading {
            phase: Phase::Stored,
            most: s.timers, // no more timer rungs
            ..s
        },
        _ => to(Phase::Refused, s),
    }
}

// What was read is the front of some accepted list.
#[tactic(auto, unfolding(format::specs::Automata::Phases::alive))]
pub fn alive(s: Reading) -> bool
    ensures { result ≡ Phases.alive s }
{
    !matches!(s.phase, Phase::Refused)
}

// It is an accepted list.
#[tactic(auto, unfolding(format::specs::Automata::Phases::may_end))]
pub fn may_end(s: Reading) -> bool
    ensures { result ≡ Phases.may_end s }
{
    matches!(s.phase, Phase::Between | Phase::Stored) && s.named <= s.timers
}
