// What a reader knows after one instruction more, or one word more.
#![tactic(auto)]

ghost use Rattle.std.specs.Prelude.{◌≡◌, suc, eqb};
ghost use Rattle.format.specs.Decode.{decoded};
ghost use Rattle.format.specs.Automata.Phases as Phases;

use format::{Phase, Reading};
use meaning::{Operand, Operator};

// The block that an operand names, or 0.
#[tactic(auto, unfolding(format::specs::Automata::Phases::block))]
fn block(o: Operand) -> u32
    ensures { result ≡ Phases.block o }
{
    match o {
        Operand::TimerQ(n) | Operand::TimerIn(n) | Operand::TimerPt(n) | Operand::Timer(n) =>
            u32::from(n),
        Operand::Mx(_) | Operand::Ix(_) | Operand::Qx(_) | Operand::False | Operand::True => 0,
    }
}

// Block n is the one after those that are complete.
fn is_next(n: u32, s: Reading) -> bool
    ensures { result ≡ eqb n (suc s.timers) }
{
    n != 0 && n - 1 == s.timers
}

// "ST Tn.IN, LD T#..ms, ST Tn.PT, CAL Tn"
#[tactic(auto, unfolding(format::specs::Automata::Phases::give_in))]
fn give_in(n: u32, s: Reading) -> Reading
    ensures { result ≡ Phases.give_in n s }
{
    match s.phase {
        Phase::Body if is_next(n, s) && n <= s.most => grammar_phase::to(Phase::GivenIn, s),
        _ => grammar_phase::to(Phase::Refused, s),
    }
}

#[tactic(auto, unfolding(format::specs::Automata::Phases::give_time))]
fn give_time(s: Reading) -> Reading
    ensures { result ≡ Phases.give_time s }
{
    match s.phase {
        Phase::GivenIn => grammar_phase::to(Phase::GivenTime, s),
        _ => grammar_phase::to(Phase::Refused, s),
    }
}

#[tactic(auto, unfolding(format::specs::Automata::Phases::give_pt))]
fn give_pt(n: u32, s: Reading) -> Reading
    ensures { result ≡ Phases.give_pt n s }
{
    match s.phase {
        Phase::GivenTime if is_next(n, s) => grammar_phase::to(Phase::GivenPt, s),
        _ => grammar_phase::to(Phase::Refused, s),
    }
}

// One more timer rung is complete.
#[tactic(auto, unfolding(format::specs::Automata::Phases::call))]
fn call(n: u32, s: Reading) -> Reading
    ensures { result ≡ Phases.call n s }
{
    match s.phase {
        Phase::GivenPt if is_next(n, s) => Reading {
            phase: Phase::Between,
            timers: n,
            ..s
        },
        _ => grammar_phase::to(Phase::Refused, s),
    }
}

// ST, by what it stores to.
#[tactic(auto, unfolding(format::specs::Automata::Phases::phase_put))]
fn put(o: Operand, s: Reading) -> Reading
    ensures { result ≡ Phases.phase_put o s }
{
    match o {
        Operand::TimerIn(n) => give_in(u32::from(n), s),
        Operand::TimerPt(n) => give_pt(u32::from(n), s),
        _ => grammar_phase::store(s),
    }
}

// What the reader knows after one instruction more.
#[tactic(auto, unfolding(format::specs::Automata::Phases::phase_step))]
pub fn step(s: Reading, i: Operator) -> Reading
    ensures { result ≡ Phases.phase_step s i }
{
    match i {
        Operator::Ld(o) | Operator::Ldn(o) => grammar_phase::load(block(o), s),
        Operator::And(o) | Operator::Andn(o) => grammar_phase::also(block(o), s),
        Operator::Or => grammar_phase::opened(s),
        Operator::Close => grammar_phase::closed(s),
        Operator::St(o) => put(o, s),
        Operator::S(_) | Operator::R(_) => grammar_phase::store(s),
        Operator::Cal(o) => call(block(o), s),
        Operator::LdTime(_) => give_time(s),
    }
}

// What the reader knows after one word more.
#[tactic(auto, unfolding(format::specs::Automata::Phases::step_word))]
fn step_word(s: Reading, d: Option<Operator>) -> Reading
    ensures { result ≡ Phases.step_word s d }
{
    match d {
        Some(i) => step(s, i),
        None => grammar_phase::to(Phase::Refused, s),
    }
}

// The same for the word itself: most are on %MX0 to %MX255, or test %IX1 to %IX64, and need not be taken apart
// further.
#[tactic(auto, using(crate::specs::Plain::loads, crate::specs::Plain::adds, crate::specs::Plain::stores))]
pub fn step_near(s: Reading, w: u32) -> Reading
    ensures { result ≡ Phases.step_word s (decoded w) }
{
    match (w / 134217728, w % 134217728) {
        (1 | 2, 0..=255 | 385..=448) => grammar_phase::load(0, s),
        (3 | 4, 0..=255 | 385..=448) => grammar_phase::also(0, s),
        (7..=9, 0..=255) => grammar_phase::store(s),
        _ => step_word(s, word_decode::decode(w)),
    }
}
