// The check of a chart's tables: document 01's refusals 1 to 11, "in the order of checking".
#![tactic(auto)]

ghost use Rattle.std.specs.Prelude.{◌≡◌, ℕ, Bool, [], ◌∷◌, false, ◌/◌, ◌<◌, ◌≤◌, length};
ghost use Rattle.meaning.specs.Tables.{state_count, move_count};
ghost use Rattle.meaning.specs.Check.{Check, verdict_of};
ghost use Rattle.meaning.specs.declared.Refusal.{Refusal};
ghost use Rattle.tables.specs.Given.{given};
ghost use Rattle.check_tree.specs.Falling.{Falling};
ghost use Rattle.check_idle.specs.Leaves.{EarlierPassed, Below, Sources};
ghost use Rattle.check_needs.specs.Words.{need_words, WordsTo};
ghost use Rattle.check_tables.specs.Verdicts.{Checked, literal_check, idle_check, overlap_check};
ghost use Rattle.check_tables.specs.Verdicts.{table_checks, need_checks, move_checks};
ghost use Rattle.check_tables.specs.Verdicts.{flip_flop_check, is_refused, LiteralsPassed};

use check_literals::LiteralCounts;
use check_needs::Needs;
use meaning::Refusal;
use tables::{Chart, ChartTables};

// So many states or moves are few.
const FEW: usize = 16;

// The words for what few moves need, and for what as many need as a chart may have.
const FEW_WORDS: usize = FEW * Needs::WORDS;

const MOST_WORDS: usize = Chart::MOVES * Needs::WORDS;

// "Each check covers all its rows before the next begins. The place is the least failing row, from 0."
fn judge<P: Fn(usize) -> bool, R: Fn(usize) -> Refusal>(
    rows: usize,
    passes: P,
    refusal: R,
) -> Result<(), Refusal>
    requires passes { P.IsAlwaysCallable passes }
    requires refusal { R.IsAlwaysCallable refusal }
    ensures { (k : Check) → k.rows ≡ rows
        → ((i : ℕ) → i < rows → (b : Bool) → P.post passes i b → b ≡ k.passes i)
        → ((i : ℕ) → i < rows → (r : Refusal) → R.post refusal i r → r ≡ k.refusal i)
        → result ≡ verdict_of (k ∷ []) }
{
    for i in 0..rows {
        if !passes(i) {
            return Err(refusal(i));
        }
    }
    Ok(())
}

// 2 to 6: what the states are, and what is paired with them.
fn judge_tables(t: &ChartTables<'_>) -> Result<(), Refusal>
    ensures { result ≡ verdict_of (table_checks (given t.now)) }
{
    let states = t.state_count();
    judge(
        states,
        |s| check_tree::hierarchy_passes(t, s),
        Refusal::Hierarchy,
    )?;
    judge(
        states,
        |s| check_tree::initial_passes(t, s),
        Refusal::Initial,
    )?;
    judge(
        t.timer_count(),
        |i| check_rules::preset_passes(t, i),
        Refusal::Preset,
    )?;
    let timer_pairs = tables::pair_count(t.timer_pairs);
    judge(
        timer_pairs,
        |i| check_rules::timer_pair_passes(t, i),
        Refusal::TimerPair,
    )?;
    let output_pairs = tables::pair_count(t.output_pairs);
    judge(
        output_pairs,
        |i| check_rules::output_pair_passes(t, i),
        Refusal::OutputPair,
    )
}

// 8 LITERAL. What the moves need is kept in words for the two checks after this one, so this is no `judge`, whose tests
// change nothing.
fn judge_literal(t: &ChartTables<'_>, needs: &mut [u64]) -> Result<(), Refusal>
    ensures { (result ≡ verdict_of (literal_check (given t.now) ∷ []))
        × (is_refused result ≡ false → move_count (given t.now) ≤ length needs.old / need_words
        → WordsTo (given t.now) (move_count (given t.now)) needs.new) }
{
    let counts = LiteralCounts::of(t);
    for i in 0..t.move_count() {
        if !check_literals::literal_passes(t, counts, i, needs) {
            return Err(Refusal::Literal(i));
        }
    }
    Ok(())
}

// 9 IDLE TIMER, of the words for the timers that all leaves below run.
fn judge_idle(t: &ChartTables<'_>, needs: &[u64], below: &[u64]) -> Result<(), Refusal>
    ensures { Below (given t.now) below.now → Sources (given t.now) → LiteralsPassed (given t.now) needs.now
        → result ≡ verdict_of (idle_check (given t.now) ∷ []) }
{
    judge(
        t.move_count(),
        |i| check_idle::idle_passes(t, needs, below, i),
        Refusal::IdleTimer,
    )
}

// The same with words for the timers that run, none yet, and for those that all leaves below run, all of them: one a
// state or more.
fn judge_running<const STATES: usize>(t: &ChartTables<'_>, needs: &[u64]) -> Result<(), Refusal>
    requires { STATES ≤ 256 }
    ensures { EarlierPassed (given t.now) → Sources (given t.now) → LiteralsPassed (given t.now) needs.now
        → state_count (given t.now) ≤ STATES → result ≡ verdict_of (idle_check (given t.now) ∷ []) }
{
    let mut running = [0u64; STATES];
    let mut below = [u64::MAX; STATES];
    check_pairing::paired_words(t, t.timer_pairs, &mut running);
    check_idle::run_below(t, &running, &mut below);
    judge_idle(t, needs, &below)
}

// A chart of few states has small arrays to clear.
fn judge_timers(t: &ChartTables<'_>, needs: &[u64]) -> Result<(), Refusal>
    ensures { EarlierPassed (given t.now) → Sources (given t.now) → LiteralsPassed (given t.now) needs.now
        → result ≡ verdict_of (idle_check (given t.now) ∷ []) }
{
    if t.state_count() <= FEW {
        judge_running::<FEW>(t, needs)
    } else {
        judge_running::<{ Chart::STATES }>(t, needs)
    }
}

// 10 OVERLAP: "an earlier move overlaps it": once the hierarchy has passed, because the search for a source above stops
// early then.
fn judge_overlap(t: &ChartTables<'_>, needs: &[u64]) -> Result<(), Refusal>
    ensures { Falling (given t.now) → LiteralsPassed (given t.now) needs.now
        → result ≡ verdict_of (overlap_check (given t.now) ∷ []) }
{
    judge(
        t.move_count(),
        |i| check_overlap::overlap_passes(t, needs, i),
        Refusal::Overlap,
    )
}

// 8 to 10, over words for what the moves need.
fn judge_needs<const WORDS: usize>(t: &ChartTables<'_>) -> Result<(), Refusal>
    requires { WORDS ≤ 2048 }
    ensures { EarlierPassed (given t.now) → Sources (given t.now)
        → move_count (given t.now) ≤ WORDS / need_words → result ≡ verdict_of (need_checks (given t.now)) }
{
    let mut needs = [0u64; WORDS];
    judge_literal(t, &mut needs)?;
    judge_timers(t, &needs)?;
    judge_overlap(t, &needs)
}

// 7 to 10: the moves. A chart of few of them has a small array to clear.
fn judge_moves(t: &ChartTables<'_>) -> Result<(), Refusal>
    ensures { EarlierPassed (given t.now) → result ≡ verdict_of (move_checks (given t.now)) }
{
    let moves = t.move_count();
    judge(moves, |i| check_rules::move_passes(t, i), Refusal::Move)?;
    if moves <= FEW {
        judge_needs::<FEW_WORDS>(t)
    } else {
        judge_needs::<MOST_WORDS>(t)
    }
}

// 11 FLIP-FLOPS
fn judge_flip_flops(t: &ChartTables<'_>) -> Result<(), Refusal>
    ensures { EarlierPassed (given t.now) → result ≡ verdict_of (flip_flop_check (given t.now) ∷ []) }
{
    if check_sizes::flip_flops_pass(t) {
        Ok(())
    } else {
        Err(Refusal::FlipFlops)
    }
}

// The verdict of any tables at all. Sizes come first because they bound every loop below.
pub fn check(t: &ChartTables<'_>) -> Result<(), Refusal>
    ensures { Checked (given t.now) result }
{
    if !check_sizes::size_passes(t) {
        return Err(Refusal::Size);
    }
    judge_tables(t)?;
    judge_moves(t)?;
    judge_flip_flops(t)
}
