// Refusal 9, IDLE TIMER: which timers all leaves at or below a state run, and whether a move names another.
#![tactic(auto)]

ghost use Rattle.std.specs.Prelude.{◌≡◌, not, ◌&&◌, ◌||◌, ℕ, ◌<◌, ◌≤◌, ◌/◌, length, get_or, set};
ghost use Rattle.std.specs.Int.Bits.{bit_and};
ghost use Rattle.meaning.specs.Tables.{Tables, state_count, super_state, source};
ghost use Rattle.meaning.specs.Hierarchy.{at_or_above};
ghost use Rattle.meaning.specs.Literals.{input_on};
ghost use Rattle.meaning.specs.Check.{idle_passes};
ghost use Rattle.check_needs.specs.Words.{need_words, WordsAt};
ghost use Rattle.check_idle.specs.Leaves.{TimersKnown, leaf_runs, Full, Below};

use tables::{Chart, ChartTables};

// Of what all leaves below x run so far, what this one runs too.
fn narrow_at(words: &mut [u64], x: usize, w: u64)
    ensures { words.new ≡ set words.old x (bit_and (get_or words.old x 0) w) }
{
    if x < words.len() {
        words[x] &= w;
    }
}

// The same at every state at or above l: the way up ends at the root.
fn narrow(t: &ChartTables<'_>, w: u64, l: usize, words: &mut [u64])
    ensures long { length words.new ≡ length words.old }
    ensures n_after { (c : Tables) → c.states ≡ t.now.states.now → super_state c 0 ≡ 0 → (n x : ℕ)
        → x < length words.old → input_on (get_or words.new x 0) n
        ≡ (input_on (get_or words.old x 0) n && (not (at_or_above c x l) || input_on w n)) }
{
    let mut s = l;
    for k in 0..Chart::DEPTH + 1 {
        narrow_at(words, s, w);
        if s == 0 {
            return;
        }
        s = t.super_state(s);
    }
}

// After the check of the initial sub-states a leaf is known by its 0.
fn narrow_leaf(t: &ChartTables<'_>, running: &[u64], l: usize, words: &mut [u64])
    ensures long { length words.new ≡ length words.old }
    ensures n_after { (c : Tables) → c.states ≡ t.now.states.now → TimersKnown c running.now → l < state_count c
        → (n x : ℕ) → 1 ≤ n → n ≤ 64 → x < length words.old
        → input_on (get_or words.new x 0) n
        ≡ (input_on (get_or words.old x 0) n && leaf_runs c n x l) }
{
    if t.initial(l) == 0 {
        narrow(t, slices::at(running, l, 0), l, words);
    }
}

// Which timers all leaves at or below each state run, a word a state. It is made once, leaf by leaf, so that a move
// costs one look, and not a search of the leaves. The words are lent, as many as there are states or more, and have
// every number.
pub fn run_below(t: &ChartTables<'_>, running: &[u64], words: &mut [u64])
    ensures { (c : Tables) → c.states ≡ t.now.states.now → TimersKnown c running.now
        → state_count c ≤ length words.old → Full words.old → Below c words.new }
{
    for l in 0..t.state_count() {
        narrow_leaf(t, running, l, words);
    }
}

// "timer literal, but some leaf at or below the source doesn't run it": of the words for what the moves need, and of
// those for what is run below each state.
pub fn idle_passes(t: &ChartTables<'_>, words: &[u64], below: &[u64], i: usize) -> bool
    ensures { (c : Tables) → c.moves ≡ t.now.moves.now → Below c below.now
        → source c i < state_count c → i < length words.now / need_words
        → WordsAt c i words.now → result ≡ idle_passes c i }
{
    let named = check_needs::timers_named(check_needs::needs_at(words, i));
    named & slices::at(below, t.source(i), 0) == named
}
