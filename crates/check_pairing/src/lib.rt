// Which timers or outputs are paired with a state or with one above it: a word a state, number n the bit of weight
// 2^(n-1). The pairs are looked at once, and each state once, however deep it is.
#![tactic(auto)]

ghost use Rattle.std.specs.Prelude.{◌≡◌, ◌||◌, ℕ, ◌<◌, ◌≤◌, length, get_or, set};
ghost use Rattle.std.specs.Int.Bits.{bit_or};
ghost use Rattle.meaning.specs.Tables.{state_count, super_state};
ghost use Rattle.meaning.specs.Literals.{input_on};
ghost use Rattle.tables.specs.Given.{given};
ghost use Rattle.check_pairing.specs.Words.{Tree, row_at, Own, Clear, PairedWords};

use tables::ChartTables;

// One pair: numbers and states that no word or place holds are passed over.
fn add_row(pairs: &[u16], i: usize, words: &mut [u64])
    ensures { (n l : ℕ) → 1 ≤ n → n ≤ 64 → l < length words.old
        → input_on (get_or words.new l 0) n
        ≡ (input_on (get_or words.old l 0) n || row_at pairs.now n l i) }
{
    let n = tables::pair_number(pairs, i);
    let a = tables::pair_state(pairs, i);
    if a < words.len() {
        words[a] = slices::with_number(words[a], n);
    }
}

// The numbers paired with each state itself, in words that have none yet.
fn own_words(pairs: &[u16], words: &mut [u64])
    ensures { Clear words.old → Own pairs.now words.new }
{
    for i in 0..tables::pair_count(pairs) {
        add_row(pairs, i, words);
    }
}

// What is paired with its super-state counts for s too.
fn inherit(t: &ChartTables<'_>, s: usize, words: &mut [u64])
    ensures { super_state (given t.now) s < length words.old
        → s < length words.old → words.new ≡ set words.old s
        (bit_or (get_or words.old s 0) (get_or words.old (super_state (given t.now) s) 0)) }
{
    let a = t.super_state(s);
    if a < words.len() && s < words.len() {
        words[s] |= words[a];
    }
}

// From the root down: a super-state has a smaller number than its sub-state, and so is done before it. The words are
// lent, as many as there are states or more, and have no number yet.
pub fn paired_words(t: &ChartTables<'_>, pairs: &[u16], words: &mut [u64])
    ensures { Tree (given t.now)
        → state_count (given t.now) ≤ length words.old → Clear words.old
        → PairedWords (given t.now) pairs.now words.new }
{
    own_words(pairs, words);
    for s in 1..t.state_count() {
        inherit(t, s, words);
    }
}
