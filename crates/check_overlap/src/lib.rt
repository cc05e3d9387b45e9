// Which moves can be enabled together: document 01's refusal 10, OVERLAP.
#![tactic(auto)]

ghost use Rattle.std.specs.Prelude.{◌≡◌, suc, ◌<◌, ◌/◌, length};
ghost use Rattle.meaning.specs.Check.{overlap_passes};
ghost use Rattle.tables.specs.Given.{given};
ghost use Rattle.check_tree.specs.Falling.{Falling};
ghost use Rattle.check_needs.specs.Words.{need_words, WordsTo};
ghost use Rattle.check_overlap.specs.Told.{EarlierTold};

use tables::ChartTables;

// The least earlier move that overlaps move i, if there is one. The words come first: they tell most pairs of
// moves apart, and cost less than the way up from a source.
pub fn earlier(t: &ChartTables<'_>, words: &[u64], i: usize) -> Option<usize>
    ensures { Falling (given t.now) → i < length words.now / need_words
        → WordsTo (given t.now) (suc i) words.now → EarlierTold (given t.now) i result }
{
    let needs = check_needs::needs_at(words, i);
    let s = t.source(i);
    let mut j = check_needs::first_apart(words, needs, 0, i);
    // from one move without a clash to the next: a `for` would lose the short loop of `first_apart`
    while j < i {
        if check_tree::near(t, s, t.source(j)) {
            return Some(j);
        }
        j = check_needs::first_apart(words, needs, j + 1, i);
    }
    None
}

// "an earlier move overlaps it"
pub fn overlap_passes(t: &ChartTables<'_>, words: &[u64], i: usize) -> bool
    ensures { Falling (given t.now) → i < length words.now / need_words
        → WordsTo (given t.now) (suc i) words.now → result ≡ overlap_passes (given t.now) i }
{
    earlier(t, words, i).is_none()
}
