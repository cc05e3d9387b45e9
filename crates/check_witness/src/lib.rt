// The check of the tables with a witness for an OVERLAP, so that a reviewer sees why: the earlier of the two moves, and
// a state and a setting in which both are enabled.
#![tactic(auto)]

ghost use Rattle.std.specs.Prelude.{◌≡◌, ◌<◌, ◌≤◌, ◌/◌, length, Err};
ghost use Rattle.meaning.specs.Tables.{move_count};
ghost use Rattle.meaning.specs.Check.{earlier, verdict};
ghost use Rattle.meaning.specs.declared.Refusal.TheVariants as R;
ghost use Rattle.tables.specs.Given.{given};
ghost use Rattle.check_needs.specs.Words.{need_words, WordsTo};
ghost use Rattle.check_witness.specs.Shown.{no_witness, OverlapFound, Witnessed};

use check_literals::LiteralCounts;
use check_needs::{Needs, ThingWords};
use meaning::Refusal;
use tables::{Chart, ChartTables};

// The verdict; and for an OVERLAP the earlier move, a state in which both are enabled, what must be on for that, and
// what must be off. Without one these are 0 and nothing, as `no_witness` has it, of which the theorems speak.
#[derive(Clone, Copy)]
pub struct Witness {
    pub verdict: Result<(), Refusal>,
    pub earlier: usize,
    pub state: usize,
    pub on: ThingWords,
    pub off: ThingWords,
}

fn nothing(verdict: Result<(), Refusal>) -> Witness
    ensures { result ≡ no_witness verdict }
{
    Witness {
        verdict,
        earlier: 0,
        state: 0,
        on: ThingWords::NONE,
        off: ThingWords::NONE,
    }
}

// Of move i and the first that overlaps it, and of what the moves need.
fn show(t: &ChartTables<'_>, words: &[u64], j: usize, i: usize) -> Witness
    ensures { move_count (given t.now) ≤ length words.now / need_words
        → WordsTo (given t.now) (move_count (given t.now)) words.now → i < move_count (given t.now)
        → j < i → j ≡ earlier (given t.now) i → OverlapFound (given t.now) i result }
{
    let a = check_needs::needs_at(words, j);
    let b = check_needs::needs_at(words, i);
    Witness {
        verdict: Err(Refusal::Overlap(i)),
        earlier: j,
        state: t.source(j).max(t.source(i)),
        on: check_needs::union(a.on, b.on),
        off: check_needs::union(a.off, b.off),
    }
}

// Of tables that OVERLAP refuses at move i: so there is an earlier one.
fn find(t: &ChartTables<'_>, i: usize) -> Witness
    requires { verdict (given t.now) ≡ Err (R.Overlap i) }
    ensures { OverlapFound (given t.now) i result }
{
    let mut words = [0u64; Chart::MOVES * Needs::WORDS];
    check_literals::fill(t, LiteralCounts::of(t), &mut words);
    let j = check_overlap::earlier(t, &words, i).unwrap();
    show(t, &words, j, i)
}

// The verdict of any tables at all, with a witness for an OVERLAP.
pub fn check(t: &ChartTables<'_>) -> Witness
    ensures { Witnessed (given t.now) result }
{
    match check_tables::check(t) {
        Err(Refusal::Overlap(i)) => find(t, i),
        verdict => nothing(verdict),
    }
}
