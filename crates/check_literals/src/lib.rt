// The rules that the literals of a move are held to, document 01's refusal 8, LITERAL; and what they need on and off.
#![tactic(auto)]

ghost use Rattle.std.specs.Prelude.{◌≡◌, true, false, not, ◌&&◌, ◌||◌, ◌<◌, ◌≤◌, ◌/◌, ℕ, suc, length};
ghost use Rattle.std.specs.Prelude.{nat_abs, is_some, IfSome};
ghost use Rattle.std.specs.Bool.{beq};
ghost use Rattle.meaning.specs.Tables.{Tables, move_count, timer_count, literal, literal_places};
ghost use Rattle.meaning.specs.Literals.{kind_of, input_on};
ghost use Rattle.meaning.specs.Check.{place_passes, literal_passes};
ghost use Rattle.tables.specs.Given.{given};
ghost use Rattle.check_needs.specs.Words.{NeedWords, WordsTo, need_words};
ghost use Rattle.check_literals.specs.Places.{PlacesRead, ThingMore, PlaceMore, LiteralsPass};

use check_needs::Needs;
use meaning::Kind;
use tables::ChartTables;

// How many inputs and timers there are: literals are held to these counts.
#[derive(Clone, Copy)]
pub struct LiteralCounts {
    pub inputs: u32,
    pub timers: usize,
}

impl LiteralCounts {
    // Those of a chart.
    pub fn of(t: &ChartTables<'_>) -> LiteralCounts
        ensures { (result.inputs ≡ t.now.chart.inputs) × (result.timers ≡ timer_count (given t.now)) }
    {
        LiteralCounts {
            inputs: t.chart.inputs,
            timers: t.timer_count(),
        }
    }
}

// Of the literal places of a move so far: what they need, and whether one of them is unused.
#[derive(Clone, Copy)]
struct PlacesSoFar {
    needs: Needs,
    ended: bool,
}

// A move has so many literal places.
const PLACES: u8 = 8;

fn more_needs(a: Needs, want: bool, kind: Kind) -> Needs
    ensures { ThingMore a.on (beq want true) kind result.on
        × ThingMore a.off (beq want false) kind result.off }
{
    if want {
        Needs {
            on: check_needs::with_named(a.on, kind),
            ..a
        }
    } else {
        Needs {
            off: check_needs::with_named(a.off, kind),
            ..a
        }
    }
}

// With one place more: "a negative number asks for the same thing to be off".
fn with_place(a: PlacesSoFar, want: bool, kind: Kind) -> PlacesSoFar
    ensures { PlaceMore a want kind result }
{
    PlacesSoFar {
        needs: more_needs(a.needs, want, kind),
        ended: a.ended || matches!(kind, Kind::Unused),
    }
}

// Whether number n may follow: no unused place before it, and not one thing twice.
fn free(ended: bool, p: u64, q: u64, n: u16) -> bool
    ensures { 1 ≤ n → n ≤ 64 → result ≡ (not ended && not (input_on p n || input_on q n)) }
{
    !ended && 1 <= n && n <= 64 && ((p | q) >> (n - 1)) % 2 != 1
}

// "a literal rule broken, or beyond the counts": whether a literal of this kind may stand next.
fn kind_passes(counts: LiteralCounts, a: PlacesSoFar, kind: Kind) -> bool
    ensures { (c : Tables) (i k : ℕ) → c.inputs ≡ counts.inputs → timer_count c ≡ counts.timers
        → PlacesRead c i k a → kind ≡ kind_of (nat_abs (literal c i k)) → result ≡ place_passes c i k }
{
    match kind {
        Kind::Unused => true,
        Kind::Input(n) => {
            u32::from(n) <= counts.inputs && free(a.ended, a.needs.on.inputs, a.needs.off.inputs, n)
        }
        Kind::Timer(n) => {
            usize::from(n) <= counts.timers
                && free(a.ended, a.needs.on.timers, a.needs.off.timers, n)
        }
        Kind::Unknown => false,
    }
}

// What move i needs, if it passes. Of the tables the moves alone are read, here and below.
pub fn needs_of(t: &ChartTables<'_>, counts: LiteralCounts, i: usize) -> Option<Needs>
    ensures { (c : Tables) → c.inputs ≡ counts.inputs → timer_count c ≡ counts.timers
        → c.moves ≡ t.now.moves.now → (is_some result ≡ literal_passes c i)
        × IfSome result (λ a. NeedWords c i literal_places a) }
{
    let mut a = PlacesSoFar {
        needs: Needs::NONE,
        ended: false,
    };
    for k in 0..PLACES {
        let v = t.literal(i, k);
        let kind = tables::kind(v);
        if !kind_passes(counts, a, kind) {
            return None;
        }
        a = with_place(a, tables::wanted(v), kind);
    }
    Some(a.needs)
}

// Whether move i passes; what it needs is kept in its words.
pub fn literal_passes(
    t: &ChartTables<'_>,
    counts: LiteralCounts,
    i: usize,
    words: &mut [u64],
) -> bool
    ensures long { length words.new ≡ length words.old }
    ensures value { (c : Tables) → c.inputs ≡ counts.inputs → timer_count c ≡ counts.timers
        → c.moves ≡ t.now.moves.now → (result ≡ literal_passes c i)
        × (result ≡ true → i < length words.old / need_words
        → WordsTo c i words.old → WordsTo c (suc i) words.new) }
{
    match needs_of(t, counts, i) {
        Some(needs) => {
            check_needs::put_needs(words, i, needs);
            true
        }
        None => false,
    }
}

// What every move needs is kept in its words, where all moves pass.
pub fn fill(t: &ChartTables<'_>, counts: LiteralCounts, words: &mut [u64])
    ensures { (c : Tables) → c.inputs ≡ counts.inputs → timer_count c ≡ counts.timers
        → c.moves ≡ t.now.moves.now → LiteralsPass c
        → move_count c ≤ length words.old / need_words → WordsTo c (move_count c) words.new }
{
    for i in 0..t.move_count() {
        literal_passes(t, counts, i, words);
    }
}
