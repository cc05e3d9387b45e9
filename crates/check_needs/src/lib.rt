// What a move needs on and what it needs off, as words: document 02, Ask 2. Whoever asks for it goes through here: a
// class of things more is a field of `ThingWords` and two words more of a move.
#![tactic(auto)]

ghost use Rattle.std.specs.Prelude.{◌≡◌, ◌<◌, ◌≤◌, ◌/◌, length};
ghost use Rattle.std.specs.Int.Bits.{bit_or};
ghost use Rattle.check_needs.specs.Words.{need_words, needs_at, needs_put, no_needs, meet_words, clash_at, first_apart};
ghost use Rattle.check_needs.specs.Words.{others, hold_words, union_words, with_named};

use meaning::Kind;

// A set of things, a word for each class: number n is the bit of weight 2^(n-1).
#[derive(Clone, Copy)]
pub struct ThingWords {
    pub inputs: u64,
    pub timers: u64,
}

impl ThingWords {
    pub const NONE: ThingWords = ThingWords {
        inputs: 0,
        timers: 0,
    };
}

// What the literals of a move need on, and what they need off.
#[derive(Clone, Copy)]
pub struct Needs {
    pub on: ThingWords,
    pub off: ThingWords,
}

impl Needs {
    // So many words of a slice are a move's: one for each sign and class.
    pub const WORDS: usize = 4;

    pub const NONE: Needs = Needs {
        on: ThingWords::NONE,
        off: ThingWords::NONE,
    };
}

// ---- sets

// The set with what a literal of this kind names.
pub fn with_named(s: ThingWords, kind: Kind) -> ThingWords
    ensures { result ≡ with_named s kind }
{
    match kind {
        Kind::Input(n) => ThingWords {
            inputs: slices::with_number(s.inputs, usize::from(n)),
            ..s
        },
        Kind::Timer(n) => ThingWords {
            timers: slices::with_number(s.timers, usize::from(n)),
            ..s
        },
        Kind::Unused | Kind::Unknown => s,
    }
}

// What is in one of two sets.
pub fn union(a: ThingWords, b: ThingWords) -> ThingWords
    ensures { result ≡ union_words a b }
{
    ThingWords {
        inputs: a.inputs | b.inputs,
        timers: a.timers | b.timers,
    }
}

// Some thing is in both sets.
fn meet(a: ThingWords, b: ThingWords) -> bool
    ensures { result ≡ meet_words a b }
{
    a.inputs & b.inputs != 0 || a.timers & b.timers != 0
}

// What is not in the set.
fn others(s: ThingWords) -> ThingWords
    ensures { result ≡ others s }
{
    ThingWords {
        inputs: u64::MAX - s.inputs,
        timers: u64::MAX - s.timers,
    }
}

// ---- what moves need

// Whether the literals hold where these things are on and no others.
pub fn hold(a: Needs, on: ThingWords) -> bool
    ensures { result ≡ hold_words a on }
{
    !meet(a.off, on) && !meet(a.on, others(on))
}

// The timers that the literals name, of either sign.
pub fn timers_named(a: Needs) -> u64
    ensures { result ≡ bit_or a.on.timers a.off.timers }
{
    a.on.timers | a.off.timers
}

// ---- in a slice

// What move i needs; nothing, if the slice is too short for it.
pub fn needs_at(words: &[u64], i: usize) -> Needs
    ensures { (i < length words.now / need_words → result ≡ needs_at words.now i)
        × (length words.now / need_words ≤ i → result ≡ no_needs) }
{
    if words.len() / Needs::WORDS <= i {
        return Needs::NONE;
    }
    let at = Needs::WORDS * i;
    Needs {
        on: ThingWords {
            inputs: words[at],
            timers: words[at + 1],
        },
        off: ThingWords {
            inputs: words[at + 2],
            timers: words[at + 3],
        },
    }
}

// What move i needs, stored where `needs_at` finds it, if there is room.
pub fn put_needs(words: &mut [u64], i: usize, a: Needs)
    ensures { (i < length words.old / need_words
        → words.new ≡ needs_put words.old i a)
        × (length words.old / need_words ≤ i → words.new ≡ words.old) }
{
    if words.len() / Needs::WORDS <= i {
        return;
    }
    let at = Needs::WORDS * i;
    words[at] = a.on.inputs;
    words[at + 1] = a.on.timers;
    words[at + 2] = a.off.inputs;
    words[at + 3] = a.off.timers;
}

// "a clash where one's on meets the other's off": of a move that needs a, with move j. Class by class, and a word is
// read only where those before it left it open: most pairs of moves clash at one of the first two.
fn clash_at(words: &[u64], j: usize, a: Needs) -> bool
    ensures { result ≡ clash_at words.now a j }
{
    if words.len() / Needs::WORDS <= j {
        return false;
    }
    let at = Needs::WORDS * j;
    a.on.inputs & words[at + 2] != 0
        || words[at] & a.off.inputs != 0
        || a.on.timers & words[at + 3] != 0
        || words[at + 1] & a.off.timers != 0
}

// The first of the moves from `from` to below `to` that does not clash with a move that needs a; with none, where it
// ends, and no Option, since the caller goes on from there. It is a loop of its own because most of the check's time
// goes here: in a longer one the compiler keeps the words in memory.
pub fn first_apart(words: &[u64], a: Needs, from: usize, to: usize) -> usize
    ensures { result ≡ first_apart words.now a from to }
{
    // a move past the end needs nothing, so it clashes with none; up to there no look at a word has to ask for the end
    let known = to.min(words.len() / Needs::WORDS);
    for j in from..known {
        if !clash_at(words, j, a) {
            return j;
        }
    }
    from.max(known)
}
