// What the controller of a list of words is lent: flip-flop bytes and blocks.
#![tactic(auto)]

ghost use Rattle.std.specs.Prelude.{◌≡◌};
ghost use Rattle.meaning.specs.Programs.{carried, bytes_for};
ghost use Rattle.il_sizes.specs.Bytes.{bytes_in, bytes_named};
ghost use Rattle.format.specs.Decode.{decoded};
ghost use Rattle.il_sizes.specs.Told.{SizesTold};

use meaning::{Operand, Operator, Refusal};

// The bytes that an operand asks for: one more than the number of a flip-flop.
#[tactic(auto, unfolding(meaning::specs::Programs::bytes_for))]
fn bytes_for(o: Operand) -> usize
    ensures { result ≡ bytes_for o }
{
    match o {
        Operand::Mx(n) => usize::from(n) + 1,
        _ => 0,
    }
}

#[tactic(auto, unfolding(meaning::specs::Programs::carried))]
fn carried_by(i: Operator) -> Operand
    ensures { result ≡ carried i }
{
    match i {
        Operator::Ld(o)
        | Operator::Ldn(o)
        | Operator::And(o)
        | Operator::Andn(o)
        | Operator::St(o)
        | Operator::S(o)
        | Operator::R(o)
        | Operator::Cal(o) => o,
        _ => Operand::False,
    }
}

#[tactic(auto, unfolding(crate::specs::Bytes::bytes_in))]
fn bytes_in(d: Option<Operator>) -> usize
    ensures { result ≡ bytes_in d }
{
    match d {
        Some(i) => bytes_for(carried_by(i)),
        None => 0,
    }
}

// The bytes that a word asks for: of tests, brackets and stores in flip-flops by its two numbers.
#[tactic(auto, unfolding(format::specs::Decode::decoded))]
fn bytes_of(w: u32) -> usize
    ensures { result ≡ bytes_in (decoded w) }
{
    let k = w / 134217728;
    let m = w % 134217728;
    match k {
        1..=4 if m < 256 => m as usize + 1,
        5..=6 if m == 0 => 0,
        7..=9 if m < 256 => m as usize + 1,
        _ => bytes_in(word_decode::decode(w)),
    }
}

// "one more than the highest %MX the program names (0 if none)"
pub fn flip_flop_bytes(words: &[u32]) -> usize
    ensures { result ≡ bytes_named words.now }
{
    let mut most = 0;
    for w in words {
        most = bytes_of(*w).max(most);
    }
    most
}

// What a program's controller is lent: flip-flop bytes and blocks.
#[derive(Clone, Copy)]
pub struct Sizes {
    pub flip_flops: usize,
    pub blocks: usize,
}

// The lengths of what the controller of the words is lent.
pub fn sizes_of(words: &[u32]) -> Result<Sizes, Refusal>
    ensures { SizesTold words.now result }
{
    match grammar_words::words_pass(words) {
        Ok(blocks) => Ok(Sizes {
            flip_flops: flip_flop_bytes(words),
            blocks: blocks as usize,
        }),
        Err(k) => Err(Refusal::Text(k)),
    }
}
