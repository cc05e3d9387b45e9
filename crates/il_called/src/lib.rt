// Which block a word calls.
#![tactic(auto)]

ghost use Rattle.std.specs.Prelude.{◌≡◌, ◌<◌, MatchOption, IfSome};
ghost use Rattle.format.specs.Decode.{decoded};
ghost use Rattle.il_called.specs.Due.{due};

use meaning::{Operand, Operator};

// The block, from 0, that an instruction calls out of so many; none where it is no CAL, or one of no such block.
#[tactic(auto, unfolding(crate::specs::Due::block_of, crate::specs::Due::called_by, crate::specs::Due::due))]
pub fn instruction_due(count: usize, i: Option<Operator>) -> Option<usize>
    ensures block { MatchOption result (due count i ≡ count) (λ k. k ≡ due count i) }
    ensures within { IfSome result (λ k. k < count) }
{
    let Some(Operator::Cal(Operand::Timer(n))) = i else {
        return None;
    };
    let k = il_values::from_zero(n);
    if k < count { Some(k) } else { None }
}

// The same of a word.
pub fn word_due(count: usize, w: u32) -> Option<usize>
    ensures block { MatchOption result (due count (decoded w) ≡ count) (λ k. k ≡ due count (decoded w)) }
    ensures within { IfSome result (λ k. k < count) }
{
    instruction_due(count, word_decode::decode(w))
}
