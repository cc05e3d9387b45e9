// ST, S and R on the lent flip-flop bytes.
#![tactic(auto)]

ghost use Rattle.std.specs.Prelude.{◌≡◌, cond, set};
ghost use Rattle.il_stores.specs.Acted.{flip_flop_put, acted};

use meaning::{Operand, Operator};

// S (v is true) or R of the flip-flop k of a part.
fn set_or_reset(part: &mut [u8], k: usize, v: bool)
    ensures { part.new ≡ set part.old k (cond v 1 0) }
{
    slices::put(part, k, u8::from(v));
}

// "the second half of the lent flip-flop bytes": the working copies, lent on. A program that our writer did not make
// may name the first half.
fn act_on(flip_flops: &mut [u8], n: u16, v: bool)
    ensures { flip_flops.new ≡ set flip_flops.old n (cond v 1 0) }
{
    let k = usize::from(n);
    let half = flip_flops.len() / 2;
    if k < half {
        set_or_reset(&mut flip_flops[..half], k, v);
    } else {
        set_or_reset(&mut flip_flops[half..], k - half, v);
    }
}

// S or R of an operand.
#[tactic(auto, unfolding(crate::specs::Acted::flip_flop_put))]
fn act(flip_flops: &mut [u8], o: Operand, v: bool)
    ensures { flip_flops.new ≡ flip_flop_put v o flip_flops.old }
{
    if let Operand::Mx(n) = o {
        act_on(flip_flops, n, v);
    }
}

// ST of a result.
#[tactic(auto, unfolding(crate::specs::Acted::flip_flop_put))]
fn store(flip_flops: &mut [u8], o: Operand, v: bool)
    ensures { flip_flops.new ≡ flip_flop_put v o flip_flops.old }
{
    if let Operand::Mx(n) = o {
        set_or_reset(flip_flops, usize::from(n), v);
    }
}

// What an instruction does to the flip-flops, where the result is v: "S and R act only on a true result."
#[tactic(auto, unfolding(crate::specs::Acted::acted))]
pub fn change(flip_flops: &mut [u8], i: Operator, v: bool)
    ensures { flip_flops.new ≡ acted i v flip_flops.old }
{
    match i {
        Operator::St(o) => store(flip_flops, o, v),
        Operator::S(o) if v => act(flip_flops, o, true),
        Operator::R(o) if v => act(flip_flops, o, false),
        _ => {}
    }
}
