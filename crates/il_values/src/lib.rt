// What a test reads: a flip-flop's byte, or an input or Q as a bit of a word; and a bit put into a word.
#![tactic(auto)]

ghost use Rattle.std.specs.Prelude.{◌≡◌, ◌-◌};
ghost use Rattle.meaning.specs.Literals.{input_on};
ghost use Rattle.meaning.specs.Scan.{flip_flop_on};
ghost use Rattle.il_values.specs.Value.{bit_on, with_bit, value_in};

use meaning::Operand;

// From a number that counts from 1.
pub fn from_zero(n: u16) -> usize
    ensures { result ≡ n - 1 }
{
    usize::from(n).saturating_sub(1)
}

#[tactic(auto, unfolding(crate::specs::Value::bit_on))]
fn bit_on(w: u64, k: usize) -> bool
    ensures { result ≡ bit_on w k }
{
    k < 64 && (w >> k) % 2 == 1
}

// The word with bit k as v; a bit past the 64th changes nothing.
#[tactic(auto, unfolding(crate::specs::Value::with_bit))]
pub fn with_bit(w: u64, k: usize, v: bool) -> u64
    ensures { result ≡ with_bit w k v }
{
    if 63 < k {
        w
    } else if v {
        w | 1u64 << k
    } else if bit_on(w, k) {
        w - (1u64 << k)
    } else {
        w
    }
}

// "input i the bit of weight 2^(i-1)"
#[tactic(auto, unfolding(meaning::specs::Literals::input_on, crate::specs::Value::bit_on))]
fn is_on(w: u64, n: u16) -> bool
    ensures { result ≡ input_on w n }
{
    bit_on(w, from_zero(n))
}

// Whether the byte of flip-flop n is 1.
#[tactic(auto, unfolding(meaning::specs::Scan::flip_flop_on))]
pub fn flip_flop(flip_flops: &[u8], n: usize) -> bool
    ensures { result ≡ flip_flop_on flip_flops.now n }
{
    slices::at(flip_flops, n, 0) == 1
}

// What a test reads.
#[tactic(auto, unfolding(crate::specs::Value::value_in))]
pub fn value(flip_flops: &[u8], x: u64, qs: u64, o: Operand) -> bool
    ensures { result ≡ value_in x qs flip_flops.now o }
{
    match o {
        Operand::Mx(n) => flip_flop(flip_flops, usize::from(n)),
        Operand::Ix(n) => is_on(x, n),
        Operand::TimerQ(n) => is_on(qs, n),
        Operand::True => true,
        _ => false,
    }
}
