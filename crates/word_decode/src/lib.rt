// Instructions from 32-bit words: "operator number times 134,217,728 plus operand".
#![tactic(auto)]

ghost use Rattle.std.specs.Prelude.{◌≡◌};
ghost use Rattle.format.specs.Decode.{unpacked, decoded};

use meaning::{Operand, Operator};

// LD 1, LDN 2, AND 3, ANDN 4: "Tests are on %IX1 to %IX64, %MX0 to %MX255, declared Tn.Q; .. TRUE and FALSE after LD
// only". OR( 5, ) 6, ST 7, S 8, R 9, CAL 10, LD of a time 11: "stores reach the same %MX and %QX1 to %QX64", and IN
// and PT of a block.
//
// Do not split this function: all operators stand in it, and each arm answers at once with `return`. So the compiler
// puts the decoder into the loop of the scan and goes from an arm straight to the code that runs its operator. Split in
// two, it makes the decoded instruction first and then jumps again on its tags: 20 indirect jumps in the scan, not 1.
// docs/PERFORMANCE.md has both figures.
#[inline(always)]
#[tactic(auto, using(crate::specs::Numbers::by_operator), unfolding(format::specs::Decode::unpacked))]
fn unpack(k: u32, m: u32) -> Option<Operator>
    ensures { result ≡ unpacked k m }
{
    match k {
        1 => match m {
            0..=255 => return Some(Operator::Ld(Operand::Mx(m as u16))),
            385..=448 => return Some(Operator::Ld(Operand::Ix((m - 384) as u16))),
            769..=800 => return Some(Operator::Ld(Operand::TimerQ((m - 768) as u16))),
            2000 => return Some(Operator::Ld(Operand::False)),
            2001 => return Some(Operator::Ld(Operand::True)),
            _ => return None,
        },
        2 => match m {
            0..=255 => return Some(Operator::Ldn(Operand::Mx(m as u16))),
            385..=448 => return Some(Operator::Ldn(Operand::Ix((m - 384) as u16))),
            769..=800 => return Some(Operator::Ldn(Operand::TimerQ((m - 768) as u16))),
            _ => return None,
        },
        3 => match m {
            0..=255 => return Some(Operator::And(Operand::Mx(m as u16))),
            385..=448 => return Some(Operator::And(Operand::Ix((m - 384) as u16))),
            769..=800 => return Some(Operator::And(Operand::TimerQ((m - 768) as u16))),
            _ => return None,
        },
        4 => match m {
            0..=255 => return Some(Operator::Andn(Operand::Mx(m as u16))),
            385..=448 => return Some(Operator::Andn(Operand::Ix((m - 384) as u16))),
            769..=800 => return Some(Operator::Andn(Operand::TimerQ((m - 768) as u16))),
            _ => return None,
        },
        5 => match m {
            0 => return Some(Operator::Or),
            _ => return None,
        },
        6 => match m {
            0 => return Some(Operator::Close),
            _ => return None,
        },
        7 => match m {
            0..=255 => return Some(Operator::St(Operand::Mx(m as u16))),
            513..=576 => return Some(Operator::St(Operand::Qx((m - 512) as u16))),
            1025..=1056 => return Some(Operator::St(Operand::TimerIn((m - 1024) as u16))),
            1281..=1312 => return Some(Operator::St(Operand::TimerPt((m - 1280) as u16))),
            _ => return None,
        },
        8 => match m {
            0..=255 => return Some(Operator::S(Operand::Mx(m as u16))),
            _ => return None,
        },
        9 => match m {
            0..=255 => return Some(Operator::R(Operand::Mx(m as u16))),
            _ => return None,
        },
        10 => match m {
            1537..=1568 => return Some(Operator::Cal(Operand::Timer((m - 1536) as u16))),
            _ => return None,
        },
        11 => match m {
            1..=86400000 => return Some(Operator::LdTime(m)),
            _ => return None,
        },
        _ => return None,
    }
}

// The instruction of a word, or none. It belongs into the loop of its caller, as `unpack` says.
#[inline(always)]
#[tactic(auto, unfolding(format::specs::Decode::decoded))]
pub fn decode(w: u32) -> Option<Operator>
    ensures { result ≡ decoded w }
{
    unpack(w / 134217728, w % 134217728)
}
