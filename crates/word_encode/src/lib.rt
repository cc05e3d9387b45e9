// 32-bit words of instructions: "operator number times 134,217,728 plus operand".
#![tactic(auto)]

ghost use Rattle.std.specs.Prelude.{◌≡◌, ◌%◌, ◌<◌};
ghost use Rattle.format.specs.Words.{operand_number, word};

use meaning::{Operand, Operator};

// How many operands an operator number has words for.
const OPERANDS: u32 = 134217728;

// "Operand: %MXn n, %IXn 384+n, .."
#[tactic(auto, unfolding(format::specs::Words::operand_number))]
fn operand_number(o: Operand) -> u32
    ensures value { result ≡ operand_number o }
    ensures small { result < 134217728 }
{
    match o {
        Operand::Mx(n) => u32::from(n),
        Operand::Ix(n) => 384 + u32::from(n),
        Operand::Qx(n) => 512 + u32::from(n),
        Operand::TimerQ(n) => 768 + u32::from(n),
        Operand::TimerIn(n) => 1024 + u32::from(n),
        Operand::TimerPt(n) => 1280 + u32::from(n),
        Operand::Timer(n) => 1536 + u32::from(n),
        Operand::False => 2000,
        Operand::True => 2001,
    }
}

// The word of an instruction; of a time that no instruction has, its lower 32 bits.
#[tactic(auto, unfolding(format::specs::Words::word))]
pub fn encode(i: Operator) -> u32
    ensures { result ≡ word i % 4294967296 }
{
    match i {
        Operator::Ld(o) => OPERANDS + operand_number(o),
        Operator::Ldn(o) => 2 * OPERANDS + operand_number(o),
        Operator::And(o) => 3 * OPERANDS + operand_number(o),
        Operator::Andn(o) => 4 * OPERANDS + operand_number(o),
        Operator::Or => 5 * OPERANDS,
        Operator::Close => 6 * OPERANDS,
        Operator::St(o) => 7 * OPERANDS + operand_number(o),
        Operator::S(o) => 8 * OPERANDS + operand_number(o),
        Operator::R(o) => 9 * OPERANDS + operand_number(o),
        Operator::Cal(o) => 10 * OPERANDS + operand_number(o),
        Operator::LdTime(n) => (11 * OPERANDS).wrapping_add(n),
    }
}
