// The operand of a test that bytes name.
#![tactic(auto)]

ghost use Rattle.std.specs.Prelude.{[]};
ghost use Rattle.meaning.specs.Programs.{testable};
ghost use Rattle.read_operands.specs.Names.{Names};

use meaning::Operand;

// What a test is on, behind a head: "%IX1 to %IX64, %MX0 to %MX255, declared Tn.Q", here of any block that there may
// be.
pub fn test_after(s: &[u8], head: &[u8]) -> Option<Operand>
    ensures { Names head.now (testable 32) s.now result }
{
    tested(s.strip_prefix(head)?)
}

fn tested(s: &[u8]) -> Option<Operand>
    ensures { Names [] (testable 32) s.now result }
{
    if let Some(n) = read_decimals::numbered(s, b"%MX", b"", 0, 255) {
        return Some(Operand::Mx(n as u16));
    }
    if let Some(n) = read_decimals::numbered(s, b"%IX", b"", 1, 64) {
        return Some(Operand::Ix(n as u16));
    }
    if let Some(n) = read_decimals::numbered(s, b"T", b".Q", 1, 32) {
        return Some(Operand::TimerQ(n as u16));
    }
    None
}
