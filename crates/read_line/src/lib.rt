// Which line of a text some bytes are: document 01, "The written text". The first bytes choose which forms of a line
// are tried; bytes are one line at most, so that the order of the tries has no effect.
#![tactic(auto)]

ghost use Rattle.std.specs.Prelude.{◌≡◌, get_or};
ghost use Rattle.format.specs.Automata.Lines.{said};
ghost use Rattle.read_line.specs.Forms.{Puts, Stores, Others};

use format::Line;
use meaning::{Operand, Operator};

// ST, "on %MX or %QX", and the stores of a timer rung.
fn put_of(s: &[u8]) -> Line
    requires { Puts s.now }
    ensures { result ≡ said s.now }
{
    if let Some(n) = read_decimals::numbered(s, b"ST %MX", b"", 0, 255) {
        return Line::Says(Operator::St(Operand::Mx(n as u16)));
    }
    if let Some(n) = read_decimals::numbered(s, b"ST %QX", b"", 1, 64) {
        return Line::Says(Operator::St(Operand::Qx(n as u16)));
    }
    if let Some(n) = read_decimals::numbered(s, b"ST T", b".IN", 1, 32) {
        return Line::Says(Operator::St(Operand::TimerIn(n as u16)));
    }
    if let Some(n) = read_decimals::numbered(s, b"ST T", b".PT", 1, 32) {
        return Line::Says(Operator::St(Operand::TimerPt(n as u16)));
    }
    Line::Unknown
}

// "ST (on %MX or %QX), S, R (on %MX)": the second byte tells ST.
fn store_of(s: &[u8]) -> Line
    requires { Stores s.now }
    ensures { result ≡ said s.now }
{
    if let [_, b'T', ..] = s {
        return put_of(s);
    }
    if let Some(n) = read_decimals::numbered(s, b"S %MX", b"", 0, 255) {
        return Line::Says(Operator::S(Operand::Mx(n as u16)));
    }
    if let Some(n) = read_decimals::numbered(s, b"R %MX", b"", 0, 255) {
        return Line::Says(Operator::R(Operand::Mx(n as u16)));
    }
    Line::Unknown
}

// AND and ANDN, by the fourth byte.
fn and_of(s: &[u8]) -> Line
    requires { get_or s.now 0 0 ≡ 65 }
    ensures { result ≡ said s.now }
{
    if let [_, _, _, b'N', ..] = s {
        return match read_operands::test_after(s, b"ANDN ") {
            Some(o) => Line::Says(Operator::Andn(o)),
            None => Line::Unknown,
        };
    }
    match read_operands::test_after(s, b"AND ") {
        Some(o) => Line::Says(Operator::And(o)),
        None => Line::Unknown,
    }
}

// LD and LDN, by the third byte. "TRUE and FALSE after LD only"; "Times are 1 to 86,400,000 ms."
fn load_of(s: &[u8]) -> Line
    requires { get_or s.now 0 0 ≡ 76 }
    ensures { result ≡ said s.now }
{
    if let [_, _, b'N', ..] = s {
        return match read_operands::test_after(s, b"LDN ") {
            Some(o) => Line::Says(Operator::Ldn(o)),
            None => Line::Unknown,
        };
    }
    if let Some(o) = read_operands::test_after(s, b"LD ") {
        return Line::Says(Operator::Ld(o));
    }
    if read_decimals::same(s, b"LD FALSE") {
        return Line::Says(Operator::Ld(Operand::False));
    }
    if read_decimals::same(s, b"LD TRUE") {
        return Line::Says(Operator::Ld(Operand::True));
    }
    if let Some(n) = read_decimals::numbered(s, b"LD T#", b"ms", 1, 86400000) {
        return Line::Says(Operator::LdTime(n));
    }
    Line::Unknown
}

// Brackets, CAL, and the lines around the rungs, each form in turn.
fn other_of(s: &[u8]) -> Line
    requires { Others s.now }
    ensures { result ≡ said s.now }
{
    if read_decimals::same(s, b"OR(") {
        return Line::Says(Operator::Or);
    }
    if read_decimals::same(s, b")") {
        return Line::Says(Operator::Close);
    }
    if let Some(n) = read_decimals::numbered(s, b"CAL T", b"", 1, 32) {
        return Line::Says(Operator::Cal(Operand::Timer(n as u16)));
    }
    if let Some(n) = read_decimals::numbered(s, b"T", b" : TON;", 1, 32) {
        return Line::Block(n as u16);
    }
    if read_decimals::same(s, b"VAR") {
        return Line::Var;
    }
    if read_decimals::same(s, b"END_VAR") {
        return Line::EndVar;
    }
    if read_decimals::same(s, b"PROGRAM CHART") {
        return Line::Header;
    }
    if read_decimals::same(s, b"END_PROGRAM") {
        return Line::EndProgram;
    }
    Line::Unknown
}

// The line that the bytes are, without its LF, by its first byte: A, L, R or S, or any other.
pub fn line_of(s: &[u8]) -> Line
    ensures { result ≡ said s.now }
{
    match s {
        [b'A', ..] => and_of(s),
        [b'L', ..] => load_of(s),
        [b'R' | b'S', ..] => store_of(s),
        _ => other_of(s),
    }
}
