// The lines of a text: operands, times, declarations, the first line and the last. They are written part by part, a
// part that has no room not at all.
#![tactic(auto)]

ghost use Rattle.std.specs.Prelude.{◌≡◌, ◌+◌, ◌%◌};
ghost use mathlib.Core.List.{◌++◌, flat_map};
ghost use Rattle.format.specs.Text.{bytes, decimal, operand_text, operator_text, line, block_line, declarations};
ghost use Rattle.meaning.specs.Rows.{table};
ghost use Rattle.meaning.specs.declared.Operand.{Operand};
ghost use Rattle.meaning.specs.declared.Operator.{Operator};
ghost use Rattle.write_lines.specs.Fit.{PutIfRoom};

use meaning::{Operand, Operator};

fn digit(n: u16) -> u8
    ensures { result ≡ 48 + n % 10 }
{
    b'0' + (n % 10) as u8
}

// A number at the end of a line; no loop, because most lines end in one, of a few digits.
#[tactic(auto, using(crate::specs::Digits::few_digits), unfolding(format::specs::Text::line))]
fn put_number(out: &mut [u8], at: usize, n: u16) -> usize
    ensures { PutIfRoom out.old at (line (decimal n)) out.new result }
{
    match n {
        0..=9 => write_lines::put_part(out, at, &[digit(n), b'\n']),
        10..=99 => write_lines::put_part(out, at, &[digit(n / 10), digit(n), b'\n']),
        100..=999 => write_lines::put_part(
            out,
            at,
            &[digit(n / 100), digit(n / 10), digit(n), b'\n'],
        ),
        1000..=9999 => {
            let four = [
                digit(n / 1000),
                digit(n / 100),
                digit(n / 10),
                digit(n),
                b'\n',
            ];
            write_lines::put_part(out, at, &four)
        }
        _ => {
            let thousands = n / 1000;
            let five = [
                digit(thousands / 10),
                digit(thousands),
                digit(n / 100),
                digit(n / 10),
                digit(n),
                b'\n',
            ];
            write_lines::put_part(out, at, &five)
        }
    }
}

// The rest of a line on %MXn. For each of three kinds of operand a function, two lines long: one that takes the kind
// would have it spelt at every caller.
pub fn put_mx(out: &mut [u8], at: usize, n: u16) -> usize
    ensures { PutIfRoom out.old at (line (operand_text (Operand.Mx n))) out.new result }
{
    let p = write_lines::put_part(out, at, b"%MX");
    put_number(out, p, n)
}

// The line of %IXn.
pub fn put_ix(out: &mut [u8], at: usize, n: u16) -> usize
    ensures { PutIfRoom out.old at (line (operand_text (Operand.Ix n))) out.new result }
{
    let p = write_lines::put_part(out, at, b"%IX");
    put_number(out, p, n)
}

// The line of %QXn.
pub fn put_qx(out: &mut [u8], at: usize, n: u16) -> usize
    ensures { PutIfRoom out.old at (line (operand_text (Operand.Qx n))) out.new result }
{
    let p = write_lines::put_part(out, at, b"%QX");
    put_number(out, p, n)
}

// The name of a block. There are at most 32.
#[tactic(auto, using(crate::specs::Digits::few_digits, write_lines::specs::Fit::in_a_row))]
fn put_name(out: &mut [u8], at: usize, n: u16) -> usize
    ensures { PutIfRoom out.old at (bytes "T" ++ decimal n) out.new result }
{
    match n {
        0..=9 => write_lines::put_part(out, at, &[b'T', digit(n)]),
        10..=99 => write_lines::put_part(out, at, &[b'T', digit(n / 10), digit(n)]),
        _ => {
            let p = write_lines::put(out, at, b'T');
            write_lines::put_decimal(out, p, u64::from(n))
        }
    }
}

// The rest of a line that begins with the name of a block. Inlined, here and below, so that the compiler knows the
// lengths of the parts and needs no memmove.
#[inline(always)]
pub fn put_named(out: &mut [u8], at: usize, n: u16, tail: &[u8]) -> usize
    ensures { PutIfRoom out.old at (bytes "T" ++ (decimal n ++ tail.now)) out.new
        result }
{
    let p = put_name(out, at, n);
    write_lines::put_part(out, p, tail)
}

// A line on a block, or on a part of it: an operator, its name, and what follows that.
#[inline(always)]
pub fn put_on_block(out: &mut [u8], at: usize, word: &[u8], n: u16, tail: &[u8]) -> usize
    ensures { PutIfRoom out.old
        at (word.now ++ (bytes "T" ++ (decimal n ++ tail.now))) out.new result }
{
    let p = write_lines::put_part(out, at, word);
    put_named(out, p, n, tail)
}

// A number of any size between two parts of a line.
#[inline(always)]
fn put_between(out: &mut [u8], at: usize, head: &[u8], n: u64, tail: &[u8]) -> usize
    ensures { PutIfRoom out.old at (head.now ++ (decimal n ++ tail.now)) out.new result }
{
    let p = write_lines::put_part(out, at, head);
    let q = write_lines::put_decimal(out, p, n);
    write_lines::put_part(out, q, tail)
}

// The line LD T#..ms.
pub fn put_time(out: &mut [u8], at: usize, n: u32) -> usize
    ensures { PutIfRoom out.old at (line (operator_text (Operator.LdTime n))) out.new result }
{
    put_between(out, at, b"LD T#", u64::from(n), b"ms\n")
}

// "T1 : TON;"
fn put_block(out: &mut [u8], at: usize, n: usize) -> usize
    ensures { PutIfRoom out.old at (block_line n) out.new result }
{
    put_between(out, at, b"T", n as u64, b" : TON;\n")
}

// a line each, for the blocks 1 to d
fn put_blocks(out: &mut [u8], at: usize, d: usize) -> usize
    ensures { PutIfRoom out.old at (flat_map block_line (table (λ n. n) 1 d)) out.new result }
{
    let mut p = at;
    for n in 0..d {
        p = put_block(out, p, n + 1);
    }
    p
}

// "PROGRAM CHART; if there are timers, VAR, .., END_VAR"
pub fn put_head(out: &mut [u8], at: usize, d: usize) -> usize
    ensures { PutIfRoom out.old at (line (bytes "PROGRAM CHART") ++ declarations d) out.new
        result }
{
    let p = write_lines::put_part(out, at, b"PROGRAM CHART\n");
    if d == 0 {
        return p;
    }
    let q = write_lines::put_part(out, p, b"VAR\n");
    let r = put_blocks(out, q, d);
    write_lines::put_part(out, r, b"END_VAR\n")
}

// The line END_PROGRAM.
#[tactic(auto, unfolding(format::specs::Text::line))]
pub fn put_end(out: &mut [u8], at: usize) -> usize
    ensures { PutIfRoom out.old at (line (bytes "END_PROGRAM")) out.new result }
{
    write_lines::put_part(out, at, b"END_PROGRAM\n")
}
