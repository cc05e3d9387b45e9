// The lines of instruction words, by the operator and the operand that the numbers of a word say.
#![tactic(auto)]

ghost use Rattle.format.specs.Text.{operand_text, operator_text, line};
ghost use Rattle.format.specs.Decode.{operand_of};
ghost use Rattle.write_lines.specs.Fit.{PutIfRoom};
ghost use Rattle.write_word_lines.specs.Stores.{store_of};
ghost use mathlib.Core.List.{◌++◌, flat_map};
ghost use Rattle.write_word_lines.specs.ByNumbers.{operator_of, word_line};

// The rest of a line, from its operand on: "%MXn n, %IXn 384+n, .."; T0, which no instruction takes, where there is
// none.
pub fn put_operand(out: &mut [u8], at: usize, m: u32) -> usize
    ensures { PutIfRoom out.old at (line (operand_text (operand_of m))) out.new result }
{
    match m {
        0..=384 => write_spelling::put_mx(out, at, m as u16),
        385..=512 => write_spelling::put_ix(out, at, (m - 384) as u16),
        513..=768 => write_spelling::put_qx(out, at, (m - 512) as u16),
        769..=1024 => write_spelling::put_named(out, at, (m - 768) as u16, b".Q\n"),
        1025..=1280 => write_spelling::put_named(out, at, (m - 1024) as u16, b".IN\n"),
        1281..=1536 => write_spelling::put_named(out, at, (m - 1280) as u16, b".PT\n"),
        1537..=1999 => write_spelling::put_named(out, at, (m - 1536) as u16, b"\n"),
        2000 => write_lines::put_part(out, at, b"FALSE\n"),
        2001 => write_lines::put_part(out, at, b"TRUE\n"),
        _ => write_spelling::put_named(out, at, 0, b"\n"),
    }
}

// A line with an operand, by its operator. Inlined, so that the compiler knows the operator's length.
#[inline(always)]
fn put_on(out: &mut [u8], at: usize, operator: &[u8], m: u32) -> usize
    ensures { PutIfRoom out.old at (line (operator.now ++ operand_text (operand_of m))) out.new result }
{
    let p = write_lines::put_part(out, at, operator);
    put_operand(out, p, m)
}

// "ST 7, S 8, R 9, CAL 10, LD of a time 11"
#[tactic(auto, unfolding(crate::specs::Stores::store_of, format::specs::Text::operator_text))]
pub fn put_store(out: &mut [u8], at: usize, k: u32, m: u32) -> usize
    ensures { PutIfRoom out.old at (line (operator_text (store_of k m))) out.new result }
{
    match k {
        7 => put_on(out, at, b"ST ", m),
        8 => put_on(out, at, b"S ", m),
        9 => put_on(out, at, b"R ", m),
        10 => put_on(out, at, b"CAL ", m),
        _ => write_spelling::put_time(out, at, m),
    }
}

// "LD 1, LDN 2, AND 3, ANDN 4, OR( 5, ) 6", and the others. The line is written from the two numbers, because to make
// an instruction for each line and match it again takes longer than to write the line.
#[tactic(auto, unfolding(crate::specs::ByNumbers::operator_of, format::specs::Text::operator_text))]
fn put_word(out: &mut [u8], at: usize, k: u32, m: u32) -> usize
    ensures { PutIfRoom out.old at (line (operator_text (operator_of k m))) out.new result }
{
    match k {
        1 => put_on(out, at, b"LD ", m),
        2 => put_on(out, at, b"LDN ", m),
        3 => put_on(out, at, b"AND ", m),
        4 => put_on(out, at, b"ANDN ", m),
        5 => write_lines::put_part(out, at, b"OR(\n"),
        6 => write_lines::put_part(out, at, b")\n"),
        _ => put_store(out, at, k, m),
    }
}

// The lines of the instructions.
pub fn put_words(out: &mut [u8], at: usize, words: &[u32]) -> usize
    ensures { PutIfRoom out.old at (flat_map word_line words.now) out.new result }
{
    let mut p = at;
    for w in words {
        p = put_word(out, p, *w / 134217728, *w % 134217728);
    }
    p
}
