// One pass over a text, line after line.
#![tactic(auto)]

ghost use Rattle.std.specs.Prelude.{◌≡◌, ◌+◌, ◌%◌, ◌≤◌, length, set};
ghost use Rattle.format.specs.Words.{word};
ghost use Rattle.read_pass.specs.Passes.{LineEnd, words_counted, placed, Pass};

use format::Line;
use meaning::Operator;

// Where the line that begins at from ends: at its LF, or with the text.
fn line_end(text: &[u8], from: usize) -> usize
    requires { from ≤ length text.now }
    ensures { LineEnd text.now from result }
{
    for e in from..text.len() {
        if text[e] == b'\n' {
            return e;
        }
    }
    text.len()
}

// The word of an instruction, where there is room for it; it counts in any case.
fn put_word(out: &mut [u32], n: usize, i: Operator) -> usize
    requires { n ≤ 9223372036854775807 }
    ensures { (result ≡ n + 1) × (out.new ≡ set out.old n (word i % 4294967296)) }
{
    if n < out.len() {
        out[n] = word_encode::encode(i);
    }
    n + 1
}

fn put_line(out: &mut [u32], n: usize, l: Line) -> usize
    requires { n ≤ 9223372036854775807 }
    ensures { (result ≡ words_counted n l) × (out.new ≡ placed out.old n l) }
{
    match l {
        Line::Says(i) => put_word(out, n, i),
        _ => n,
    }
}

// One pass over the lines: the words of a whole text, or the place of TEXT. It measures over an empty part, and writes
// over one with room.
pub fn pass(text: &[u8], out: &mut [u32]) -> Result<usize, usize>
    ensures { Pass text.now out.old result out.new }
{
    let mut p = read_page::first();
    let mut from = 0;
    let mut n = 0;
    // the place jumps from line to line, so this is no `for`
    while from < text.len() {
        let to = line_end(text, from);
        if to == text.len() {
            return Err(from); // a line ends in LF
        }
        let l = read_line::line_of(&text[from..to]);
        p = read_page::turn(p, l);
        if !read_page::stands(p) {
            return Err(from);
        }
        n = put_line(out, n, l);
        from = to + 1;
    }
    if !read_page::is_over(p) {
        return Err(from); // lines are missing at the end
    }
    Ok(n)
}
