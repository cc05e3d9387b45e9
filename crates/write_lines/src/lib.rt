// Bytes written one after the other into a lent slice. The place counts on past its end, up to the largest usize, so
// that one generator measures (over an empty part) and writes. Some bytes are written as far as the slice reaches, a
// part of a line where all of it has room.
#![tactic(auto)]

ghost use Rattle.std.specs.Prelude.{[], ◌∷◌};
ghost use Rattle.format.specs.Text.{decimal};
ghost use Rattle.write_lines.specs.Put.{BytesPut};
ghost use Rattle.write_lines.specs.Fit.{PutIfRoom};

// One byte, where there is room; it counts in any case.
pub fn put(out: &mut [u8], at: usize, b: u8) -> usize
    ensures { BytesPut out.old at (b ∷ []) out.new result }
{
    if at < out.len() {
        out[at] = b;
    }
    at.saturating_add(1)
}

// Some bytes, as far as the slice reaches.
pub fn put_bytes(out: &mut [u8], at: usize, word: &[u8]) -> usize
    ensures { BytesPut out.old at word.now out.new result }
{
    let mut p = at;
    for b in word {
        p = put(out, p, *b);
    }
    p
}

// "Numbers have no leading zero."
pub fn put_decimal(out: &mut [u8], at: usize, n: u64) -> usize
    ensures { BytesPut out.old at (decimal n) out.new result }
{
    if n < 10 {
        put(out, at, b'0' + n as u8)
    } else {
        let p = put_decimal(out, at, n / 10);
        put(out, p, b'0' + (n % 10) as u8)
    }
}

// A part of a line, with one test for the room of all its bytes.
pub fn put_part(out: &mut [u8], at: usize, part: &[u8]) -> usize
    ensures { PutIfRoom out.old at part.now out.new result }
{
    let next = at.saturating_add(part.len());
    if out.len() < next {
        return next;
    }
    out[at..next].copy_from_slice(part);
    next
}
