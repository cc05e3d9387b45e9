// A bare field taken whole: its number, as far as the digits go that cannot take it beyond its type, and what ends it.
#![tactic(auto)]

ghost use Rattle.std.specs.Prelude.{◌≡◌, ◌≤◌, length, drop};
ghost use Rattle.csv_bare.specs.Bare.{digits_from, number_from, bare_from, end_from};

use csv_cursor::{COMMA, CR, LF};

// What a run of bytes that hold a number comes to: the place after them, and the number.
#[derive(Clone, Copy)]
pub struct BareNumber {
    pub end: usize,
    pub value: u64,
}

// The digits that follow in a number that has begun. They also stop before one that might take it beyond the limit:
// there byte after byte decides.
#[tactic(auto, using(crate::specs::BareLaws::digits_runs))]
fn digits(limit: u64, bytes: &[u8], from: usize, first: u64) -> BareNumber
    requires { from ≤ length bytes.now }
    ensures { result ≡ digits_from limit (drop from bytes.now) from first }
{
    // no digit follows a 0, and no number is 0 after that
    if first == 0 {
        return BareNumber {
            end: from,
            value: first,
        };
    }
    let tenth = limit / 10;
    let mut n = first;
    for i in from..bytes.len() {
        let b = bytes[i];
        if !b.is_ascii_digit() || tenth <= n {
            return BareNumber { end: i, value: n };
        }
        n = 10 * n + u64::from(b - b'0');
    }
    BareNumber {
        end: bytes.len(),
        value: n,
    }
}

// The number whose first digit is at from, and no less than least.
#[tactic(auto, unfolding(crate::specs::Bare::number_from))]
fn number_at(least: u8, limit: u64, bytes: &[u8], from: usize) -> Option<BareNumber>
    requires { 48 ≤ least }
    ensures { result ≡ number_from least limit bytes.now from }
{
    let b = *bytes.get(from)?;
    if b < least || b'9' < b {
        return None;
    }
    let first = u64::from(b - b'0');
    if limit < first {
        return None;
    }
    Some(digits(limit, bytes, from + 1, first))
}

// The bare number that begins at from; where there is none, the field is to be read byte after byte. After a minus no 0
// comes: "no .. -0".
#[tactic(auto, unfolding(crate::specs::Bare::bare_from))]
pub fn bare(most: u64, below: u64, bytes: &[u8], from: usize) -> Option<BareNumber>
    ensures { result ≡ bare_from most below bytes.now from }
{
    if bytes.get(from) == Some(&b'-') {
        let u = number_at(b'1', below, bytes, from + 1)?;
        return Some(BareNumber {
            value: csv_value::encode(true, u.value),
            ..u
        });
    }
    number_at(b'0', most, bytes, from)
}

// The place of the comma, or of the LF with or without a CR, that ends in its place a field whose number ends at end.
// "record of wrong field count": a comma has fields after it, the record's end has none.
#[tactic(auto, unfolding(crate::specs::Bare::end_from))]
pub fn field_end(left: usize, bytes: &[u8], end: usize) -> Option<usize>
    ensures { result ≡ end_from left bytes.now end }
{
    match *bytes.get(end)? {
        COMMA if 0 < left => Some(end),
        LF if left == 0 => Some(end),
        CR if left == 0 && bytes.get(end + 1) == Some(&LF) => Some(end + 1),
        _ => None,
    }
}
