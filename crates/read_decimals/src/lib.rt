// Whether bytes are a word, and the decimal between two words.
#![tactic(auto)]

ghost use Rattle.std.specs.Prelude.{[]};
ghost use Rattle.read_decimals.specs.Forms.{SameWord, Spells};

// Whether the bytes are the word. (`==` does not compare a slice with an array, as the words are at the callers.)
pub fn same(s: &[u8], word: &[u8]) -> bool
    ensures { SameWord result word.now s.now }
{
    s == word
}

// A decimal from low to high. "Numbers have no leading zero."
#[inline(never)]
fn decimal_of(s: &[u8], low: u32, high: u32) -> Option<u32>
    ensures { Spells [] [] low high s.now result }
{
    if s.is_empty() || 1 < s.len() && s[0] == b'0' {
        return None;
    }
    let mut n: u64 = 0;
    for b in s {
        if !b.is_ascii_digit() {
            return None;
        }
        n = 10 * n + u64::from(*b - b'0');
        if u64::from(high) < n {
            return None;
        }
    }
    if n < u64::from(low) {
        return None;
    }
    Some(n as u32)
}

// A decimal from low to high between a head and a tail. Inlined, so that the compiler knows the lengths of both; the
// digits are read in one place.
#[inline(always)]
pub fn numbered(s: &[u8], head: &[u8], tail: &[u8], low: u32, high: u32) -> Option<u32>
    ensures { Spells head.now tail.now low high s.now result }
{
    decimal_of(s.strip_prefix(head)?.strip_suffix(tail)?, low, high)
}
