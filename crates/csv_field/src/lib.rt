// A field of a record, byte after byte: "a decimal of its type (no +, -0 or leading zero)", bare or quoted.
#![tactic(auto)]

ghost use Rattle.std.specs.Prelude.{◌≡◌, true, false};
ghost use Rattle.csv_field.specs.Field.{digit_added, field_begun, number_after, phase_after};

// Where the reader stands in its field.
#[derive(Clone, Copy)]
pub enum FieldPhase {
    // nothing of the record has come
    Fresh,
    // a comma has, and nothing of the field after it
    Empty,
    Quote,
    // quoted: a quote is open
    Minus {
        quoted: bool,
    },
    Number {
        quoted: bool,
        negative: bool,
        size: u64,
    },
    Closed {
        negative: bool,
        size: u64,
    },
    // CR after the last field: only LF may follow
    Return,
    // the record does not pass, whatever follows
    Bad,
}

// The number with one digit more, if it stays within the limit; no sum is made that could wrap.
#[tactic(auto, using(crate::specs::FieldLaws::grown))]
fn grow(limit: u64, quoted: bool, negative: bool, n: u64, b: u8) -> FieldPhase
    ensures { result ≡ digit_added limit quoted negative n b }
{
    if !b.is_ascii_digit() || limit / 10 < n {
        return FieldPhase::Bad;
    }
    let tens = 10 * n;
    let digit = u64::from(b - b'0');
    if limit - tens < digit {
        return FieldPhase::Bad;
    }
    FieldPhase::Number {
        quoted,
        negative,
        size: tens + digit,
    }
}

// The first byte of a field.
#[tactic(auto, unfolding(crate::specs::Field::field_begun))]
fn begin(most: u64, b: u8) -> FieldPhase
    ensures { result ≡ field_begun most b }
{
    match b {
        b'"' => FieldPhase::Quote,
        b'-' => FieldPhase::Minus { quoted: false },
        _ => grow(most, false, false, 0, b),
    }
}

// A byte after a digit: "no .. leading zero".
#[tactic(auto, unfolding(crate::specs::Field::number_after))]
fn after_digit(limit: u64, quoted: bool, negative: bool, n: u64, b: u8) -> FieldPhase
    ensures { result ≡ number_after limit quoted negative n b }
{
    match b {
        b'"' if quoted => FieldPhase::Closed { negative, size: n },
        b'"' => FieldPhase::Bad,
        _ if n == 0 => FieldPhase::Bad,
        _ => grow(limit, quoted, negative, n, b),
    }
}

// A byte that ends no field.
#[tactic(auto, unfolding(crate::specs::Field::phase_after))]
pub fn within(most: u64, below: u64, phase: FieldPhase, b: u8) -> FieldPhase
    ensures { result ≡ phase_after most below phase b }
{
    match phase {
        FieldPhase::Fresh | FieldPhase::Empty => begin(most, b),
        FieldPhase::Quote if b == b'-' => FieldPhase::Minus { quoted: true },
        FieldPhase::Quote => grow(most, true, false, 0, b),
        FieldPhase::Minus { .. } if b == b'0' => FieldPhase::Bad,
        FieldPhase::Minus { quoted } => grow(below, quoted, true, 0, b),
        FieldPhase::Number {
            quoted,
            negative,
            size,
        } => {
            let limit = if negative { below } else { most };
            after_digit(limit, quoted, negative, size, b)
        }
        FieldPhase::Closed { .. } | FieldPhase::Return | FieldPhase::Bad => FieldPhase::Bad,
    }
}
