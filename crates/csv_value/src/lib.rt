// What a field is that ends, and how its number is stored; and where in a record its reader stands.
#![tactic(auto)]

ghost use Rattle.std.specs.Prelude.{◌≡◌, true, false};
ghost use Rattle.csv_value.specs.Decimals.{encoded, decimal_of, begins, signed_of};

use csv_field::FieldPhase;

// A negative number is stored as its 64-bit two's complement.
pub fn encode(negative: bool, n: u64) -> u64
    ensures { result ≡ encoded negative n }
{
    if negative {
        u64::MAX - n.saturating_sub(1)
    } else {
        n
    }
}

// The other way for a move's numbers, 16 bits with a sign; what no such number is stored as gives 0.
pub fn signed(x: u64) -> i16
    ensures { result ≡ signed_of x }
{
    i16::try_from(x.cast_signed()).unwrap_or(0)
}

// What a field is that ends here.
#[tactic(auto, unfolding(crate::specs::Decimals::decimal_of))]
pub fn decimal_of(phase: FieldPhase) -> Option<u64>
    ensures { result ≡ decimal_of phase }
{
    match phase {
        FieldPhase::Number {
            quoted: false,
            negative,
            size,
        }
        | FieldPhase::Closed { negative, size } => { Some(encode(negative, size)) }
        _ => None,
    }
}

// Nothing of a field has come.
pub fn is_begin(phase: FieldPhase) -> bool
    ensures { result ≡ begins phase }
{
    matches!(phase, FieldPhase::Fresh | FieldPhase::Empty)
}
