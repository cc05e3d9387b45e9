// The numbers that the reader of records stores, each in the type of its table, and how many of them a table has.
#![tactic(auto)]

ghost use Rattle.std.specs.Prelude.{◌≡◌, ℕ, map, ◌*◌, min};
ghost use Rattle.std.proofs.lemmas.List.Edits.{sets};
ghost use Rattle.csv_value.specs.Decimals.{signed_of};
ghost use Rattle.csv_columns.specs.Low.{low16, low32};

// The type of a table's numbers, and what a stored number is in it.
pub trait Column: Copy {
    ghost stored_as: { ℕ → Self };

    fn narrow(x: u64) -> Self
        ensures { result ≡ stored_as x };
}

// states.csv, timerpairs.csv, outputpairs.csv: the lower 16 bits.
impl Column for u16 {
    ghost stored_as = { low16 };

    fn narrow(x: u64) -> u16 {
        (x % 65536) as u16
    }
}

// frame.csv, presets.csv: the lower 32 bits.
impl Column for u32 {
    ghost stored_as = { low32 };

    fn narrow(x: u64) -> u32 {
        (x % 4294967296) as u32
    }
}

// moves.csv: the sign is in the upper bits.
impl Column for i16 {
    ghost stored_as = { signed_of };

    fn narrow(x: u64) -> i16 {
        csv_value::signed(x)
    }
}

// The numbers from the front, as far as there is room.
pub fn narrow<T: Column>(from: &[u64], to: &mut [T])
    ensures { to.new ≡ sets to.old 0 (map T.stored_as from.now) }
{
    for (i, number) in from.iter().enumerate() {
        slices::put(to, i, T::narrow(*number));
    }
}

// How many numbers so many rows of ROW each have, as far as there is room. No product wraps.
pub fn kept<const ROW: usize>(rows: usize, room: usize) -> usize
    ensures { result ≡ min (ROW * rows) room }
{
    rows.saturating_mul(ROW).min(room)
}
