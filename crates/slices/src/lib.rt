// What stands at a place of a slice, or what is given for a place past its end; a store where the slice has the place;
// the shorter of two lengths; a number put into a word.
#![tactic(auto)]

ghost use Rattle.std.specs.Prelude.{◌≡◌, min, get_or, set};
ghost use Rattle.slices.specs.Numbers.{with_number};

// What stands at place i; past the end what is given for it.
pub fn at<T: Copy>(items: &[T], i: usize, past_end: T) -> T
    ensures { result ≡ get_or items.now i past_end }
{
    items.get(i).copied().unwrap_or(past_end)
}

// An item stored at place i, if the slice has it.
pub fn put<T: Copy>(items: &mut [T], i: usize, item: T)
    ensures { items.new ≡ set items.old i item }
{
    if i < items.len() {
        items[i] = item;
    }
}

// The shorter of two lengths: as much as two slices both have room for.
pub fn shorter(a: usize, b: usize) -> usize
    ensures { result ≡ min a b }
{
    a.min(b)
}

// The word with number n too, the bit of weight 2^(n-1); a number that no word has a bit for changes nothing.
pub fn with_number(w: u64, n: usize) -> u64
    ensures { result ≡ with_number w n }
{
    match n {
        1..=64 => w | 1u64 << n - 1,
        _ => w,
    }
}
