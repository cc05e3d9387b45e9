// The time of each block's rung, and whether bytes are bits.
#![tactic(auto)]

ghost use Rattle.std.specs.Prelude.{◌≡◌, Bool, ◌↔◌};
ghost use Rattle.il_times.specs.Validity.{AreBits};
ghost use Rattle.il_times.specs.Sizes.{time_in, rungs_in, no_rungs};
ghost use Rattle.format.specs.Decode.{decoded};

use meaning::Operator;

// The time loaded last after a word.
#[tactic(auto, unfolding(crate::specs::Sizes::time_after, crate::specs::Sizes::time_in))]
fn time_of(t: u32, w: u32) -> u32
    ensures { result ≡ time_in t (decoded w) }
{
    if w / 134217728 < 10 {
        return t;
    }
    match word_decode::decode(w) {
        Some(Operator::LdTime(n)) => n,
        _ => t,
    }
}

// Each block's time: the one loaded last at its CAL.
pub fn times_of(words: &[u32]) -> [u32; 32]
    ensures { result ≡ (rungs_in words.now no_rungs).times }
{
    let mut time = 0;
    let mut times = [0u32; 32];
    for w in words {
        time = time_of(time, *w);
        if let Some(k) = il_called::word_due(times.len(), *w) {
            times[k] = time;
        }
    }
    times
}

// "byte not 0 or 1"
#[tactic(auto, unfolding(crate::specs::Validity::AreBits))]
pub fn are_bits(flip_flops: &[u8]) -> bool
    ensures { (result ≡ Bool.true) ↔ AreBits flip_flops.now }
{
    flip_flops.iter().all(|b| *b <= 1)
}
