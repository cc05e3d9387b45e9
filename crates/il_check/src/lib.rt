// The checks before a program is run, in their order.
#![tactic(auto)]

ghost use Rattle.std.specs.Prelude.{◌≡◌, Bool, ◌↔◌};
ghost use Rattle.il_check.specs.Judged.{StatePasses, JudgedBy};

use meaning::Refusal;
use tables::Chart;

// 14 STATE, for a lent controller with so many blocks, which are in time or not, of a program that declares `blocks`.
fn state_passes(words: &[u32], flip_flops: &[u8], count: usize, blocks: usize, timely: bool) -> bool
    ensures { (result ≡ Bool.true) ↔ StatePasses words.now flip_flops.now count blocks
        timely }
{
    flip_flops.len() == il_sizes::flip_flop_bytes(words)
        && count == blocks
        && timely
        && il_times::are_bits(flip_flops)
}

// "Checks 1 to 11 come first wherever tables or a scan step are given, then 13 where text or words are given, then
// 14, 15"
pub fn judge(
    step: u32,
    words: &[u32],
    flip_flops: &[u8],
    count: usize,
    timely: bool,
    scans: usize,
    results: usize,
) -> Result<(), Refusal>
    ensures { JudgedBy step words.now flip_flops.now count timely scans results result }
{
    if step < 1 || Chart::STEP < step {
        return Err(Refusal::Size);
    }
    let blocks = match grammar_words::words_pass(words) {
        Ok(d) => d as usize,
        Err(k) => return Err(Refusal::Text(k)),
    };
    if !state_passes(words, flip_flops, count, blocks, timely) {
        return Err(Refusal::State);
    }
    if results != scans {
        return Err(Refusal::Scans);
    }
    Ok(())
}
