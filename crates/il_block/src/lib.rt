// One timer block by value: its call, its Q as a bit of a word, and whether it is in its time.
#![tactic(auto)]

ghost use Rattle.std.specs.Prelude.{◌≡◌};
ghost use Rattle.meaning.specs.Scan.{elapsed, ton};
ghost use Rattle.il_values.specs.Value.{with_bit};
ghost use Rattle.il_block.specs.Called.{called_with, in_its_time};

use meaning::Block;

// "IN off gives ET 0 ..; IN on after off gives ET 0; IN on after on adds one scan step, up to PT"
#[tactic(auto, unfolding(meaning::specs::Scan::elapsed))]
fn elapsed(b: Block, step: u32) -> u32
    ensures { result ≡ elapsed step b }
{
    if b.input && b.last {
        b.et.saturating_add(step).min(b.pt)
    } else {
        0
    }
}

// "Q when ET reaches PT"
#[tactic(auto, unfolding(meaning::specs::Scan::ton))]
fn ton(b: Block, step: u32) -> Block
    ensures { result ≡ ton step b }
{
    let et = elapsed(b, step);
    Block {
        et,
        q: b.input && b.pt <= et,
        last: b.input,
        ..b
    }
}

// CAL, with the IN and PT stored last.
pub fn cal(b: Block, input: bool, pt: u32, step: u32) -> Block
    ensures { result ≡ called_with step input pt b }
{
    ton(Block { input, pt, ..b }, step)
}

// The word of the Qs with that of block i.
pub fn with_q(qs: u64, i: usize, b: Block) -> u64
    ensures { result ≡ with_bit qs i b.q }
{
    il_values::with_bit(qs, i, b.q)
}

// Whether ET of block i is within its time.
#[tactic(auto, unfolding(crate::specs::Called::in_its_time))]
pub fn in_its_time(times: &[u32; 32], i: usize, b: Block) -> bool
    ensures { result ≡ in_its_time i b times.now }
{
    i < times.len() && b.et <= times[i]
}
