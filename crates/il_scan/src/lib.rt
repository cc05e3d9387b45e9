// A program's words run over a lent controller: flip-flop bytes and one row of timer blocks. Every function over a row
// is thin; what they do to a block, a word or a byte is done by others, by value.
#![tactic(auto)]

ghost use Rattle.std.specs.Prelude.{◌≡◌, ◌<◌, length, set, get_or, drop};
ghost use Rattle.meaning.specs.Scan.{blank};
ghost use Rattle.il_block.specs.Called.{called_with};
ghost use Rattle.il_scan.specs.Advance.{StopKnown};
ghost use Rattle.il_scan.specs.Run.{advanced, ended_at, fresh_registers, resumed};
ghost use Rattle.il_scan.specs.Row.{q_word, RowScan};

use il_instruction::Registers;
use meaning::Block;

// The blocks' Q as a word.
fn q_word(blocks: &[Block]) -> u64
    ensures { result ≡ q_word 0 blocks.now 0 }
{
    let mut qs = 0;
    for (i, b) in blocks.iter().enumerate() {
        qs = il_block::with_q(qs, i, *b);
    }
    qs
}

// With what a scan begins.
fn first_registers(qs: u64) -> Registers
    ensures { result ≡ fresh_registers qs }
{
    Registers {
        result: false,
        deferred: false,
        time: 0,
        input: false,
        pt: 0,
        qs,
        outputs: 0,
    }
}

// CAL: the block is updated where it lies, and its Q is answered.
fn call(blocks: &mut [Block], n: usize, input: bool, pt: u32, step: u32) -> bool
    requires { n < length blocks.old }
    ensures { (blocks.new ≡ set blocks.old n
        (called_with step input pt (get_or blocks.old n blank)))
        × (result ≡ (called_with step input pt (get_or blocks.old n blank)).q) }
{
    let b = il_block::cal(blocks[n], input, pt, step);
    blocks[n] = b;
    b.q
}

// One scan over the lent flip-flop bytes and blocks.
pub fn scan(words: &[u32], step: u32, x: u64, flip_flops: &mut [u8], blocks: &mut [Block]) -> u64
    ensures { RowScan step x words.now flip_flops.old blocks.old
        flip_flops.new blocks.new result }
{
    let mut s = first_registers(q_word(blocks));
    for w in words {
        // decoded once, so that the compiler makes one jump of all that is asked of it
        let i = word_decode::decode(*w);
        match il_called::instruction_due(blocks.len(), i) {
            Some(k) => {
                let q = call(blocks, k, s.input, s.pt, step);
                s.qs = il_values::with_bit(s.qs, k, q);
            }
            None => s = il_instruction::run_instruction(flip_flops, x, i, s),
        }
    }
    s.outputs
}

// For a caller who runs a scan with blocks of its own, CAL by CAL: `begin` with the blocks' Q, `advance` to the next
// CAL, call that block, `resume` with its Q, and `advance` again, until no CAL is due; then `outputs`. `scan` above
// does all that over one lent row, without these.

// Where such a scan stands: the next word; whether a CAL is due, of which block, from 0, with which IN and PT.
#[derive(Clone, Copy)]
pub struct Stop {
    pub at: usize,
    pub due: bool,
    pub block: usize,
    pub input: bool,
    pub pt: u32,
    pub running: Registers,
}

// With no CAL due.
fn ended(at: usize, s: Registers) -> Stop
    ensures { result ≡ ended_at at s }
{
    Stop {
        at,
        due: false,
        block: 0,
        input: s.input,
        pt: s.pt,
        running: s,
    }
}

// Runs the words from where p stands up to and including the next CAL of one of so many blocks, or to the end.
pub fn advance(words: &[u32], flip_flops: &mut [u8], x: u64, count: usize, p: Stop) -> Stop
    ensures { (result ≡ (advanced x count (drop p.at words.now) p.at p.running
        flip_flops.old).stop) × (flip_flops.new ≡ (advanced x count
        (drop p.at words.now) p.at p.running flip_flops.old).flip_flops)
        × StopKnown count (length words.now) p.at result }
{
    let mut s = p.running;
    // over places and not words: it goes on from one, and may answer the next
    for i in p.at..words.len() {
        let w = words[i];
        match il_called::word_due(count, w) {
            Some(k) => {
                return Stop {
                    at: i + 1,
                    due: true,
                    block: k,
                    input: s.input,
                    pt: s.pt,
                    running: s,
                };
            }
            None => s = il_instruction::run_word(flip_flops, x, w, s),
        }
    }
    ended(words.len().max(p.at), s)
}

// After CAL of the block that was due, whose Q is now q.
pub fn resume(p: Stop, q: bool) -> Stop
    ensures { result ≡ resumed p q }
{
    let mut s = p.running;
    s.qs = il_values::with_bit(p.running.qs, p.block, q);
    ended(p.at, s)
}

// Where a scan begins.
pub fn begin(qs: u64) -> Stop
    ensures { (result.at ≡ 0) × (result.running ≡ fresh_registers qs) }
{
    ended(0, first_registers(qs))
}

// The output word of a scan that has ended.
pub fn outputs(t: Stop) -> u64
    ensures { result ≡ t.running.outputs }
{
    t.running.outputs
}
