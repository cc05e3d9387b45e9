// The run of a program, given as instruction words, over a lent controller: flip-flop bytes and one row of timer
// blocks.
#![tactic(auto)]

ghost use Rattle.std.specs.Prelude.{◌≡◌, Bool, length};
ghost use Rattle.il_times.specs.Sizes.{rungs_in, no_rungs};
ghost use Rattle.il_scan.specs.Scans.{controller_of, OneScan};
ghost use Rattle.il_run.specs.Row.{in_time, RowRun};
ghost use Rattle.il_run.specs.Runs.{ProgramRan, ProgramScanned};

use meaning::{Block, Refusal};

// "block with ET above its rung's time": the words tell the times of the rungs.
pub fn in_time(blocks: &[Block], words: &[u32]) -> bool
    ensures { result ≡ in_time 0 blocks.now (rungs_in words.now no_rungs).times Bool.true }
{
    let times = il_times::times_of(words);
    for (i, b) in blocks.iter().enumerate() {
        if !il_block::in_its_time(&times, i, *b) {
            return false;
        }
    }
    true
}

// What a scan over a row of 32 leaves by value: the blocks and the output word.
#[derive(Clone, Copy)]
pub struct ArrayScanned {
    pub blocks: [Block; 32],
    pub outputs: u64,
}

// One scan, with the blocks by value.
pub fn scan_array(
    words: &[u32],
    step: u32,
    x: u64,
    flip_flops: &mut [u8],
    row: [Block; 32],
) -> ArrayScanned
    ensures { OneScan step x words.now (controller_of flip_flops.old row)
        (controller_of flip_flops.new result.blocks) result.outputs }
{
    let mut blocks = row;
    let outputs = il_scan::scan(words, step, x, flip_flops, &mut blocks);
    ArrayScanned { blocks, outputs }
}

// One scan for each input word; the output words go to the results, from the front.
pub fn run(
    words: &[u32],
    step: u32,
    inputs: &[u64],
    results: &mut [u64],
    flip_flops: &mut [u8],
    blocks: &mut [Block],
) -> usize
    ensures { RowRun step words.now inputs.now flip_flops.old
        blocks.old results.old flip_flops.new blocks.new
        results.new × (result ≡ length inputs.now) }
{
    for (n, x) in inputs.iter().enumerate() {
        let w = il_scan::scan(words, step, *x, flip_flops, blocks);
        slices::put(results, n, w);
    }
    inputs.len()
}

// One scan for each input word; the output words are the results.
pub fn run_program(
    step: u32,
    words: &[u32],
    flip_flops: &mut [u8],
    blocks: &mut [Block],
    inputs: &[u64],
    results: &mut [u64],
) -> Result<usize, Refusal>
    ensures { ProgramRan step words.now inputs.now
        (controller_of flip_flops.old blocks.old) results.old result
        (controller_of flip_flops.new blocks.new) results.new }
{
    let timely = in_time(blocks, words);
    il_check::judge(
        step,
        words,
        flip_flops,
        blocks.len(),
        timely,
        inputs.len(),
        results.len(),
    )?;
    Ok(run(words, step, inputs, results, flip_flops, blocks))
}

// One scan.
pub fn scan_program(
    step: u32,
    words: &[u32],
    flip_flops: &mut [u8],
    blocks: &mut [Block],
    x: u64,
) -> Result<u64, Refusal>
    ensures { ProgramScanned step words.now x
        (controller_of flip_flops.old blocks.old) result
        (controller_of flip_flops.new blocks.new) }
{
    let timely = in_time(blocks, words);
    il_check::judge(step, words, flip_flops, blocks.len(), timely, 1, 1)?;
    Ok(il_scan::scan(words, step, x, flip_flops, blocks))
}
