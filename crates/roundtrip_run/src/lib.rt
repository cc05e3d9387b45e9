// The words of a chart's program run from cleared memory, one scan for each input word. The tables have passed the
// check, and the words are theirs; on others all of this is harmless.
#![tactic(auto)]

ghost use Rattle.std.specs.Prelude.{◌≡◌, length, set};
ghost use Rattle.meaning.specs.Tables.{Tables};
ghost use Rattle.meaning.specs.Rules.{Rules};
ghost use Rattle.meaning.specs.Stands.{coded_leaf};
ghost use Rattle.layout.specs.Laid.{LaidOut};
ghost use Rattle.roundtrip_run.specs.AsRead.{chart_words, AsRead};
ghost use Rattle.roundtrip_run.specs.Going.{ProgramCleared};

use layout::Layout;
use meaning::Block;
use tables::{Chart, ChartTables};

// What is seen after a scan stands at place i of the results: the leaf is decoded from the flip-flops.
fn show(
    t: &ChartTables<'_>,
    layout: &Layout,
    flip_flops: &[u8],
    word: u64,
    i: usize,
    leaves: &mut [u16],
    outputs: &mut [u64],
)
    ensures { (outputs.new ≡ set outputs.old i word)
        × ((c : Tables) → c.states ≡ t.now.states.now → Rules c → LaidOut c layout.now
        → leaves.new ≡ set leaves.old i (coded_leaf c flip_flops.now)) }
{
    let leaf = roundtrip_leaf::laid_leaf(t, layout, flip_flops);
    chart_moving::remember(leaves, i, leaf);
    slices::put(outputs, i, word);
}

// One scan for each input word, from blocks that were never called.
fn run_scans(
    t: &ChartTables<'_>,
    layout: &Layout,
    words: &[u32],
    flip_flops: &mut [u8],
    inputs: &[u64],
    leaves: &mut [u16],
    outputs: &mut [u64],
)
    ensures { (c : Tables) → c.scan_step ≡ t.now.chart.step → c.states ≡ t.now.states.now
        → ProgramCleared c layout.now words.now flip_flops.old
        → length leaves.old ≡ length inputs.now → length outputs.old ≡ length inputs.now
        → AsRead c inputs.now leaves.new outputs.new }
{
    let blank = Block {
        input: false,
        pt: 0,
        et: 0,
        q: false,
        last: false,
    };
    let mut blocks = [blank; 32];
    for (i, x) in inputs.iter().enumerate() {
        let scanned = il_run::scan_array(words, t.chart.step, *x, flip_flops, blocks);
        blocks = scanned.blocks;
        show(t, layout, flip_flops, scanned.outputs, i, leaves, outputs);
    }
}

// The words of a chart's program run from cleared memory: "All zero is the start." It has 2 B flip-flops, 256 at most.
pub fn run_words(
    t: &ChartTables<'_>,
    words: &[u32],
    inputs: &[u64],
    leaves: &mut [u16],
    outputs: &mut [u64],
)
    ensures { (c : Tables) → c.scan_step ≡ t.now.chart.step → c.states ≡ t.now.states.now → Rules c
        → chart_words c ≡ words.now → length leaves.old ≡ length inputs.now
        → length outputs.old ≡ length inputs.now
        → AsRead c inputs.now leaves.new outputs.new }
{
    let layout = layout::lay_out(t);
    if Chart::FLIP_FLOPS < layout.total {
        return;
    }
    let used = 2 * (layout.total as usize);
    let mut flip_flops = [0u8; 256];
    run_scans(
        t,
        &layout,
        words,
        &mut flip_flops[..used],
        inputs,
        leaves,
        outputs,
    );
}
