// A chart's text written, read back as words, and the words run from cleared memory: what is lent in the end comes
// from the bytes that were written, and from nothing else.
#![tactic(auto)]

ghost use Rattle.std.specs.Prelude.{◌≡◌, ◌≤◌, length};
ghost use Rattle.meaning.specs.Rules.{Rules};
ghost use Rattle.format.specs.Printed.{chart_text};
ghost use Rattle.tables.specs.Given.{given};
ghost use Rattle.roundtrip_call.specs.WrittenRan.{ReadAndRun, WrittenRan};

use meaning::Refusal;
use tables::ChartTables;

// The lengths of the text and of its words.
#[derive(Clone, Copy)]
pub struct WrittenRun {
    pub text: usize,
    pub words: usize,
}

// The words of a written text, from the front of the slice, and their run.
fn read_and_run(
    t: &ChartTables<'_>,
    text: &[u8],
    words: &mut [u32],
    inputs: &[u64],
    leaves: &mut [u16],
    outputs: &mut [u64],
) -> Result<WrittenRun, Refusal>
    ensures { Rules (given t.now) → chart_text (given t.now) ≡ text.now
        → length (chart_text (given t.now)) ≤ length words.old
        → length leaves.old ≡ length inputs.now → length outputs.old ≡ length inputs.now
        → ReadAndRun (given t.now) inputs.now words.old result words.new leaves.new outputs.new }
{
    let n = read_text::read(text, words)?;
    roundtrip_run::run_words(t, &words[..n], inputs, leaves, outputs);
    Ok(WrittenRun {
        text: text.len(),
        words: n,
    })
}

// A chart's text written, read back and run. The text is written into as much of its slice as the words' slice has
// room for: a text never has more words than bytes.
pub fn run_written(
    t: &ChartTables<'_>,
    text: &mut [u8],
    words: &mut [u32],
    inputs: &[u64],
    leaves: &mut [u16],
    outputs: &mut [u64],
) -> Result<WrittenRun, Refusal>
    ensures { WrittenRan (given t.now) inputs.now text.old words.old leaves.old outputs.old result text.new words.new
        leaves.new outputs.new }
{
    if leaves.len() != inputs.len() || outputs.len() != inputs.len() {
        // "Checks 1 to 11 come first".
        check_tables::check(t)?;
        return Err(Refusal::Scans);
    }
    let room = slices::shorter(text.len(), words.len());
    let n = write_text::write(t, &mut text[..room])?;
    read_and_run(t, &text[..n], words, inputs, leaves, outputs)
}
