// The product's calls for C: numbers, and slices as a pointer and a length. include/splicetuck.h declares them.
#![tactic(auto)]

ghost use Rattle.std.specs.Prelude.{Result};
ghost use Rattle.meaning.specs.Refusals.{Answer};
ghost use Rattle.meaning.specs.declared.Refusal.{Refusal};
ghost use Rattle.meaning.specs.Check.{verdict};
ghost use Rattle.tables.specs.Given.{tables_of};
ghost use Rattle.check_witness.specs.Shown.{Witnessed};
ghost use Rattle.check_witness.specs.declared.Witness.{Witness};
ghost use Rattle.chart_calls.specs.Runs.{ChartRan};
ghost use Rattle.chart_calls.specs.Steps.{ChartStepped};
ghost use Rattle.chart_calls.specs.declared.StepSeen.{StepSeen};
ghost use Rattle.write_text.specs.Texts.{ChartWritten};
ghost use Rattle.write_words.specs.Answers.{WordsWritten};
ghost use Rattle.il_sizes.specs.Told.{SizesTold};
ghost use Rattle.il_sizes.specs.declared.Sizes.{Sizes};
ghost use Rattle.read_text.specs.Reads.{TextRead};
ghost use Rattle.il_scan.specs.Scans.{controller_of};
ghost use Rattle.il_run.specs.Runs.{ProgramRan, ProgramScanned};
ghost use Rattle.roundtrip_call.specs.WrittenRan.{WrittenRan};
ghost use Rattle.roundtrip_call.specs.declared.WrittenRun.{WrittenRun};
ghost use Rattle.c_answers.specs.Answers.{Told, CountTold, OutcomeTold, StepTold, SizesTell, ScanTold, WitnessTold};
ghost use Rattle.capi.specs.Lengths.{LengthTold};
ghost use Rattle.capi.specs.Files.{KindRead};

use c_answers::{CAnswer, CScan, CStep, CWitness, ControllerSizes};
use meaning::{Block, Refusal};
use tables::{Chart, ChartTables};

// The check of the tables: refusals 1 to 11.
#[unsafe(no_mangle)]
pub extern "C" fn splicetuck_check(
    step: u32,
    inputs: u32,
    outputs: u32,
    states: &[u16],
    moves: &[i16],
    presets: &[u32],
    timer_pairs: &[u16],
    output_pairs: &[u16],
) -> CAnswer
    ensures { Told (verdict (tables_of (record { step = step; inputs = inputs; outputs = outputs })
        states.now moves.now presets.now timer_pairs.now
        output_pairs.now)) 0 result }
{
    let t = ChartTables {
        chart: Chart {
            step,
            inputs,
            outputs,
        },
        states,
        moves,
        presets,
        timer_pairs,
        output_pairs,
    };
    check_tables::check(&t).into()
}

// The same with a witness for an OVERLAP: the earlier move, and a state and a setting in which both moves are enabled.
#[unsafe(no_mangle)]
pub extern "C" fn splicetuck_check_witness(
    step: u32,
    inputs: u32,
    outputs: u32,
    states: &[u16],
    moves: &[i16],
    presets: &[u32],
    timer_pairs: &[u16],
    output_pairs: &[u16],
) -> CWitness
    ensures { (w : Witness) × Witnessed
        (tables_of (record { step = step; inputs = inputs; outputs = outputs }) states.now
        moves.now presets.now timer_pairs.now output_pairs.now) w
        × WitnessTold w result }
{
    let t = ChartTables {
        chart: Chart {
            step,
            inputs,
            outputs,
        },
        states,
        moves,
        presets,
        timer_pairs,
        output_pairs,
    };
    check_witness::check(&t).into()
}

// The run of a chart over lent state: refusals 1 to 11, STATE, SCANS.
#[unsafe(no_mangle)]
pub extern "C" fn splicetuck_run_chart(
    step: u32,
    inputs: u32,
    outputs: u32,
    states: &[u16],
    moves: &[i16],
    presets: &[u32],
    timer_pairs: &[u16],
    output_pairs: &[u16],
    state: &mut [u32],
    words_in: &[u64],
    leaves: &mut [u16],
    words_out: &mut [u64],
) -> CAnswer
    ensures { (r : Answer) × ChartRan
        (tables_of (record { step = step; inputs = inputs; outputs = outputs }) states.now
        moves.now presets.now timer_pairs.now output_pairs.now)
        words_in.now state.old leaves.old words_out.old r
        state.new leaves.new words_out.new × CountTold r result }
{
    let t = ChartTables {
        chart: Chart {
            step,
            inputs,
            outputs,
        },
        states,
        moves,
        presets,
        timer_pairs,
        output_pairs,
    };
    chart_calls::run_chart(&t, state, words_in, leaves, words_out).into()
}

// One scan of a chart over lent state: refusals 1 to 11, STATE.
#[unsafe(no_mangle)]
pub extern "C" fn splicetuck_step_chart(
    step: u32,
    inputs: u32,
    outputs: u32,
    states: &[u16],
    moves: &[i16],
    presets: &[u32],
    timer_pairs: &[u16],
    output_pairs: &[u16],
    state: &mut [u32],
    word_in: u64,
) -> CStep
    ensures { (s : Result StepSeen Refusal) × ChartStepped
        (tables_of (record { step = step; inputs = inputs; outputs = outputs }) states.now
        moves.now presets.now timer_pairs.now output_pairs.now)
        word_in state.old s state.new × StepTold s result }
{
    let t = ChartTables {
        chart: Chart {
            step,
            inputs,
            outputs,
        },
        states,
        moves,
        presets,
        timer_pairs,
        output_pairs,
    };
    chart_calls::step_chart(&t, state, word_in).into()
}

// The text of a list of words: refusals TEXT, ROOM.
#[unsafe(no_mangle)]
pub extern "C" fn splicetuck_write_words(words: &[u32], text: &mut [u8]) -> CAnswer
    ensures { (w : Answer) × WordsWritten words.now text.old w text.new
        × CountTold w result }
{
    write_words::write_words(words, text).into()
}

// How many flip-flop bytes and blocks a controller for a list of words has: refusal TEXT.
#[unsafe(no_mangle)]
pub extern "C" fn splicetuck_sizes_of(words: &[u32]) -> ControllerSizes
    ensures { (s : Result Sizes Refusal) × SizesTold words.now s × SizesTell s result }
{
    il_sizes::sizes_of(words).into()
}

// The text of a chart: refusals 1 to 11, ROOM.
#[unsafe(no_mangle)]
pub extern "C" fn splicetuck_write(
    step: u32,
    inputs: u32,
    outputs: u32,
    states: &[u16],
    moves: &[i16],
    presets: &[u32],
    timer_pairs: &[u16],
    output_pairs: &[u16],
    text: &mut [u8],
) -> CAnswer
    ensures { (w : Answer) × ChartWritten
        (tables_of (record { step = step; inputs = inputs; outputs = outputs }) states.now
        moves.now presets.now timer_pairs.now output_pairs.now)
        text.old w text.new × CountTold w result }
{
    let t = ChartTables {
        chart: Chart {
            step,
            inputs,
            outputs,
        },
        states,
        moves,
        presets,
        timer_pairs,
        output_pairs,
    };
    write_text::write(&t, text).into()
}

// How many numbers a chart state has: refusals 1 to 11.
#[unsafe(no_mangle)]
pub extern "C" fn splicetuck_state_length(
    step: u32,
    inputs: u32,
    outputs: u32,
    states: &[u16],
    moves: &[i16],
    presets: &[u32],
    timer_pairs: &[u16],
    output_pairs: &[u16],
) -> CAnswer
    ensures { LengthTold (tables_of (record { step = step; inputs = inputs; outputs = outputs })
        states.now moves.now presets.now timer_pairs.now
        output_pairs.now) result }
{
    let t = ChartTables {
        chart: Chart {
            step,
            inputs,
            outputs,
        },
        states,
        moves,
        presets,
        timer_pairs,
        output_pairs,
    };
    let verdict = check_tables::check(&t);
    match verdict {
        Ok(()) => Ok::<usize, Refusal>(chart_state_read::state_length(&t)).into(),
        Err(r) => r.into(),
    }
}

// The words of a text: refusals TEXT, ROOM.
#[unsafe(no_mangle)]
pub extern "C" fn splicetuck_read(text: &[u8], words: &mut [u32]) -> CAnswer
    ensures { (r : Answer) × TextRead text.now words.old r words.new
        × CountTold r result }
{
    read_text::read(text, words).into()
}

// The numbers of one of the seven files, by its place in the order of the program section: SIZE for a kind above 6,
// then FIELD, ROOM.
#[unsafe(no_mangle)]
pub extern "C" fn splicetuck_read_records(kind: u32, bytes: &[u8], out: &mut [u64]) -> CAnswer
    ensures { KindRead kind bytes.now out.old result out.new }
{
    if !c_answers::is_file(kind) {
        return Refusal::Size.into();
    }
    csv_file::read_records(c_answers::file_of(kind), bytes, out).into()
}

// The run of a program over a lent controller: refusals SIZE, TEXT, STATE, SCANS.
#[unsafe(no_mangle)]
pub extern "C" fn splicetuck_run_program(
    step: u32,
    words: &[u32],
    flip_flops: &mut [u8],
    blocks: &mut [Block],
    words_in: &[u64],
    words_out: &mut [u64],
) -> CAnswer
    ensures { (r : Answer) × ProgramRan step words.now words_in.now
        (controller_of flip_flops.old blocks.old) words_out.old r
        (controller_of flip_flops.new blocks.new) words_out.new × CountTold r result }
{
    il_run::run_program(step, words, flip_flops, blocks, words_in, words_out).into()
}

// One scan of a program over a lent controller: refusals SIZE, TEXT, STATE.
#[unsafe(no_mangle)]
pub extern "C" fn splicetuck_scan_program(
    step: u32,
    words: &[u32],
    flip_flops: &mut [u8],
    blocks: &mut [Block],
    word_in: u64,
) -> CScan
    ensures { (r : Answer) × ProgramScanned step words.now word_in
        (controller_of flip_flops.old blocks.old) r
        (controller_of flip_flops.new blocks.new) × ScanTold r result }
{
    il_run::scan_program(step, words, flip_flops, blocks, word_in).into()
}

// The text of a chart written, read back and run from cleared memory: refusals 1 to 11, SCANS, ROOM.
#[unsafe(no_mangle)]
pub extern "C" fn splicetuck_run_written(
    step: u32,
    inputs: u32,
    outputs: u32,
    states: &[u16],
    moves: &[i16],
    presets: &[u32],
    timer_pairs: &[u16],
    output_pairs: &[u16],
    text: &mut [u8],
    words: &mut [u32],
    words_in: &[u64],
    leaves: &mut [u16],
    words_out: &mut [u64],
) -> CAnswer
    ensures { (o : Result WrittenRun Refusal) × WrittenRan
        (tables_of (record { step = step; inputs = inputs; outputs = outputs }) states.now
        moves.now presets.now timer_pairs.now output_pairs.now)
        words_in.now text.old words.old leaves.old
        words_out.old o text.new words.new leaves.new
        words_out.new × OutcomeTold o result }
{
    let t = ChartTables {
        chart: Chart {
            step,
            inputs,
            outputs,
        },
        states,
        moves,
        presets,
        timer_pairs,
        output_pairs,
    };
    roundtrip_call::run_written(&t, text, words, words_in, leaves, words_out).into()
}
