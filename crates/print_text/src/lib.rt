// What the program prints, from what the seven readers of records answered and stored.
#![tactic(auto)]

ghost use Rattle.std.specs.Prelude.{◌≡◌, ◌≤◌, length, Err};
ghost use Rattle.format.specs.Printed.{refusal_line};
ghost use Rattle.tables.specs.Given.{given};
ghost use Rattle.print_text.specs.declared.PageKind.TheVariants as P;
ghost use Rattle.print_text.specs.Lengths.{page_most};
ghost use Rattle.print_text.specs.Print.{PrintedTo, TablesPrinted, RowsPrinted, FilesPrinted};

use csv_tables::Answers;
use meaning::Refusal;
use print_lines::Printed;
use tables::ChartTables;

// What the program is asked to print: the text and its run, or the table of what the moves need.
#[derive(Clone, Copy)]
pub enum PageKind {
    Text,
    Needs,
}

// The numbers of the seven files, as the readers of records stored them: a row more than its limit of each table.
#[derive(Clone, Copy)]
pub struct Stored<'a> {
    pub frame: &'a [u64; 3],
    pub states: &'a [u64; 514],
    pub moves: &'a [u64; 5643],
    pub presets: &'a [u64; 33],
    pub timer_pairs: &'a [u64; 4098],
    pub output_pairs: &'a [u64; 4098],
    pub scans: &'a [u64],
}

// More bytes than are printed on either page (`page_room` in specs/Lengths.antt).
pub const PAGE_MOST: usize = 327680;

// "On refusal only "REFUSED,number,place"."
fn print_refusal(r: Refusal, out: &mut [u8]) -> Printed
    ensures { PrintedTo (Err r) (refusal_line r) out.old result out.new }
{
    Printed {
        length: print_lines::put_refusal(out, 0, r),
        verdict: Err(r),
    }
}

// The text, then a line a scan.
fn print_run(
    t: &ChartTables<'_>,
    text: &mut [u8],
    words: &mut [u32],
    scans: &[u64],
    leaves: &mut [u16],
    outputs: &mut [u64],
    out: &mut [u8],
) -> Printed
    requires text { length text.old ≡ 65536 }
    requires words { length words.old ≡ 65536 }
    requires leaves { length leaves.old ≡ length scans.now }
    requires outputs { length outputs.old ≡ length scans.now }
    ensures { TablesPrinted P.Text (given t.now) scans.now out.old result out.new }
{
    match roundtrip_call::run_written(t, text, words, scans, leaves, outputs) {
        Err(r) => print_refusal(r, out),
        Ok(run) => Printed {
            length: print_lines::put_run(out, &text[..run.text], leaves, outputs),
            verdict: Ok(()),
        },
    }
}

// "A text above 65,536 bytes is ROOM here."; "scans.csv has at most 4,096".
fn print_scans(t: &ChartTables<'_>, scans: &[u64], out: &mut [u8]) -> Printed
    requires { length scans.now ≤ 4096 }
    ensures { TablesPrinted P.Text (given t.now) scans.now out.old result out.new }
{
    let n = scans.len();
    let mut text = [0u8; 65536];
    let mut words = [0u32; 65536];
    let mut leaves = [0u16; 4096];
    let mut outputs = [0u64; 4096];
    print_run(
        t,
        &mut text,
        &mut words,
        scans,
        &mut leaves[..n],
        &mut outputs[..n],
        out,
    )
}

// Either page of the tables; the scans are for the text's run.
fn print_tables(page: PageKind, t: &ChartTables<'_>, scans: &[u64], out: &mut [u8]) -> Printed
    requires { length scans.now ≤ 4096 }
    ensures { TablesPrinted page (given t.now) scans.now out.old result out.new }
{
    match page {
        PageKind::Text => print_scans(t, scans, out),
        PageKind::Needs => print_needs::print_needs(t, out),
    }
}

// The tables in their types.
fn print_rows(page: PageKind, answers: Answers, stored: &Stored<'_>, out: &mut [u8]) -> Printed
    ensures { RowsPrinted page answers stored.now out.old result out.new }
{
    let Stored {
        frame,
        states,
        moves,
        presets,
        timer_pairs,
        output_pairs,
        scans,
    } = *stored;
    let mut state_numbers = [0u16; 514];
    csv_columns::narrow(states, &mut state_numbers);
    let mut move_numbers = [0i16; 5643];
    csv_columns::narrow(moves, &mut move_numbers);
    let mut preset_numbers = [0u32; 33];
    csv_columns::narrow(presets, &mut preset_numbers);
    let mut timer_numbers = [0u16; 4098];
    csv_columns::narrow(timer_pairs, &mut timer_numbers);
    let mut output_numbers = [0u16; 4098];
    csv_columns::narrow(output_pairs, &mut output_numbers);
    let n = csv_tables::count_rows(answers);
    let t = ChartTables {
        chart: csv_tables::chart_of(frame),
        states: &state_numbers[..n.states],
        moves: &move_numbers[..n.moves],
        presets: &preset_numbers[..n.presets],
        timer_pairs: &timer_numbers[..n.timer_pairs],
        output_pairs: &output_numbers[..n.output_pairs],
    };
    let kept = n.scans.min(scans.len());
    print_tables(page, &t, &scans[..kept], out)
}

// FIELD, then the page: the tables' refusals and ROOM, or the text and a line a scan; or what the moves need.
pub fn print(page: PageKind, answers: Answers, stored: &Stored<'_>, out: &mut [u8]) -> Printed
    ensures files { FilesPrinted page answers stored.now out.old result out.new }
    ensures room { result.length ≤ page_most }
{
    match csv_tables::fields_pass(answers) {
        Err(r) => print_refusal(r, out),
        Ok(()) => print_rows(page, answers, stored, out),
    }
}
