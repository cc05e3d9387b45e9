// What the program prints beside the text: "a line a scan: scan from 1, leaf, outputs as a number", or "On refusal
// only "REFUSED,number,place"".
#![tactic(auto)]

ghost use Rattle.std.specs.Prelude.{◌≡◌, ◌++◌, length};
ghost use Rattle.format.specs.Printed.{refusal_line};
ghost use Rattle.write_lines.specs.Put.{BytesPut};
ghost use Rattle.print_lines.specs.Results.{end_of, scan_line, scan_lines_from};

use meaning::Refusal;

// How many bytes are printed, and why nothing else is.
#[derive(Clone, Copy)]
pub struct Printed {
    pub length: usize,
    pub verdict: Result<(), Refusal>,
}

const COMMA: u8 = b',';

const LF: u8 = b'\n';

// The rest of a line after its first part: two numbers.
fn put_end(out: &mut [u8], at: usize, a: u64, b: u64) -> usize
    ensures { BytesPut out.old at (end_of a b) out.new result }
{
    let at = write_lines::put(out, at, COMMA);
    let at = write_lines::put_decimal(out, at, a);
    let at = write_lines::put(out, at, COMMA);
    let at = write_lines::put_decimal(out, at, b);
    write_lines::put(out, at, LF)
}

// The line REFUSED,number,place.
pub fn put_refusal(out: &mut [u8], at: usize, r: Refusal) -> usize
    ensures { BytesPut out.old at (refusal_line r) out.new result }
{
    let at = write_lines::put_bytes(out, at, b"REFUSED");
    put_end(out, at, meaning::number(r) as u64, meaning::place(r) as u64)
}

fn put_scan(out: &mut [u8], at: usize, scan: usize, leaf: u16, outputs: u64) -> usize
    ensures { BytesPut out.old at (scan_line scan leaf outputs) out.new result }
{
    let at = write_lines::put_decimal(out, at, scan as u64);
    put_end(out, at, u64::from(leaf), outputs)
}

// "scan from 1"
fn put_scans(out: &mut [u8], at: usize, leaves: &[u16], outputs: &[u64]) -> usize
    ensures { length outputs.now ≡ length leaves.now
        → BytesPut out.old at (scan_lines_from 1 leaves.now outputs.now)
        out.new result }
{
    let mut p = at;
    for i in 0..leaves.len().min(outputs.len()) {
        p = put_scan(out, p, i + 1, leaves[i], outputs[i]);
    }
    p
}

// The text, then the lines of its run.
pub fn put_run(out: &mut [u8], text: &[u8], leaves: &[u16], outputs: &[u64]) -> usize
    ensures { length outputs.now ≡ length leaves.now
        → BytesPut out.old 0 (text.now
        ++ scan_lines_from 1 leaves.now outputs.now) out.new result }
{
    let at = write_lines::put_bytes(out, 0, text);
    put_scans(out, at, leaves, outputs)
}
