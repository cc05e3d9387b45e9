// A reader of tables from RFC 4180 records, byte after byte: a file of any length goes through a buffer of fixed size.
// FIELD (16): "record of wrong field count, or a field that isn't a decimal of its type (no +, -0 or leading zero)".
// That it tells what document 01 says of a file are theorems alone (specs/Files.antt).
#![tactic(auto)]

ghost use Rattle.std.specs.Prelude.{◌≡◌, ◌≤◌, length, set, IfSome};
ghost use Rattle.csv_cursor.specs.Passing.{count_up, passed};
ghost use Rattle.csv_records.specs.Automaton.{answer_of, FieldEnded, FedByte, Fed, Finished};
ghost use Rattle.csv_records.specs.Bare.{ready, FieldTaken, Went, WentOn};

use csv_bare::BareNumber;
use csv_cursor::{LF, Reader};
use csv_field::FieldPhase;
use meaning::Refusal;

// The number of a field that b ends, stored as far as there is room, and the reader after it. Counts stop at the
// largest.
fn store(r: Reader, b: u8, number: u64, out: &mut [u64]) -> Reader
    ensures state { result ≡ passed r b (count_up r.at) }
    ensures stored { out.new ≡ set out.old r.at number }
{
    slices::put(out, r.at, number);
    r.pass(b, r.at.saturating_add(1))
}

// A comma, LF or CR. LF after CR ends the record, whose last field CR has ended.
fn end_field(r: Reader, b: u8, out: &mut [u64]) -> Reader
    ensures { FieldEnded r b out.old result out.new }
{
    if b == LF && matches!(r.phase, FieldPhase::Return) {
        return r.pass(b, r.at);
    }
    match csv_value::decimal_of(r.phase) {
        Some(v) if csv_cursor::in_place(r.left, b) => store(r, b, v, out),
        _ => r.fail(),
    }
}

// The next byte of the file.
#[tactic(auto, unfolding(crate::specs::Automaton::feed_byte, crate::specs::Automaton::emits))]
fn feed_byte(r: Reader, b: u8, out: &mut [u64]) -> Reader
    ensures { FedByte r b out.old result out.new }
{
    if r.limit <= r.record_no {
        return r.fail();
    }
    if csv_cursor::is_end(b) {
        return end_field(r, b, out);
    }
    Reader {
        phase: csv_field::within(r.most, r.below, r.phase, b),
        ..r
    }
}

// Whether a field begins here in a record that may come.
fn is_ready(r: Reader) -> bool
    ensures { result ≡ ready r }
{
    r.record_no < r.limit && csv_value::is_begin(r.phase)
}

// A field that is a bare number, up to what ends it in its place.
#[tactic(auto, using(crate::specs::BareLaws::field_taken))]
fn bare_field(r: Reader, bytes: &[u8], from: usize) -> Option<BareNumber>
    ensures { IfSome result (λ u. FieldTaken r bytes.now from u) }
{
    if !is_ready(r) {
        return None;
    }
    let u = csv_bare::bare(r.most, r.below, bytes, from)?;
    let end = csv_bare::field_end(r.left, bytes, u.end)?;
    Some(BareNumber { end, ..u })
}

// A place among the bytes, and the reader there.
#[derive(Clone, Copy)]
struct Stand {
    next: usize,
    reader: Reader,
}

// Fields that are bare numbers, each taken whole, as far as one follows the other.
fn feed_bare(from: Stand, bytes: &[u8], out: &mut [u64]) -> Stand
    requires { from.next ≤ length bytes.now }
    ensures { Went from bytes.now out.old result out.new }
{
    let mut s = from.reader;
    let mut i = from.next;
    while let Some(u) = bare_field(s, bytes, i) {
        s = store(s, bytes[u.end], u.value, out);
        i = u.end + 1;
    }
    Stand { next: i, reader: s }
}

// Byte after byte, to where the next field begins.
fn feed_field(from: Stand, bytes: &[u8], out: &mut [u64]) -> Stand
    requires { from.next ≤ length bytes.now }
    ensures { WentOn from bytes.now out.old result out.new }
{
    let mut s = from.reader;
    for i in from.next..bytes.len() {
        s = feed_byte(s, bytes[i], out);
        if csv_value::is_begin(s.phase) {
            return Stand {
                next: i + 1,
                reader: s,
            };
        }
    }
    Stand {
        next: bytes.len(),
        reader: s,
    }
}

// The next piece of the file. Numbers go to out in order as far as it has room; the rest of it is kept.
pub fn feed(r: Reader, bytes: &[u8], out: &mut [u64]) -> Reader
    ensures { Fed r bytes.now out.old result out.new }
{
    let mut stand = Stand { next: 0, reader: r };
    // the place jumps from field to field, so this is no `for`
    while stand.next < bytes.len() {
        let t = feed_bare(stand, bytes, out);
        stand = feed_field(t, bytes, out);
    }
    stand.reader
}

#[tactic(auto, unfolding(crate::specs::Automaton::answer_of))]
fn told(r: Reader) -> Result<usize, Refusal>
    ensures { result ≡ answer_of r }
{
    if matches!(r.phase, FieldPhase::Bad) || r.record_no < r.least {
        return Err(Refusal::Field(r.record_no));
    }
    Ok(r.record_no)
}

// The end of the file ends the last record; nothing after the last LF is no record, and a CR there is no end.
#[tactic(auto, using(crate::specs::StepLaws::none_at_end), unfolding(crate::specs::Automaton::at_end))]
pub fn finish(r: Reader, out: &mut [u64]) -> Result<usize, Refusal>
    ensures { Finished r out.old result out.new }
{
    match r.phase {
        FieldPhase::Fresh => told(r),
        FieldPhase::Return => told(r.fail()),
        _ => told(feed_byte(r, LF, out)),
    }
}
