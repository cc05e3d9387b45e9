// What the program prints with --needs: a table of the moves with what each needs on and off, for an OVERLAP the pair
// and a setting, and the verdict.
#![tactic(auto)]

ghost use Rattle.std.specs.Prelude.{◌≡◌, ◌≤◌, true, [], ◌∷◌, ◌++◌, Err};
ghost use Rattle.meaning.specs.Literals.{input_on};
ghost use Rattle.meaning.specs.Needs as N;
ghost use Rattle.meaning.specs.Check.{literal_passes, verdict};
ghost use Rattle.format.specs.Text.{decimal};
ghost use Rattle.format.specs.NeedsTable.{names_of, things_text, upward, needs_line, needs_table, needs_page};
ghost use Rattle.tables.specs.Given.{given};
ghost use Rattle.check_needs.specs.Words.{InWords};
ghost use Rattle.check_literals.specs.Places.{LiteralsPass};
ghost use Rattle.check_witness.specs.Shown.{Witnessed};
ghost use Rattle.write_lines.specs.Put.{BytesPut};
ghost use Rattle.print_needs.specs.Names.{NamesPut, gap};
ghost use Rattle.print_needs.specs.Lines.{cell_of, sets_of, way_of, pair_of, overlap_of};
ghost use Rattle.print_needs.specs.Page.{NeedsPrintedTo};

use check_literals::LiteralCounts;
use check_needs::ThingWords;
use check_witness::Witness;
use meaning::Refusal;
use print_lines::Printed;
use tables::ChartTables;

// ---- a set by its names

// Where the next name goes, and whether one was written before it.
#[derive(Clone, Copy)]
pub struct NameCursor {
    pub at: usize,
    pub some: bool,
}

// "one space between two"
fn put_gap(out: &mut [u8], p: NameCursor) -> usize
    ensures { BytesPut out.old p.at (gap p.some) out.new result }
{
    if p.some {
        return write_lines::put(out, p.at, b' ');
    }
    p.at
}

// The name of a thing: its number between a head and a tail.
fn put_name(out: &mut [u8], p: NameCursor, head: &[u8], n: u16, tail: &[u8]) -> NameCursor
    ensures { NamesPut out.old p ((head.now ++ (decimal n ++ tail.now)) ∷ []) out.new result }
{
    let q = put_gap(out, p);
    let s = write_lines::put_bytes(out, q, head);
    let t = write_lines::put_decimal(out, s, u64::from(n));
    let at = write_lines::put_bytes(out, t, tail);
    NameCursor { at, some: true }
}

// The names of the numbers that a word has, up to the largest that there may be.
fn put_names(
    out: &mut [u8],
    at: NameCursor,
    word: u64,
    most: u16,
    head: &[u8],
    tail: &[u8],
) -> NameCursor
    requires { most ≤ 64 }
    ensures { NamesPut out.old at
        (names_of (λ n. head.now ++ (decimal n ++ tail.now)) (input_on word) most) out.new result }
{
    let mut p = at;
    for n in 0..most {
        if (word >> n) % 2 == 1 {
            p = put_name(out, p, head, n + 1, tail);
        }
    }
    p
}

// Inputs, then timers; "-" for none.
fn put_things(out: &mut [u8], at: usize, s: ThingWords) -> usize
    ensures { (S : N.Things) → InWords s S
        → BytesPut out.old at (things_text S) out.new result }
{
    let none = NameCursor { at, some: false };
    let p = put_names(out, none, s.inputs, 64, b"%IX", b"");
    let q = put_names(out, p, s.timers, 32, b"T", b".Q");
    if q.some {
        return q.at;
    }
    write_lines::put(out, q.at, b'-')
}

// ---- the lines

// A number, and the comma after it.
fn put_cell(out: &mut [u8], at: usize, n: usize) -> usize
    ensures { BytesPut out.old at (cell_of n) out.new result }
{
    let p = write_lines::put_decimal(out, at, n as u64);
    write_lines::put(out, p, b',')
}

// The last two fields of a line: what is needed on, and what is needed off.
fn put_sets(out: &mut [u8], at: usize, on: ThingWords, off: ThingWords) -> usize
    ensures { (A B : N.Things) → InWords on A → InWords off B
        → BytesPut out.old at (sets_of A B) out.new result }
{
    let p = put_things(out, at, on);
    let q = write_lines::put(out, p, b',');
    let s = put_things(out, q, off);
    write_lines::put(out, s, b'\n')
}

// A state and those above it, up to the root.
fn put_upward(out: &mut [u8], at: usize, t: &ChartTables<'_>, s: usize) -> usize
    ensures { BytesPut out.old at (upward (given t.now) s) out.new result }
{
    let mut p = write_lines::put_decimal(out, at, s as u64);
    let mut above = s;
    for _k in 0..t.depth(s) {
        above = t.super_state(above);
        p = write_lines::put(out, p, b' ');
        p = write_lines::put_decimal(out, p, above as u64);
    }
    p
}

// The number of move i, its source and those above it, its target.
fn put_way(out: &mut [u8], at: usize, t: &ChartTables<'_>, i: usize) -> usize
    ensures { BytesPut out.old at (way_of (given t.now) i) out.new result }
{
    let p = put_cell(out, at, i);
    let q = put_upward(out, p, t, t.source(i));
    let s = write_lines::put(out, q, b',');
    put_cell(out, s, t.target(i))
}

// The first field of the line of an OVERLAP.
fn put_pair(out: &mut [u8], at: usize, earlier: usize, later: usize) -> usize
    ensures { BytesPut out.old at (pair_of earlier later) out.new result }
{
    let p = write_lines::put_bytes(out, at, b"OVERLAP ");
    let q = write_lines::put_decimal(out, p, earlier as u64);
    let s = write_lines::put(out, q, b' ');
    put_cell(out, s, later)
}

// Of the witness for an OVERLAP: two moves that overlap, the earlier first; a state in which both are enabled; what
// must be on for that, and off.
fn put_overlap(out: &mut [u8], at: usize, later: usize, w: &Witness) -> usize
    ensures { (A B : N.Things) → InWords w.now.on A → InWords w.now.off B
        → BytesPut out.old at (overlap_of w.now.earlier later w.now.state A B) out.new result }
{
    let p = put_pair(out, at, w.earlier, later);
    let q = put_cell(out, p, w.state);
    let s = write_lines::put_bytes(out, q, b"-,");
    put_sets(out, s, w.on, w.off)
}

// The line of move i. Of a move that breaks a rule of literals it would be the first fields alone, but the table is of
// charts that have none.
fn put_move(out: &mut [u8], at: usize, t: &ChartTables<'_>, i: usize) -> usize
    ensures { literal_passes (given t.now) i ≡ true
        → BytesPut out.old at (needs_line (given t.now) i) out.new result }
{
    let p = put_way(out, at, t, i);
    match check_literals::needs_of(t, LiteralCounts::of(t), i) {
        Some(needs) => put_sets(out, p, needs.on, needs.off),
        None => p,
    }
}

// A line a move, below a line of the fields' names.
fn put_table(out: &mut [u8], at: usize, t: &ChartTables<'_>) -> usize
    ensures { LiteralsPass (given t.now)
        → BytesPut out.old at (needs_table (given t.now)) out.new result }
{
    let mut p = write_lines::put_bytes(
        out,
        at,
        b"move,source and above,target,needs on,needs off\n",
    );
    for i in 0..t.move_count() {
        p = put_move(out, p, t, i);
    }
    p
}

// ---- the page

// The page of a refusal: from IDLE TIMER to FLIP-FLOPS what the moves need is known.
fn put_refused(out: &mut [u8], t: &ChartTables<'_>, w: &Witness, r: Refusal) -> usize
    ensures { Witnessed (given t.now) w.now → verdict (given t.now) ≡ Err r
        → BytesPut out.old 0 (needs_page (given t.now) (Err r)) out.new result }
{
    match r {
        Refusal::IdleTimer(_) | Refusal::FlipFlops => {
            let p = put_table(out, 0, t);
            print_lines::put_refusal(out, p, r)
        }
        Refusal::Overlap(later) => {
            let p = put_table(out, 0, t);
            let q = put_overlap(out, p, later, w);
            print_lines::put_refusal(out, q, r)
        }
        _ => print_lines::put_refusal(out, 0, r),
    }
}

// The last line is the verdict.
fn put_page(out: &mut [u8], t: &ChartTables<'_>, w: &Witness) -> usize
    ensures { Witnessed (given t.now) w.now → verdict (given t.now) ≡ w.now.verdict
        → BytesPut out.old 0 (needs_page (given t.now) w.now.verdict) out.new result }
{
    match w.verdict {
        Ok(()) => {
            let p = put_table(out, 0, t);
            write_lines::put_bytes(out, p, b"ACCEPTED\n")
        }
        Err(r) => put_refused(out, t, w, r),
    }
}

// What the moves need, whether the tables are accepted, and why they are not: for any tables at all.
pub fn print_needs(t: &ChartTables<'_>, out: &mut [u8]) -> Printed
    ensures { NeedsPrintedTo (given t.now) out.old result out.new }
{
    let w = check_witness::check(t);
    Printed {
        length: put_page(out, t, &w),
        verdict: w.verdict,
    }
}
