// The bodies over a chart's pairs: "the OR of its pairs' states".
#![tactic(auto)]

ghost use Rattle.std.specs.Prelude.{◌≡◌, ℕ, ◌+◌, ◌-◌, ◌<◌};
ghost use Rattle.meaning.specs.Tables.{Tables, state_count};
ghost use Rattle.meaning.specs.Programs.{chain_of, body_of};
ghost use Rattle.meaning.specs.Written.{state_tests, chain, pairs_body};
ghost use Rattle.write_lines.specs.Fit.{PutIfRoom};
ghost use Rattle.write_bits.specs.Sent.{lines, LaidTables};
ghost use Rattle.write_bodies.specs.Pairs.{Known, bracket_of, brackets, or_of, PairsRun, Pairs, Reaches};

use layout::Layout;
use tables::ChartTables;
use write_bits::Spot;
use write_operators::Way;

// A state as the first of a body or of a bracket.
fn put_chain(out: &mut [u8], at: usize, t: &ChartTables<'_>, layout: &Layout, s: usize) -> usize
    ensures { (c : Tables) → c.states ≡ t.now.states.now → LaidTables c layout.now
        → s < state_count c
        → PutIfRoom out.old at (lines (chain_of (chain (state_tests c s)))) out.new result }
{
    let first = Spot {
        at,
        way: Way::First,
    };
    let p = write_bits::put_state(out, first, t, layout, s);
    write_bits::put_true(out, p)
}

// "OR( on its own line, its lines, ) on its own line"
fn put_bracket(out: &mut [u8], at: usize, t: &ChartTables<'_>, layout: &Layout, s: usize) -> usize
    ensures { (c : Tables) → c.states ≡ t.now.states.now → LaidTables c layout.now
        → s < state_count c
        → PutIfRoom out.old at (lines (bracket_of (state_tests c s))) out.new result }
{
    let p = write_lines::put_part(out, at, b"OR(\n");
    let q = put_chain(out, p, t, layout, s);
    write_lines::put_part(out, q, b")\n")
}

// "Each further state of an OR": the states of the pairs from a row on up to another.
fn put_brackets(
    out: &mut [u8],
    at: usize,
    t: &ChartTables<'_>,
    layout: &Layout,
    pairs: &[u16],
    from: usize,
    to: usize,
) -> usize
    ensures { (c : Tables) → c.states ≡ t.now.states.now → LaidTables c layout.now
        → Known c pairs.now from to
        → PutIfRoom out.old at (lines (brackets c pairs.now from (to - from))) out.new result }
{
    let mut p = at;
    for i in from..to {
        p = put_bracket(out, p, t, layout, tables::pair_state(pairs, i));
    }
    p
}

// The OR of the states of the pairs from a row on up to another. "No states: LD FALSE."
fn put_or(
    out: &mut [u8],
    at: usize,
    t: &ChartTables<'_>,
    layout: &Layout,
    pairs: &[u16],
    from: usize,
    to: usize,
) -> usize
    ensures { (c : Tables) → c.states ≡ t.now.states.now → LaidTables c layout.now
        → Known c pairs.now from to
        → PutIfRoom out.old at (lines (or_of c pairs.now from (to - from))) out.new result }
{
    if to <= from {
        return write_lines::put_part(out, at, b"LD FALSE\n");
    }
    let p = put_chain(out, at, t, layout, tables::pair_state(pairs, from));
    put_brackets(out, p, t, layout, pairs, from + 1, to)
}

// The end of the rows for n that start at row. They stand together, because the pairs ascend.
fn run_end(pairs: &[u16], row: usize, n: usize) -> usize
    ensures { PairsRun pairs.now n row result }
{
    let rows = tables::pair_count(pairs);
    for i in row..rows {
        if tables::pair_number(pairs, i) != n {
            return i;
        }
    }
    rows.max(row)
}

// A place in the text, and the first row of a pair table that is not yet written.
#[derive(Clone, Copy)]
pub struct Cursor {
    pub at: usize,
    pub row: usize,
}

// "the OR of its pairs' states", of timer or output n, whose rows start at the cursor. No row is looked at for
// another n, but for the one after.
pub fn put_pairs(
    out: &mut [u8],
    cursor: Cursor,
    t: &ChartTables<'_>,
    layout: &Layout,
    pairs: &[u16],
    n: usize,
) -> Cursor
    ensures { (c : Tables) → c.states ≡ t.now.states.now → LaidTables c layout.now
        → (many : ℕ) → Pairs c many pairs.now → Reaches pairs.now n cursor.row
        → Reaches pairs.now (n + 1) result.row
        × PutIfRoom out.old cursor.at (lines (body_of (pairs_body c pairs.now n))) out.new
        result.at }
{
    let row = run_end(pairs, cursor.row, n);
    Cursor {
        at: put_or(out, cursor.at, t, layout, pairs, cursor.row, row),
        row,
    }
}
