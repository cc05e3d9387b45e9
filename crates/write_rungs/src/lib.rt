// The rungs of a chart's moves and flip-flops and the end of a timer's, and with them the four parts of a chart's text:
// document 01, "The written text", 1 to 4.
#![tactic(auto)]

ghost use Rattle.std.specs.Prelude.{◌≡◌, ◌+◌, ◌-◌, ◌<◌};
ghost use mathlib.Core.List.{flat_map};
ghost use Rattle.meaning.specs.Tables.{Tables, state_count, move_count, preset, timer_count};
ghost use Rattle.meaning.specs.Hierarchy.{depth};
ghost use Rattle.meaning.specs.Layout.{flip_flop_count};
ghost use Rattle.meaning.specs.Programs.{rung_of, timer_rung_of};
ghost use Rattle.meaning.specs.Written.{initial_stores, move_rungs, copy_rungs, timer_rung, output_rungs};
ghost use Rattle.write_lines.specs.Fit.{PutIfRoom};
ghost use Rattle.write_bits.specs.Sent.{lines, LaidTables};
ghost use Rattle.write_rungs.specs.Rungs.{stores_of, is_nil, call_of};
ghost use Rattle.meaning.specs.Rules.{Rules};
ghost use Rattle.write_bodies.specs.Pairs.{Reaches};
ghost use Rattle.write_rungs.specs.Sections.{timers_to, moves_to, copies_to, outputs_to};

use layout::Layout;
use tables::{Chart, ChartTables};
use write_bits::Spot;
use write_bodies::Cursor;
use write_operators::Way;

// "the target, if a super-state, and those reached below it by initial sub-states are set to initial". A leaf's initial
// sub-state is 0, and no other's is.
fn put_initials(
    out: &mut [u8],
    at: usize,
    t: &ChartTables<'_>,
    layout: &Layout,
    target: usize,
) -> usize
    ensures { (c : Tables) → c.states ≡ t.now.states.now → LaidTables c layout.now
        → target < state_count c
        → PutIfRoom out.old at (lines (initial_stores c (8 - depth c target) target))
        out.new result }
{
    let mut spot = Spot {
        at,
        way: Way::Store,
    };
    let mut s = target;
    for _level in t.depth(target)..Chart::DEPTH {
        let sub = t.initial(s);
        if sub == 0 {
            break;
        }
        spot = write_bits::put_group(out, spot, layout, s, sub);
        s = sub;
    }
    spot.at
}

// "S or R on the working copy of each flip-flop the move sets, groups from the root down": what a move with this
// target and mark sets.
fn put_stores(
    out: &mut [u8],
    at: usize,
    t: &ChartTables<'_>,
    layout: &Layout,
    target: usize,
    mark: usize,
) -> usize
    ensures { (c : Tables) → c.states ≡ t.now.states.now → LaidTables c layout.now
        → target < state_count c
        → PutIfRoom out.old at (lines (stores_of c target mark)) out.new result }
{
    let spot = Spot {
        at,
        way: Way::Store,
    };
    let p = write_bits::put_state(out, spot, t, layout, target);
    if mark == 0 {
        put_initials(out, p.at, t, layout, target)
    } else {
        p.at
    }
}

// Whether such a move sets no flip-flop: its stores are measured over no byte.
fn sets_none(t: &ChartTables<'_>, layout: &Layout, target: usize, mark: usize) -> bool
    ensures { (c : Tables) → c.states ≡ t.now.states.now → LaidTables c layout.now
        → target < state_count c → result ≡ is_nil (stores_of c target mark) }
{
    put_stores(&mut [], 0, t, layout, target, mark) == 0
}

// 2. "source, then literals in order .., then S or R". "A rung that would set no flip-flop is left out."
pub fn put_move(out: &mut [u8], at: usize, t: &ChartTables<'_>, layout: &Layout, i: usize) -> usize
    ensures { (c : Tables) → c.states ≡ t.now.states.now → LaidTables c layout.now
        → c.moves ≡ t.now.moves.now → i < move_count c
        → PutIfRoom out.old at (lines (flat_map rung_of (move_rungs c i))) out.new result }
{
    let target = t.target(i);
    let mark = t.mark(i);
    if sets_none(t, layout, target, mark) {
        return at;
    }
    let first = Spot {
        at,
        way: Way::First,
    };
    let p = write_bits::put_state(out, first, t, layout, t.source(i));
    let q = write_bits::put_literals(out, p, t, i);
    let next = write_bits::put_true(out, q);
    put_stores(out, next, t, layout, target, mark)
}

// 3. "LD working copy, ST flip-flop", of flip-flop b of all. No chart has numbers that 16 bits do not hold.
pub fn put_copy(out: &mut [u8], at: usize, total: u32, b: u32) -> usize
    ensures { (c : Tables) → total ≡ flip_flop_count c → total + b < 65536
        → PutIfRoom out.old at (lines (flat_map rung_of (copy_rungs c b))) out.new result }
{
    let copy = u64::from(total) + u64::from(b);
    let p = write_lines::put_part(out, at, b"LD ");
    let q = write_spelling::put_mx(out, p, (copy % 65536) as u16);
    let next = write_lines::put_part(out, q, b"ST ");
    write_spelling::put_mx(out, next, (b % 65536) as u16)
}

// 1. "ST Tn.IN, LD T#..ms, ST Tn.PT, CAL Tn", after the body.
pub fn put_call(out: &mut [u8], at: usize, n: u16, time: u32) -> usize
    ensures { PutIfRoom out.old at (lines (call_of n time)) out.new result }
{
    let p = write_spelling::put_on_block(out, at, b"ST ", n, b".IN\n");
    let q = write_spelling::put_time(out, p, time);
    let next = write_spelling::put_on_block(out, q, b"ST ", n, b".PT\n");
    write_spelling::put_on_block(out, next, b"CAL ", n, b"\n")
}

// 1. "the OR of its pairs' states, ST Tn.IN, LD T#..ms, ST Tn.PT, CAL Tn". No chart has timers that 16 bits do not
// count.
fn put_timer(
    out: &mut [u8],
    cursor: Cursor,
    t: &ChartTables<'_>,
    layout: &Layout,
    n: usize,
    time: u32,
) -> Cursor
    ensures { (c : Tables) → c.states ≡ t.now.states.now → LaidTables c layout.now
        → c.timer_pairs ≡ t.now.timer_pairs.now
        → Reaches t.now.timer_pairs.now n cursor.row → n < 65536 → time ≡ preset c n
        → Reaches t.now.timer_pairs.now (n + 1) result.row
        × PutIfRoom out.old cursor.at (lines (timer_rung_of n (timer_rung c n))) out.new
        result.at }
{
    let body = write_bodies::put_pairs(out, cursor, t, layout, t.timer_pairs, n);
    Cursor {
        at: put_call(out, body.at, (n % 65536) as u16, time),
        ..body
    }
}

// "Timers, rising"
pub fn put_timers(out: &mut [u8], at: usize, t: &ChartTables<'_>, layout: &Layout) -> usize
    ensures { (c : Tables) → c.states ≡ t.now.states.now → LaidTables c layout.now
        → c.presets ≡ t.now.presets.now → c.timer_pairs ≡ t.now.timer_pairs.now
        → PutIfRoom out.old at (lines (timers_to c (timer_count c))) out.new result }
{
    let mut cursor = Cursor { at, row: 0 };
    for (i, time) in t.presets.iter().enumerate() {
        cursor = put_timer(out, cursor, t, layout, i + 1, *time);
    }
    cursor.at
}

// "Moves in order"
pub fn put_moves(out: &mut [u8], at: usize, t: &ChartTables<'_>, layout: &Layout) -> usize
    ensures { (c : Tables) → c.states ≡ t.now.states.now → LaidTables c layout.now
        → c.moves ≡ t.now.moves.now
        → PutIfRoom out.old at (lines (moves_to c (move_count c))) out.new result }
{
    let mut p = at;
    for i in 0..t.move_count() {
        p = put_move(out, p, t, layout, i);
    }
    p
}

// "Each flip-flop: LD working copy, ST flip-flop."
pub fn put_copies(out: &mut [u8], at: usize, total: u32) -> usize
    ensures { (c : Tables) → Rules c → total ≡ flip_flop_count c
        → PutIfRoom out.old at (lines (copies_to c (flip_flop_count c))) out.new result }
{
    let mut p = at;
    for b in 0..total {
        p = put_copy(out, p, total, b);
    }
    p
}

// 4. "the OR of its pairs' states, ST %QXo". No chart has outputs that 16 bits do not count.
fn put_output(
    out: &mut [u8],
    cursor: Cursor,
    t: &ChartTables<'_>,
    layout: &Layout,
    o: u32,
) -> Cursor
    ensures { (c : Tables) → c.states ≡ t.now.states.now → LaidTables c layout.now
        → c.output_pairs ≡ t.now.output_pairs.now → Reaches t.now.output_pairs.now o cursor.row
        → o < 65536 → Reaches t.now.output_pairs.now (o + 1) result.row
        × PutIfRoom out.old cursor.at (lines (flat_map rung_of (output_rungs c o))) out.new
        result.at }
{
    let body = write_bodies::put_pairs(out, cursor, t, layout, t.output_pairs, o as usize);
    let p = write_lines::put_part(out, body.at, b"ST ");
    Cursor {
        at: write_spelling::put_qx(out, p, (o % 65536) as u16),
        ..body
    }
}

// "Outputs, rising"
pub fn put_outputs(out: &mut [u8], at: usize, t: &ChartTables<'_>, layout: &Layout) -> usize
    ensures { (c : Tables) → c.states ≡ t.now.states.now → LaidTables c layout.now
        → c.output_pairs ≡ t.now.output_pairs.now → c.outputs ≡ t.now.chart.outputs
        → PutIfRoom out.old at (lines (outputs_to c t.now.chart.outputs)) out.new result }
{
    let mut cursor = Cursor { at, row: 0 };
    for o in 1..=t.chart.outputs {
        cursor = put_output(out, cursor, t, layout, o);
    }
    cursor.at
}
