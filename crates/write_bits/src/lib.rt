// The lines of code bits and literals, one after the other: tests, or stores on the working copies.
#![tactic(auto)]

ghost use Rattle.std.specs.Prelude.{◌≡◌, [], ◌∷◌, ◌+◌, ◌<◌, ◌≤◌, length};
ghost use Rattle.meaning.specs.Tables.{Tables, state_count};
ghost use Rattle.meaning.specs.Hierarchy.{depth};
ghost use Rattle.meaning.specs.Rules.{SubState, Rules};
ghost use Rattle.meaning.specs.Written.{bits_from, group_bits, path_bits, kind_test, literal_tests};
ghost use Rattle.meaning.specs.declared.Operand.{Operand};
ghost use Rattle.layout.specs.Laid.{LaidOut};
ghost use Rattle.write_lines.specs.Fit.{PutIfRoom};
ghost use Rattle.write_bits.specs.Sent.{lines, test, TestsPut, or_true, bit_at, LaidTables, Risen};
ghost use Rattle.write_operators.specs.Ways.{operator_bytes, next, base_of};

use layout::Layout;
use meaning::{Kind, Operand};
use tables::{Chart, ChartTables};
use write_operators::Way;

// A place in the text, and how the next test is written there.
#[derive(Clone, Copy)]
pub struct Spot {
    pub at: usize,
    pub way: Way,
}

// The operator of the next test or store, and how the one after it is written.
fn put_operator(out: &mut [u8], spot: Spot, wanted: bool) -> Spot
    ensures { PutIfRoom out.old spot.at (operator_bytes spot.way wanted) out.new result.at
        × (result.way ≡ next spot.way) }
{
    Spot {
        at: write_operators::put_asked(out, spot.at, spot.way, wanted),
        way: write_operators::next(spot.way),
    }
}

// One test or store of %MXn. No chart has numbers that 16 bits do not hold.
fn put_bit(out: &mut [u8], spot: Spot, wanted: bool, n: u64) -> Spot
    ensures { n < 65536 → TestsPut out.old spot (test wanted (Operand.Mx n) ∷ []) out.new
        result }
{
    let p = put_operator(out, spot, wanted);
    Spot {
        at: write_spelling::put_mx(out, p.at, (n % 65536) as u16),
        ..p
    }
}

fn put_input(out: &mut [u8], spot: Spot, wanted: bool, n: u16) -> Spot
    ensures { TestsPut out.old spot (test wanted (Operand.Ix n) ∷ []) out.new result }
{
    let p = put_operator(out, spot, wanted);
    Spot {
        at: write_spelling::put_ix(out, p.at, n),
        ..p
    }
}

fn put_expired(out: &mut [u8], spot: Spot, wanted: bool, n: u16) -> Spot
    ensures { TestsPut out.old spot (test wanted (Operand.TimerQ n) ∷ []) out.new result }
{
    let p = put_operator(out, spot, wanted);
    Spot {
        at: write_spelling::put_named(out, p.at, n, b".Q\n"),
        ..p
    }
}

// "low bit first": the bits of a code, on the flip-flops from first on, of those that start at base.
fn put_bits(out: &mut [u8], spot: Spot, base: u32, first: u16, width: u8, code: u16) -> Spot
    ensures { base + (first + width) ≤ 65536
        → TestsPut out.old spot (bits_from (bit_at base) first width code) out.new result }
{
    let mut p = spot;
    let mut k = code;
    for i in 0..width {
        let b = u64::from(base) + (u64::from(first) + u64::from(i));
        p = put_bit(out, p, k % 2 == 1, b);
        k /= 2;
    }
    p
}

// The group of a, at the code of its sub-state s.
pub fn put_group(out: &mut [u8], spot: Spot, layout: &Layout, a: usize, s: usize) -> Spot
    ensures { (c : Tables) → LaidOut c layout.now → Rules c → SubState c a s
        → TestsPut out.old spot
        (group_bits c (bit_at (base_of layout.now.total spot.way)) a s) out.new result }
{
    if Chart::STATES <= a || Chart::STATES <= s {
        return spot;
    }
    put_bits(
        out,
        spot,
        write_operators::base(spot.way, layout.total),
        layout.first[a],
        layout.width[a],
        layout.code[s],
    )
}

// The states from s up to the root, and how many of them are below it.
fn rise(t: &ChartTables<'_>, s: usize, path: &mut [usize; 10]) -> usize
    requires { length path.old ≡ 10 }
    ensures { (result ≤ 9) × ((c : Tables) → c.states ≡ t.now.states.now → Rules c
        → Risen c s path.new result) }
{
    let mut at = s;
    for k in 0..Chart::DEPTH + 1 {
        path[k] = at;
        if at == 0 {
            return k;
        }
        at = t.super_state(at);
    }
    Chart::DEPTH + 1
}

// "A state is the AND of its path's code bits, root down"; as stores, the groups above it set to lead to it.
pub fn put_state(out: &mut [u8], spot: Spot, t: &ChartTables<'_>, layout: &Layout, s: usize) -> Spot
    ensures { (c : Tables) → c.states ≡ t.now.states.now → LaidTables c layout.now
        → s < state_count c → TestsPut out.old spot
        (path_bits c (bit_at (base_of layout.now.total spot.way)) (depth c s) s) out.new result }
{
    let mut path = [0usize; 10];
    let deep = rise(t, s, &mut path);
    let mut p = spot;
    for k in (0..deep).rev() {
        p = put_group(out, p, layout, path[k + 1], path[k]);
    }
    p
}

// "with no bits and no literals LD TRUE"
pub fn put_true(out: &mut [u8], spot: Spot) -> usize
    ensures { PutIfRoom out.old spot.at (lines (or_true spot.way)) out.new result }
{
    match spot.way {
        Way::First => write_lines::put_part(out, spot.at, b"LD TRUE\n"),
        Way::More | Way::Store => spot.at,
    }
}

fn put_kind(out: &mut [u8], spot: Spot, wanted: bool, kind: Kind) -> Spot
    ensures { (c : Tables) → TestsPut out.old spot (kind_test c wanted kind) out.new result }
{
    match kind {
        Kind::Input(n) => put_input(out, spot, wanted, n),
        Kind::Timer(n) => put_expired(out, spot, wanted, n),
        Kind::Unused | Kind::Unknown => spot,
    }
}

// "literals in order (%IXi or Tn.Q)"
pub fn put_literals(out: &mut [u8], spot: Spot, t: &ChartTables<'_>, i: usize) -> Spot
    ensures { (c : Tables) → c.moves ≡ t.now.moves.now
        → TestsPut out.old spot (literal_tests c i) out.new result }
{
    let mut p = spot;
    for j in 0..8 {
        let v = t.literal(i, j);
        p = put_kind(out, p, tables::wanted(v), tables::kind(v));
    }
    p
}
