// What stands where in a chart's tables, for any tables at all: past the end of a table everything is 0.
#![tactic(auto)]

ghost use Rattle.std.specs.Prelude.{◌≡◌, ◌+◌, ◌*◌, ◌<◌, get_or, replicate, nat_abs};
ghost use Rattle.meaning.specs.Tables.{state_count, move_count, timer_count, pair_count, super_state, initial};
ghost use Rattle.meaning.specs.Tables.{pair_number, pair_state, cell, source, target, mark, literal};
ghost use Rattle.meaning.specs.Hierarchy.{depth, sub_state, sub_states, is_leaf};
ghost use Rattle.meaning.specs.Literals.{kind_of, wanted};
ghost use Rattle.tables.specs.Given.{given};

use meaning::Kind;

// The frame of a chart: its scan step in ms, and how many inputs and outputs it has.
#[derive(Clone, Copy)]
pub struct Chart {
    pub step: u32,
    pub inputs: u32,
    pub outputs: u32,
}

// "The limits belong to the chart"
impl Chart {
    pub const STATES: usize = 256;

    pub const DEPTH: usize = 8;

    pub const MOVES: usize = 512;

    pub const INPUTS: u32 = 64;

    pub const OUTPUTS: u32 = 64;

    pub const TIMERS: usize = 32;

    pub const FLIP_FLOPS: u32 = 128;

    pub const PAIRS: usize = 2048;

    pub const STEP: u32 = 1000;

    pub const PRESET: u32 = 86400000;

    // A row of the moves: "eleven signed 16-bit numbers each".
    pub const MOVE_ROW: usize = 11;

    // The cleared state: "All zero is the start." A chart's state has a code for each super-state and a value for each
    // timer, so 256 and 32 numbers are enough for any; the caller lends the front, as long as the chart's state is.
    pub fn cleared() -> [u32; 288]
        ensures { result ≡ replicate 288 0 }
    {
        [0u32; 288]
    }
}

// A chart's tables as they are lent: its frame, and five tables, each flat, row after row.
#[derive(Clone, Copy)]
pub struct ChartTables<'a> {
    pub chart: Chart,
    pub states: &'a [u16],
    pub moves: &'a [i16],
    pub presets: &'a [u32],
    pub timer_pairs: &'a [u16],
    pub output_pairs: &'a [u16],
}

impl ChartTables<'_> {
    pub fn state_count(&self) -> usize
        ensures { result ≡ state_count (given self.now) }
    {
        self.states.len() / 2
    }

    pub fn move_count(&self) -> usize
        ensures { result ≡ move_count (given self.now) }
    {
        self.moves.len() / Chart::MOVE_ROW
    }

    pub fn timer_count(&self) -> usize
        ensures { result ≡ timer_count (given self.now) }
    {
        self.presets.len()
    }

    // The super-state of s.
    pub fn super_state(&self, s: usize) -> usize
        ensures { result ≡ super_state (given self.now) s }
    {
        number_of_pair(self.states, s, 0)
    }

    // The initial sub-state of s, 0 for a leaf.
    pub fn initial(&self, s: usize) -> usize
        ensures { result ≡ initial (given self.now) s }
    {
        number_of_pair(self.states, s, 1)
    }

    // "State 0 is the root .. and is nobody's sub-state"
    pub fn sub_state(&self, a: usize, s: usize) -> bool
        ensures { result ≡ sub_state (given self.now) a s }
    {
        s != 0 && s < self.state_count() && self.super_state(s) == a
    }

    // How many sub-states a has.
    fn sub_states(&self, a: usize) -> usize
        ensures { result ≡ sub_states (given self.now) a }
    {
        let mut n = 0;
        for s in 0..self.state_count() {
            if self.sub_state(a, s) {
                n += 1;
            }
        }
        n
    }

    // "A state without sub-states is a leaf"
    pub fn leaf(&self, s: usize) -> bool
        ensures { result ≡ is_leaf (given self.now) s }
    {
        self.sub_states(s) == 0
    }

    // How far s is below the root; what is deeper than the limit counts as one level deeper.
    pub fn depth(&self, s: usize) -> usize
        ensures { result ≡ depth (given self.now) s }
    {
        let mut t = s;
        for k in 0..Chart::DEPTH + 1 {
            if t == 0 {
                return k;
            }
            t = self.super_state(t);
        }
        Chart::DEPTH + 1
    }

    // Number j of move i, as it stands: "eleven signed 16-bit numbers each".
    pub fn cell(&self, i: usize, j: usize) -> i16
        ensures { result ≡ cell (given self.now) i j }
    {
        in_row::<i16, { Chart::MOVE_ROW }>(self.moves, i, j, 0)
    }

    // The source of move i.
    pub fn source(&self, i: usize) -> usize
        ensures { result ≡ source (given self.now) i }
    {
        self.size(i, 0)
    }

    // The target of move i.
    pub fn target(&self, i: usize) -> usize
        ensures { result ≡ target (given self.now) i }
    {
        self.size(i, 1)
    }

    // The mark of move i: 0 plain, 1 history.
    pub fn mark(&self, i: usize) -> usize
        ensures { result ≡ mark (given self.now) i }
    {
        self.size(i, 2)
    }

    // Number j of move i without its sign.
    fn size(&self, i: usize, j: usize) -> usize
        ensures { result ≡ nat_abs (cell (given self.now) i j) }
    {
        usize::from(size(self.cell(i, j)))
    }

    // Literal place j of move i.
    pub fn literal(&self, i: usize, j: u8) -> i16
        ensures { result ≡ literal (given self.now) i j }
    {
        self.cell(i, 3 + usize::from(j))
    }
}

// Number j of row i, in a table with so many numbers a row; past the end of the table what stands for it. No product
// or sum here can wrap, however far off the row is.
fn in_row<T: Copy, const ROW: usize>(table: &[T], i: usize, j: usize, past_end: T) -> T
    ensures { result ≡ get_or table.now (ROW * i + j) past_end }
{
    let Some(from) = ROW.checked_mul(i) else {
        return past_end;
    };
    let Some(at) = from.checked_add(j) else {
        return past_end;
    };
    table.get(at).copied().unwrap_or(past_end)
}

// The same in a table with two numbers a row.
fn number_of_pair(table: &[u16], i: usize, j: usize) -> usize
    ensures { result ≡ get_or table.now (2 * i + j) 0 }
{
    usize::from(in_row::<u16, 2>(table, i, j, 0))
}

pub fn pair_count(pairs: &[u16]) -> usize
    ensures { result ≡ pair_count pairs.now }
{
    pairs.len() / 2
}

// The timer or output of row i of a pair table.
pub fn pair_number(pairs: &[u16], i: usize) -> usize
    ensures { result ≡ pair_number pairs.now i }
{
    number_of_pair(pairs, i, 0)
}

// The state of row i of a pair table.
pub fn pair_state(pairs: &[u16], i: usize) -> usize
    ensures { result ≡ pair_state pairs.now i }
{
    number_of_pair(pairs, i, 1)
}

// The least number that has an opposite of its width.
const LEAST_OPPOSED: i16 = -32767;

// A number without its sign. "negated only after the range check so that -32,768 refuses": the least number has no
// opposite of its width, and its size is of no kind.
fn size(v: i16) -> u16
    ensures { result ≡ nat_abs v }
{
    if v < LEAST_OPPOSED {
        return 32768;
    }
    if v < 0 {
        return (-v) as u16;
    }
    v as u16
}

// "1 to 64 is an input, 101 to 132 a timer"
fn kind_of(n: u16) -> Kind
    ensures { result ≡ kind_of n }
{
    match n {
        0 => Kind::Unused,
        1..=64 => Kind::Input(n),
        101..=132 => Kind::Timer(n - 100),
        _ => Kind::Unknown,
    }
}

// What a literal stands for, whatever its sign.
pub fn kind(v: i16) -> Kind
    ensures { result ≡ kind_of (nat_abs v) }
{
    kind_of(size(v))
}

// "a negative number asks for the same thing to be off"
pub fn wanted(v: i16) -> bool
    ensures { result ≡ wanted v }
{
    !(v < 0)
}
