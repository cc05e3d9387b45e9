// The declared types that the definitions in specs/ and the promises of the calls speak of, and a refusal's number
// and place.
#![tactic(auto)]

ghost use Rattle.std.specs.Prelude.{◌≡◌};
ghost use Rattle.meaning.specs.Refusals.{number_of, place_of};

// Why a call refuses, in the order of document 01's table; the number is the place, where it is not always 0.
#[derive(Clone, Copy)]
pub enum Refusal {
    Size,
    Hierarchy(usize),
    Initial(usize),
    Preset(usize),
    TimerPair(usize),
    OutputPair(usize),
    Move(usize),
    Literal(usize),
    IdleTimer(usize),
    Overlap(usize),
    FlipFlops,
    Room(usize),
    Text(usize),
    State,
    Scans,
    Field(usize),
}

// What a literal of some size stands for: inputs and timers count from 1.
#[derive(Clone, Copy)]
pub enum Kind {
    Unused,
    Input(u16),
    Timer(u16),
    Unknown,
}

// What an instruction acts on: %MXn, %IXn, %QXn, Tn.Q, Tn.IN, Tn.PT, Tn, FALSE, TRUE.
#[derive(Clone, Copy)]
pub enum Operand {
    Mx(u16),
    Ix(u16),
    Qx(u16),
    TimerQ(u16),
    TimerIn(u16),
    TimerPt(u16),
    Timer(u16),
    False,
    True,
}

// An instruction: OR( and ) carry no operand, LD of a time carries its ms.
#[derive(Clone, Copy)]
pub enum Operator {
    Ld(Operand),
    Ldn(Operand),
    And(Operand),
    Andn(Operand),
    Or,
    Close,
    St(Operand),
    S(Operand),
    R(Operand),
    Cal(Operand),
    LdTime(u32),
}

// A timer block: IN (`input`, since `in` is a word of the language), PT, ET, Q and the IN of its last call.
#[repr(C)]
#[derive(Clone, Copy)]
pub struct Block {
    pub input: bool,
    pub pt: u32,
    pub et: u32,
    pub q: bool,
    pub last: bool,
}

// Document 01's number of a refusal.
pub fn number(r: Refusal) -> u32
    ensures { result ≡ number_of r }
{
    match r {
        Refusal::Size => 1,
        Refusal::Hierarchy(_) => 2,
        Refusal::Initial(_) => 3,
        Refusal::Preset(_) => 4,
        Refusal::TimerPair(_) => 5,
        Refusal::OutputPair(_) => 6,
        Refusal::Move(_) => 7,
        Refusal::Literal(_) => 8,
        Refusal::IdleTimer(_) => 9,
        Refusal::Overlap(_) => 10,
        Refusal::FlipFlops => 11,
        Refusal::Room(_) => 12,
        Refusal::Text(_) => 13,
        Refusal::State => 14,
        Refusal::Scans => 15,
        Refusal::Field(_) => 16,
    }
}

// Document 01's place of a refusal.
pub fn place(r: Refusal) -> usize
    ensures { result ≡ place_of r }
{
    match r {
        Refusal::Size => 0,
        Refusal::Hierarchy(p) => p,
        Refusal::Initial(p) => p,
        Refusal::Preset(p) => p,
        Refusal::TimerPair(p) => p,
        Refusal::OutputPair(p) => p,
        Refusal::Move(p) => p,
        Refusal::Literal(p) => p,
        Refusal::IdleTimer(p) => p,
        Refusal::Overlap(p) => p,
        Refusal::FlipFlops => 0,
        Refusal::Room(p) => p,
        Refusal::Text(p) => p,
        Refusal::State => 0,
        Refusal::Scans => 0,
        Refusal::Field(p) => p,
    }
}
