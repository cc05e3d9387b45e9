// Words, texts, records and what the program prints: definitions, in specs/. Here the declared types that they speak
// of.
#![tactic(auto)]

// Where in a rung the reader is: between two rungs; in a body, after OR( or inside a bracket; after a store; after a
// timer rung's ST Tn.IN, its time or its ST Tn.PT; or after what no list has.
#[derive(Clone, Copy)]
pub enum Phase {
    Between,
    Body,
    Opened,
    Inside,
    Stored,
    GivenIn,
    GivenTime,
    GivenPt,
    Refused,
}

// What the reader knows: the timer rungs that are complete, the blocks that there must be, and those that there may be.
#[derive(Clone, Copy)]
pub struct Reading {
    pub phase: Phase,
    pub timers: u32,
    pub named: u32,
    pub most: u32,
}

// What a line of a text is.
#[derive(Clone, Copy)]
pub enum Line {
    Header,
    Var,
    Block(u16),
    EndVar,
    Says(meaning::Operator),
    EndProgram,
    Unknown,
}

// Where in a text the reader is: before its first line, after it, after VAR, after an instruction or END_VAR, after
// END_PROGRAM, or after what no text has.
#[derive(Clone, Copy)]
pub enum Stage {
    Title,
    Headed,
    Declaring,
    Rungs,
    Ended,
    Broken,
}

// What the reader of a text knows: the blocks declared so far and, from the first instruction on, the reading.
#[derive(Clone, Copy)]
pub struct Page {
    pub stage: Stage,
    pub blocks: u32,
    pub reading: Reading,
}
