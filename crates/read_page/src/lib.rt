// Lines read one by one: "PROGRAM CHART; if there are timers, VAR, a line "T1 : TON;" each, END_VAR; the rungs;
// END_PROGRAM".
#![tactic(auto)]

ghost use Rattle.std.specs.Prelude.{◌≡◌, suc, ◌&&◌, eqb, leb};
ghost use Rattle.format.specs.Automata.Phases.{phase_step, alive};
ghost use Rattle.format.specs.Automata.Lines as Lines;

use format::{Line, Page, Stage};
use meaning::Operator;

fn turned(w: Stage, p: Page) -> Page
    ensures { result ≡ Lines.turned w p }
{
    Page { stage: w, ..p }
}

// "T1 to at most T32 in rising order"
fn is_next(n: u16, p: Page) -> bool
    ensures { result ≡ (eqb n (suc p.blocks) && leb n 32) }
{
    n <= 32 && p.blocks < 32 && u32::from(n) == p.blocks + 1
}

// An instruction where one may stand.
fn say(p: Page, i: Operator) -> Page
    ensures { result ≡ Lines.gone_on (alive (phase_step p.reading i)) (Lines.read_on i p) p }
{
    let r = grammar_step::step(p.reading, i);
    if !grammar_phase::alive(r) {
        return turned(Stage::Broken, p);
    }
    Page {
        stage: Stage::Rungs,
        reading: r,
        ..p
    }
}

// Before the first line.
#[tactic(auto, unfolding(format::specs::Automata::Lines::first_page))]
pub fn first() -> Page
    ensures { result ≡ Lines.first_page }
{
    Page {
        stage: Stage::Title,
        blocks: 0,
        reading: grammar_phase::begin(0, 0),
    }
}

// What the reader of a text knows after one line more: the next page where it can be turned to, else one that no text
// has.
#[tactic(auto, unfolding(format::specs::Automata::Lines::turn))]
pub fn turn(p: Page, l: Line) -> Page
    ensures { result ≡ Lines.turn p l }
{
    match (l, p.stage) {
        (Line::Header, Stage::Title) => turned(Stage::Headed, p),
        (Line::Var, Stage::Headed) => turned(Stage::Declaring, p),
        (Line::Block(n), Stage::Declaring) if is_next(n, p) => Page {
            blocks: u32::from(n),
            ..p
        },
        (Line::EndVar, Stage::Declaring) if p.blocks != 0 => Page {
            stage: Stage::Rungs,
            // "timer rungs for exactly the declared blocks"
            reading: grammar_phase::begin(p.blocks, p.blocks),
            ..p
        },
        (Line::Says(i), Stage::Headed | Stage::Rungs) => say(p, i),
        // the last rung is complete
        (Line::EndProgram, Stage::Headed | Stage::Rungs) if grammar_phase::may_end(p.reading) =>
            turned(Stage::Ended, p),
        _ => turned(Stage::Broken, p),
    }
}

// Some text has the lines that were read.
#[tactic(auto, unfolding(format::specs::Automata::Lines::page_stands))]
pub fn stands(p: Page) -> bool
    ensures { result ≡ Lines.page_stands p }
{
    !matches!(p.stage, Stage::Broken)
}

// They are a text.
#[tactic(auto, unfolding(format::specs::Automata::Lines::over))]
pub fn is_over(p: Page) -> bool
    ensures { result ≡ Lines.over p }
{
    matches!(p.stage, Stage::Ended)
}
