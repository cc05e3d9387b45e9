// The scans of a chart, one or many, over tables that passed the check; on other tables they are harmless. First the
// enabled move: the literals as words and the moves by their source, and which of them holds.
#![tactic(auto)]

ghost use Rattle.std.specs.Prelude.{◌≡◌, ℕ, suc, ◌<◌, ◌≤◌, ◌+◌, ◌/◌, length, get_or, set, take, cond, ltb};
ghost use Rattle.meaning.specs.Tables.{Tables, move_count, source, state_count};
ghost use Rattle.meaning.specs.Rules.{Rules};
ghost use Rattle.meaning.specs.Machine.{chosen, active_leaf, memory_after_move, state_after_step, Valid};
ghost use Rattle.chart_scan.specs.Choice.{read, HoldTo, last_holding, LinkedTo, counted, move_of, MoveIs};
ghost use Rattle.check_needs.specs.Words.{need_words};
ghost use Rattle.check_needs.specs.WordsLaws.{Small};
ghost use Rattle.tables.specs.Given.{given};
ghost use Rattle.chart_scan.specs.Making.{MadeFor};
ghost use Rattle.check_pairing.specs.Words.{PairedWords};
ghost use Rattle.chart_scan.specs.Held.{TablesGiven, Empty, StateScanned, MemorySound, held};

use check_literals::LiteralCounts;
use check_needs::ThingWords;
use tables::{Chart, ChartTables};

// ---- once for all scans

// What the moves need: those of an accepted chart pass too with as many inputs and timers as there may be, and so the
// words of each are its needs.
pub fn make_needs(t: &ChartTables<'_>, needs: &mut [u64])
    ensures { (c : Tables) → c.moves ≡ t.now.moves.now → Rules c
        → move_count c ≤ length needs.old / need_words → HoldTo c (move_count c) needs.new }
{
    let most = LiteralCounts {
        inputs: Chart::INPUTS,
        timers: Chart::TIMERS,
    };
    check_literals::fill(t, most, needs);
}

// As many as there may be states and moves.
const LINKS: usize = Chart::STATES + Chart::MOVES;

// Move i is now the last from its source, and the one that was is behind it.
fn link(t: &ChartTables<'_>, i: usize, links: &mut [u16])
    requires { i < 512 }
    ensures { source (given t.now) i < 256 → 768 ≤ length links.old → links.new
        ≡ set (set links.old (256 + i) (get_or links.old (source (given t.now) i) 0))
        (source (given t.now) i) (suc i) }
{
    let s = t.source(i);
    if s < Chart::STATES && LINKS <= links.len() {
        links[Chart::STATES + i] = links[s];
        links[s] = (i + 1) as u16;
    }
}

// The moves by their source: at s the last from state s, and at 256 + i the one before move i from the same state. They
// count from 1 here, and 0 is none: an Option of each would take twice the memory, which is fixed.
pub fn make_links(t: &ChartTables<'_>, links: &mut [u16])
    ensures { (c : Tables) → c.moves ≡ t.now.moves.now → Rules c → 768 ≤ length links.old
        → ((s : ℕ) → get_or links.old s 0 ≡ 0) → LinkedTo c (move_count c) links.new }
{
    for i in 0..t.move_count().min(Chart::MOVES) {
        link(t, i, links);
    }
}

// ---- each scan

// The move from state s whose literals hold.
fn chosen_from(links: &[u16], needs: &[u64], s: usize, on: ThingWords) -> Option<usize>
    ensures { (c : Tables) → Rules c → LinkedTo c (move_count c) links.now
        → HoldTo c (move_count c) needs.now → move_count c ≤ length needs.now / need_words → s < 256
        → Small on → counted result ≡ last_holding c (read on) s (move_count c) }
{
    let mut j = usize::from(slices::at(links, s, 0));
    // along the links: a `for` would count turns for nothing
    while 0 < j {
        let i = j - 1;
        if check_needs::hold(check_needs::needs_at(needs, i), on) {
            return Some(i);
        }
        let next = usize::from(slices::at(links, Chart::STATES + i, 0));
        if j <= next {
            return None;
        }
        j = next;
    }
    None
}

// "An accepted chart never has two enabled": so the path is gone up from the leaf l, whatever the moves' order.
pub fn chosen(
    t: &ChartTables<'_>,
    links: &[u16],
    needs: &[u64],
    l: usize,
    on: ThingWords,
) -> Option<usize>
    ensures { (c : Tables) → c.states ≡ t.now.states.now → c.moves ≡ t.now.moves.now → Rules c
        → LinkedTo c (move_count c) links.now → HoldTo c (move_count c) needs.now
        → move_count c ≤ length needs.now / need_words → l < 256 → Small on
        → MoveIs c (chosen c (read on) l) result }
{
    let mut s = l;
    for k in 0..Chart::DEPTH + 1 {
        if let Some(i) = chosen_from(links, needs, s, on) {
            return Some(i);
        }
        if s == 0 {
            return None;
        }
        s = t.super_state(s);
    }
    None
}

// The leaf after a move, if there is one, from the leaf l: "with none, the state stays".
fn leaf_after(t: &ChartTables<'_>, enabled: Option<usize>, l: usize, memory: &mut [u16]) -> usize
    ensures { (c : Tables) → c.states ≡ t.now.states.now → c.moves ≡ t.now.moves.now → Rules c
        → state_count c ≤ length memory.old → l ≡ active_leaf c (take (state_count c) memory.old)
        → (take (state_count c) memory.new ≡ cond (ltb (move_of c enabled) (move_count c))
        (memory_after_move c (move_of c enabled) (take (state_count c) memory.old))
        (take (state_count c) memory.old))
        × (MemorySound c (take (state_count c) memory.new)
        → result ≡ active_leaf c (take (state_count c) memory.new)) }
{
    let Some(i) = enabled else {
        return l;
    };
    chart_moving::enter(t, i, memory);
    chart_paths::active_leaf(memory)
}

// What is made once for all scans: of each state the timers that run in it, the moves by their source, the literals as
// words, N scan steps of each timer.
#[derive(Clone, Copy)]
struct MadeOnce<'a> {
    runs: &'a [u64],
    links: &'a [u16],
    needs: &'a [u64],
    most: &'a [u32],
}

// One scan: what has expired is judged before the move, and a timer goes on if it ran before and runs after it. From
// the leaf l it answers the next.
fn scan(
    t: &ChartTables<'_>,
    made: &MadeOnce<'_>,
    memory: &mut [u16],
    timers: &mut [u32],
    l: usize,
    x: u64,
) -> usize
    ensures { (c : Tables) → c.scan_step ≡ t.now.chart.step → c.states ≡ t.now.states.now
        → c.moves ≡ t.now.moves.now → c.presets ≡ t.now.presets.now → Rules c → MadeFor c made.now
        → state_count c ≤ length memory.old → length timers.old ≡ 32
        → Valid c (held c memory.old timers.old)
        → l ≡ active_leaf c (take (state_count c) memory.old)
        → (held c memory.new timers.new ≡ state_after_step c x (held c memory.old timers.old))
        × (result ≡ active_leaf c (take (state_count c) memory.new)) }
{
    let ran = slices::at(made.runs, l, 0);
    let on = ThingWords {
        inputs: x,
        timers: chart_paths::expired_of(t, ran, timers),
    };
    let enabled = chosen(t, made.links, made.needs, l, on);
    let next = leaf_after(t, enabled, l, memory);
    chart_timers::time(t, made.most, ran & slices::at(made.runs, next, 0), timers);
    next
}

// The scans, one after the other.
fn run_made(
    t: &ChartTables<'_>,
    made: &MadeOnce<'_>,
    shows: &[u64],
    memory: &mut [u16],
    timers: &mut [u32],
    inputs: &[u64],
    leaves: &mut [u16],
    outputs: &mut [u64],
)
    ensures { (c : Tables) → c.scan_step ≡ t.now.chart.step → c.states ≡ t.now.states.now
        → c.moves ≡ t.now.moves.now → c.presets ≡ t.now.presets.now → Rules c → MadeFor c made.now
        → PairedWords c c.output_pairs shows.now → state_count c ≤ length memory.old
        → length timers.old ≡ 32 → Valid c (held c memory.old timers.old)
        → length leaves.old ≡ length inputs.now
        → length outputs.old ≡ length inputs.now
        → StateScanned c (held c memory.old timers.old) inputs.now
        (held c memory.new timers.new) leaves.new outputs.new }
{
    let mut l = chart_paths::active_leaf(memory);
    for (i, &x) in inputs.iter().enumerate() {
        l = scan(t, made, memory, timers, l, x);
        chart_seen::show(shows, l, i, leaves, outputs);
    }
}

// The run works in the memory and the timers that are lent: "Each super-state remembers one sub-state": an entry a
// state, a leaf's is 0; and a value in ms for each timer. Of what the scans share, the timers that run in each state
// are lent too; the rest is made here.
pub fn run(
    t: &ChartTables<'_>,
    runs: &[u64],
    shows: &mut [u64],
    needs: &mut [u64],
    memory: &mut [u16],
    timers: &mut [u32],
    inputs: &[u64],
    leaves: &mut [u16],
    outputs: &mut [u64],
)
    ensures { (c : Tables) → TablesGiven c t.now.chart.step t.now.chart.outputs t.now.states.now
        t.now.moves.now t.now.presets.now c.timer_pairs t.now.output_pairs.now → Rules c
        → PairedWords c c.timer_pairs runs.now → Empty c shows.old needs.old
        → state_count c ≤ length memory.old → length timers.old ≡ 32
        → Valid c (held c memory.old timers.old)
        → length leaves.old ≡ length inputs.now
        → length outputs.old ≡ length inputs.now
        → StateScanned c (held c memory.old timers.old) inputs.now
        (held c memory.new timers.new) leaves.new outputs.new }
{
    check_pairing::paired_words(t, t.output_pairs, shows);
    make_needs(t, needs);
    let mut links = [0u16; LINKS];
    make_links(t, &mut links);
    let most = chart_timers::longest_of(t);
    let made = MadeOnce {
        runs,
        links: &links,
        needs,
        most: &most,
    };
    run_made(t, &made, shows, memory, timers, inputs, leaves, outputs);
}
