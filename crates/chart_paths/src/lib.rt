// What the active path tells, for any tables at all: the leaf, and which timers are expired.
#![tactic(auto)]

ghost use Rattle.std.specs.Prelude.{◌≡◌, ◌&&◌, ◌||◌, eqb, ℕ, suc, ◌<◌, ◌≤◌};
ghost use Rattle.meaning.specs.Tables.{timer_count};
ghost use Rattle.meaning.specs.Machine.{remembered};
ghost use Rattle.meaning.specs.Literals.{input_on};
ghost use Rattle.chart_paths.specs.Walk.{walk};
ghost use Rattle.chart_paths.specs.Words.{expired_at};
ghost use Rattle.tables.specs.Given.{given};

use tables::{Chart, ChartTables};

// The sub-state remembered of a.
pub fn remembered(memory: &[u16], a: usize) -> usize
    ensures { result ≡ remembered memory.now a }
{
    usize::from(slices::at(memory, a, 0))
}

// "Following these from the root gives the active path and the active leaf." A leaf remembers 0.
pub fn active_leaf(memory: &[u16]) -> usize
    ensures { result ≡ walk (remembered memory.now) 8 0 }
{
    let mut s = 0;
    for k in 0..Chart::DEPTH {
        let below = remembered(memory, s);
        if below == 0 {
            return s;
        }
        s = below;
    }
    s
}

// ---- words: timers and outputs count from 1, and number n is the bit of weight 2^(n-1)

// Whether number i + 1 is in the word.
pub fn bit_at(w: u64, i: usize) -> bool
    requires { i < 64 }
    ensures { result ≡ input_on w (suc i) }
{
    (w >> i) % 2 == 1
}

// The timer of row i is number i + 1.
fn is_expired(t: &ChartTables<'_>, running: u64, timers: &[u32], i: usize) -> bool
    requires { i < 32 }
    ensures { result ≡ expired_at (given t.now).presets running timers.now i }
{
    bit_at(running, i) && slices::at(t.presets, i, 0) <= slices::at(timers, i, 0)
}

// The word with number i + 1 too, if b.
fn with_bit_if(w: u64, i: usize, b: bool) -> u64
    requires { i < 64 }
    ensures { (j : ℕ) → input_on result (suc j) ≡ (input_on w (suc j) || (eqb i j && b)) }
{
    if b { slices::with_number(w, i + 1) } else { w }
}

// "It is expired when it runs and is at least its preset."
pub fn expired_of(t: &ChartTables<'_>, running: u64, timers: &[u32]) -> u64
    ensures { timer_count (given t.now) ≤ 32 → (i : ℕ) → i < timer_count (given t.now)
        → input_on result (suc i) ≡ expired_at (given t.now).presets running timers.now i }
{
    let mut word = 0u64;
    for i in 0..t.timer_count().min(Chart::TIMERS) {
        word = with_bit_if(word, i, is_expired(t, running, timers, i));
    }
    word
}
