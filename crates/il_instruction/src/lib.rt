// One instruction's effect: on what a scan keeps by value, and on the flip-flop bytes.
#![tactic(auto)]

ghost use Rattle.std.specs.Prelude.{◌≡◌, ◌&&◌, ◌-◌};
ghost use Rattle.format.specs.Decode.{decoded};
ghost use Rattle.il_values.specs.Value.{with_bit};
ghost use Rattle.il_instruction.specs.Effect.{loaded, opened_bracket, closed_bracket, time_loaded, with_on};
ghost use Rattle.il_instruction.specs.Effect.{with_time_as_pt, with_output_word, stored_to, evaluated, running};
ghost use Rattle.il_instruction.specs.Effect.{flip_flops_after};

use meaning::{Operand, Operator};

// What a scan keeps by value: the result, what a bracket has deferred, the time loaded last, the IN and PT stored
// last, the blocks' Q as a word and the output word.
#[derive(Clone, Copy)]
pub struct Registers {
    pub result: bool,
    pub deferred: bool,
    pub input: bool,
    pub time: u32,
    pub pt: u32,
    pub qs: u64,
    pub outputs: u64,
}

impl Registers {
    fn load(self, v: bool) -> Registers
        ensures { result ≡ loaded v self }
    {
        Registers { result: v, ..self }
    }

    fn and(self, v: bool) -> Registers
        ensures { result ≡ loaded (self.result && v) self }
    {
        self.load(self.result && v)
    }

    // OR( defers the result ..
    fn put_aside(self) -> Registers
        ensures { result ≡ opened_bracket self }
    {
        Registers {
            deferred: self.result,
            ..self
        }
    }

    // .. and ) ors it with what the bracket gave.
    fn or_aside(self) -> Registers
        ensures { result ≡ closed_bracket self }
    {
        self.load(self.deferred || self.result)
    }

    fn load_time(self, n: u32) -> Registers
        ensures { result ≡ time_loaded n self }
    {
        Registers { time: n, ..self }
    }

    fn store_in(self) -> Registers
        ensures { result ≡ with_on self.result self }
    {
        Registers {
            input: self.result,
            ..self
        }
    }

    fn store_pt(self) -> Registers
        ensures { result ≡ with_time_as_pt self }
    {
        Registers {
            pt: self.time,
            ..self
        }
    }

    fn store_output(self, n: u16) -> Registers
        ensures { result ≡ with_output_word (with_bit self.outputs (n - 1) self.result) self }
    {
        let k = il_values::from_zero(n);
        Registers {
            outputs: il_values::with_bit(self.outputs, k, self.result),
            ..self
        }
    }

    // ST of the result, apart from the flip-flops.
    #[tactic(auto, unfolding(crate::specs::Effect::stored_to))]
    fn store(self, o: Operand) -> Registers
        ensures { result ≡ stored_to o self }
    {
        match o {
            Operand::Qx(n) => self.store_output(n),
            Operand::TimerIn(_) => self.store_in(),
            Operand::TimerPt(_) => self.store_pt(),
            _ => self,
        }
    }
}

// An instruction's effect, apart from the flip-flops and the blocks.
#[tactic(auto, unfolding(crate::specs::Effect::evaluated))]
fn evaluate(flip_flops: &[u8], x: u64, i: Operator, s: Registers) -> Registers
    ensures { result ≡ evaluated x flip_flops.now i s }
{
    match i {
        Operator::Ld(o) => s.load(il_values::value(flip_flops, x, s.qs, o)),
        Operator::Ldn(o) => s.load(!il_values::value(flip_flops, x, s.qs, o)),
        Operator::And(o) => s.and(il_values::value(flip_flops, x, s.qs, o)),
        Operator::Andn(o) => s.and(!il_values::value(flip_flops, x, s.qs, o)),
        Operator::Or => s.put_aside(),
        Operator::Close => s.or_aside(),
        Operator::St(o) => s.store(o),
        Operator::LdTime(n) => s.load_time(n),
        _ => s,
    }
}

// One instruction; none does nothing.
#[tactic(auto, unfolding(crate::specs::Effect::running, crate::specs::Effect::flip_flops_after))]
pub fn run_instruction(
    flip_flops: &mut [u8],
    x: u64,
    i: Option<Operator>,
    s: Registers,
) -> Registers
    ensures { (result ≡ running x flip_flops.old i s)
        × (flip_flops.new ≡ flip_flops_after i s.result flip_flops.old) }
{
    let Some(i) = i else {
        return s;
    };
    let t = evaluate(flip_flops, x, i, s);
    il_stores::change(flip_flops, i, s.result);
    t
}

// One word; one that is no instruction does nothing.
pub fn run_word(flip_flops: &mut [u8], x: u64, w: u32, s: Registers) -> Registers
    ensures { (result ≡ running x flip_flops.old (decoded w) s)
        × (flip_flops.new ≡ flip_flops_after (decoded w) s.result flip_flops.old) }
{
    run_instruction(flip_flops, x, word_decode::decode(w), s)
}
