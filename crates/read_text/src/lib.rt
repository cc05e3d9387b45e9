// From a text to the words of its instructions.
#![tactic(auto)]

ghost use Rattle.read_text.specs.Reads.{TextRead};

use meaning::Refusal;

// The words of the instructions of an accepted text, from the front of out. They are counted over no words first: "A
// refusal writes nothing."
pub fn read(text: &[u8], out: &mut [u32]) -> Result<usize, Refusal>
    ensures { TextRead text.now out.old result out.new }
{
    let n = read_pass::pass(text, &mut []).map_err(Refusal::Text)?;
    if out.len() < n {
        return Err(Refusal::Room(n));
    }
    read_pass::pass(text, out).map_err(Refusal::Text)
}
