// Which lists of words are accepted, and where the others go wrong.
#![tactic(auto)]

ghost use Rattle.grammar_words.specs.Pass.{WordsPassed};

// The blocks of the program that the words are, or the place of TEXT.
pub fn words_pass(words: &[u32]) -> Result<u32, usize>
    ensures { WordsPassed words.now result }
{
    let mut s = grammar_phase::begin(0, 32);
    for (i, w) in words.iter().enumerate() {
        let next = grammar_step::step_near(s, *w);
        if !grammar_phase::alive(next) {
            return Err(i);
        }
        s = next;
    }
    if !grammar_phase::may_end(s) {
        return Err(words.len());
    }
    Ok(s.timers)
}
