// The text of a list of instruction words.
#![tactic(auto)]

ghost use Rattle.format.specs.TextWritten.{TextWritten};
ghost use Rattle.write_lines.specs.Fit.{PutIfRoom};
ghost use Rattle.write_words.specs.Answers.{WordsWritten};
ghost use Rattle.write_words.specs.ByWords.{words_text};

use meaning::Refusal;

// The text of accepted words with d blocks.
fn put_text(out: &mut [u8], d: usize, words: &[u32]) -> usize
    ensures { PutIfRoom out.old 0 (words_text d words.now) out.new result }
{
    let p = write_spelling::put_head(out, 0, d);
    let q = write_word_lines::put_words(out, p, words);
    write_spelling::put_end(out, q)
}

// The text is measured over no bytes first: "A refusal writes nothing."
fn write_text(words: &[u32], d: usize, out: &mut [u8]) -> Result<usize, Refusal>
    ensures { TextWritten (words_text d words.now) out.old result out.new }
{
    let needed = put_text(&mut [], d, words);
    if out.len() < needed {
        return Err(Refusal::Room(needed));
    }
    put_text(out, d, words);
    Ok(needed)
}

// The text of the program that the words are.
pub fn write_words(words: &[u32], out: &mut [u8]) -> Result<usize, Refusal>
    ensures { WordsWritten words.now out.old result out.new }
{
    let d = grammar_words::words_pass(words).map_err(Refusal::Text)?;
    write_text(words, d as usize, out)
}
