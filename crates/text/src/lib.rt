// The list program's text of an answer, written into a lent buffer.
#![tactic(auto)]

mod parts;

ghost use Rattle.std.specs.Prelude.{◌≡◌, ◌<◌};
ghost use Rattle.answers.specs.Room.{answer_of, lists};
ghost use Rattle.text.specs.Text.{text, large};
ghost use Rattle.text.specs.Buffer.{PutFirst, told, filled};

use crate::parts::Writer;
use answers::Answer;

// Puts the text of an answer at the front of `out`, if it fits, and returns how many bytes it has.
fn put_text(out: &mut [u8], answer: Answer, ids: &[u64], lengths: &[f64]) -> usize
    ensures { PutFirst (text (answer_of answer) (lists ids.now lengths.now)) out.old out.new result }
{
    let mut writer = Writer { out, at: 0 };
    writer.answer(answer, ids, lengths);
    writer.at
}

// Writes the text of an answer to the front of `out`, and returns how many bytes it has. A buffer that is too short for it stays as it is.
pub fn write_text(out: &mut [u8], answer: Answer, ids: &[u64], lengths: &[f64]) -> Option<usize>
    ensures value { result ≡ told (text (answer_of answer) (lists ids.now lengths.now)) out.old }
    ensures out_after { out.new ≡ filled (text (answer_of answer) (lists ids.now lengths.now)) out.old }
{
    // Without a buffer the bytes are counted alone. One pass is no plainer: a buffer that is too short stays as it is, so the size has to be known first.
    let size = put_text(&mut [], answer, ids, lengths);
    if size > out.len() {
        return None;
    }
    put_text(out, answer, ids, lengths);
    Some(size)
}

// Writes the one line of a sheet that is too long for the program. By itself, not by `Writer` (no plainer): it is one fixed word, with no parts to count.
#[tactic(auto, unfolding(crate::specs::Text::ascii, crate::specs::Text::spaced, crate::specs::Text::line, crate::specs::Text::large))]
pub fn write_large(out: &mut [u8]) -> Option<usize>
    ensures value { result ≡ told large out.old }
    ensures out_after { out.new ≡ filled large out.old }
{
    let line = b"large\n";
    if out.len() < line.len() {
        return None;
    }
    out[..line.len()].copy_from_slice(line);
    Some(line.len())
}
