//! The lines that a batch writes: those of the answers to rows, and the end line with the counts.

ghost use Rattle.std.specs.Prelude.{◌≡◌, ◌++◌, ◌∷◌, IfOk, string_bytes};
ghost use Rattle.brk_model.specs.Commands.{Reply};
ghost use Rattle.brk_model.specs.Lines.{answer_line, answer_text};
ghost use Rattle.brk_ref.specs.Answers.{abstract_answer};
ghost use Rattle.brk_import_engine.specs.Counts.{end_line_with_counts};

use crate::counts::Counts;
use crate::rows::Rows;
use brk_ref::Answer;
use itoa::Buffer;
use std::alloc::{AllocError, Global};

fn fields_after_word(alloc: Global, word: &str, fields: &str) -> Result<String, AllocError>
    ensures { IfOk result (λ text. string_bytes text ≡ word.now ++ 44 ∷ fields.now) }
{
    format!(in alloc; "{word},{fields}")
}

fn answer_text<D: Rows>(alloc: Global, answer: &Answer<D::Reply>) -> Result<String, AllocError>
    ensures { IfOk result (λ text. string_bytes text ≡ answer_text (abstract_answer D.told answer.now)) }
{
    match answer {
        Answer::Done(reply) => {
            let fields = D::reply_line(alloc, reply)?;
            fields_after_word(alloc, "ok", fields.as_str())
        }
        Answer::Again(line) => fields_after_word(alloc, "again", line.as_str()),
        Answer::Refused(refusal) => format!(in alloc; "no,{refusal}"),
    }
}

/// Returns the line `n,ok,FIELDS`, `n,again,FIELDS` or `n,no,FIELDS`, with its line feed.
pub fn row_answer_line<D: Rows>(
    alloc: Global,
    n: u64,
    answer: &Answer<D::Reply>,
) -> Result<Vec<u8>, AllocError>
    ensures { IfOk result (λ line. line.items ≡ answer_line n (abstract_answer D.told answer.now)) }
{
    let text = answer_text::<D>(alloc, answer)?;
    let mut buffer = Buffer::new();
    let mut line = Vec::from_slice(alloc, buffer.format(n).as_bytes())?;
    line.push(b',')?;
    line.extend_from_slice(text.as_bytes())?;
    line.push(b'\n')?;
    Ok(line)
}

/// Returns the line `end,OK,AGAIN,NO`, with its line feed.
pub fn counts_line(alloc: Global, counts: Counts) -> Result<Vec<u8>, AllocError>
    ensures { IfOk result (λ line. line.items ≡ end_line_with_counts counts) }
{
    let mut line = Vec::from_slice(alloc, b"end,")?;
    let mut buffer = Buffer::new();
    line.extend_from_slice(buffer.format(counts.ok).as_bytes())?;
    line.push(b',')?;
    line.extend_from_slice(buffer.format(counts.again).as_bytes())?;
    line.push(b',')?;
    line.extend_from_slice(buffer.format(counts.no).as_bytes())?;
    line.push(b'\n')?;
    Ok(line)
}
