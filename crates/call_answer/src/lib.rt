// What the station program answers to a line at a table that was checked, written as the one line of its answer.
#![tactic(auto)]

ghost use Rattle.std.specs.Prelude.{◌≡◌, [], ◌∷◌, ◌≤◌, length};
ghost use Rattle.table_rules.specs.Checked.{Checked};
ghost use Rattle.refusal_number.specs.Numbers.{number_of, numbered};
ghost use Rattle.line_put.specs.Writing.{line_written};
ghost use Rattle.call_question.specs.AnswerBytes.{refusal_bytes};
ghost use Rattle.call_answer.specs.OutputLines.{line_or_end, printed_at};
ghost use Rattle.call_answer.specs.Answering.{answer_on, frame_room, issue_answer, outcome_bytes, question_answer, second_opening, settled_bytes, answered_after};

use line_decode::LineKind;
use line_put::TooShort;
use refusal_number::Refusal;
use words_tags::{RowCount, Value};

// How many characters a byte has, and how many bytes `00` is.
const CHARACTERS: usize = 2;

const ONE: usize = 1;

// A refusal's line.
#[tactic(auto, unfolding(line_print::specs::Printed::printed, call_question::specs::AnswerBytes::refusal_bytes))]
pub fn refuse(refusal: Refusal, out: &mut [u8]) -> Result<usize, TooShort>
    ensures { (result, out.new) ≡ line_written out.old (refusal_bytes (number_of refusal)) }
{
    line_print::write_refusal(out, refusal.number())
}

// A call's result with its refusal by its number.
pub fn by_number(r: Result<(), Refusal>) -> Result<(), u32>
    ensures { result ≡ numbered r }
{
    r.map_err(Refusal::number)
}

// The answer to an opening or a frame, by the number of its refusal.
pub fn answer_done(r: Result<(), u32>, out: &mut [u8]) -> Result<usize, TooShort>
    ensures { (result, out.new) ≡ line_written out.old (outcome_bytes r) }
{
    match r {
        Ok(()) => line_print::write_done(out),
        Err(number) => line_print::write_refusal(out, number),
    }
}

// The answer to a settling line.
fn answer_settled(r: Result<RowCount, Refusal>, out: &mut [u8]) -> Result<usize, TooShort>
    ensures { (result, out.new) ≡ line_written out.old (settled_bytes (numbered r)) }
{
    match r {
        Ok(steps) => line_print::write_count(out, steps.0),
        Err(refusal) => refuse(refusal, out),
    }
}

// The answer to a local operation: its frame's line goes behind the place of `00`.
fn answer_issue(space: &mut [u32], line: &[u8], out: &mut [u8]) -> Result<usize, TooShort>
    requires { Checked space.old × (frame_room ≤ length out.old) }
    ensures { (result, (space.new, out.new)) ≡ answered_after out.old (issue_answer line.now space.old) }
{
    match call_checked::issue_line(space, line, &mut out[CHARACTERS..]) {
        Ok(n) => {
            let start = line_hex::put_number(out, 0, line_read::DONE as u32, ONE);
            Ok(start + n)
        }
        Err(refusal) => refuse(refusal, out),
    }
}

// The answer to a question.
fn answer_question(space: &[u32], line: &[u8], out: &mut [u8]) -> Result<usize, TooShort>
    requires { Checked space.now }
    ensures { (result, out.new) ≡ line_written out.old (question_answer line.now space.now) }
{
    match line_decode::question(line) {
        Some(asked) => call_question::answer_question(
            space,
            asked.object,
            asked.question,
            Value(asked.value),
            out,
        ),
        None => refuse(Refusal::Misshapen, out),
    }
}

// The answer to an opening where a table is: 13, or 1 where it is no opening.
fn answer_opening(line: &[u8], out: &mut [u8]) -> Result<usize, TooShort>
    ensures { (result, out.new) ≡ line_written out.old (second_opening line.now) }
{
    if line_decode::is_opening(line) {
        refuse(Refusal::Unopened, out)
    } else {
        refuse(Refusal::Misshapen, out)
    }
}

// The answer to a line of this kind.
pub fn answer_line(
    space: &mut [u32],
    line: &[u8],
    kind: LineKind,
    out: &mut [u8],
) -> Result<usize, TooShort>
    requires { Checked space.old × (frame_room ≤ length out.old) }
    ensures { (result, (space.new, out.new)) ≡ answered_after out.old (answer_on kind line.now space.old) }
{
    match kind {
        LineKind::Opening => answer_opening(line, out),
        LineKind::Operation => {
            answer_done(by_number(call_checked::receive_line(space, line)), out)
        }
        LineKind::Issue => answer_issue(space, line, out),
        LineKind::Settling => answer_settled(call_checked::settle_line(space, line), out),
        LineKind::Question => answer_question(space, line, out),
        LineKind::Printing => refuse(Refusal::Misshapen, out),
        LineKind::Saved => refuse(Refusal::Misshapen, out),
        LineKind::Unknown => refuse(Refusal::Misshapen, out),
    }
}

// The characters of a line that was written; none is too long for the space.
pub fn line_or_end(w: Result<usize, TooShort>) -> Option<usize>
    ensures { result ≡ line_or_end w }
{
    w.ok()
}

// A refusal is one line: for both programs.
pub fn refuse_at(number: u32, k: usize, out: &mut [u8]) -> Option<usize>
    requires { frame_room ≤ length out.old }
    ensures { (result, out.new) ≡ printed_at (refusal_bytes number ∷ []) k out.old }
{
    if 0 < k {
        return None;
    }
    line_or_end(line_print::write_refusal(out, number))
}
