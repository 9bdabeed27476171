// The public calls over a lent table space and a lent line. Each tries its refusals in 01's order, and a refusal changes nothing.
#![tactic(auto)]

ghost use Rattle.std.specs.Prelude.{◌≡◌, ◌≤◌, length};
ghost use Rattle.call_checked.specs.Called.{opened_by};
ghost use Rattle.line_decode.specs.Decoding.{type_of};
ghost use Rattle.line_decode.specs.LineKinds.{kind_of};
ghost use Rattle.refusal_number.specs.Numbers.{numbered};
ghost use Rattle.question.specs.Replies.{told};
ghost use Rattle.form_save.specs.Saving.{saved_by};
ghost use Rattle.call_answer.specs.Answering.{frame_room, answered_after};
ghost use Rattle.calls.specs.Calls.{Fallen, issued_by, received_by, replied_by, settled_by};
ghost use Rattle.calls.specs.Answers.{answered_by, answer_of, lines_for, longest_answer};
ghost use Rattle.call_answer.specs.OutputLines.{printed_at};

use line_decode::LineKind;
use line_put::TooShort;
use question::{Reply, Unanswered};
use refusal_number::Refusal;
use words_tags::RowCount;

// "opening 1, 13": any space will do, one that holds a table too.
pub fn open(space: &mut [u32], line: &[u8]) -> Result<(), Refusal>
    ensures { (numbered result, space.new) ≡ opened_by line.now space.old }
{
    call_checked::open_line(space, line)
}

// "A frame passes 14, 1 to 7, 8".
pub fn receive(space: &mut [u32], line: &[u8]) -> Result<(), Refusal>
    ensures { (numbered result, space.new) ≡ received_by line.now space.old }
{
    if !table_rules::is_table(space) {
        return Err(Refusal::NoTable);
    }
    call_checked::receive_line(space, line)
}

// "A local operation passes 14, 1, 3, 4, 9, 8, 10": the frame's line goes into the lent space.
pub fn issue(space: &mut [u32], line: &[u8], out: &mut [u8]) -> Result<usize, Refusal>
    ensures { (numbered result, (space.new, out.new)) ≡ issued_by line.now space.old out.old }
{
    if !table_rules::is_table(space) {
        return Err(Refusal::NoTable);
    }
    call_checked::issue_line(space, line, out)
}

// "Settling passes 14, 1"; the steps that it reports are the fall in unsettled rows.
pub fn settle(space: &mut [u32], line: &[u8]) -> Result<RowCount, Refusal>
    ensures { ((numbered result, space.new) ≡ settled_by line.now space.old) × Fallen (numbered result) space.old space.new }
{
    if !table_rules::is_table(space) {
        return Err(Refusal::NoTable);
    }
    call_checked::settle_line(space, line)
}

// "A question passes 14, 1, 3, 12, 11": the table is only looked at, and a list goes into the lent space.
pub fn ask(space: &[u32], line: &[u8], out: &mut [u32]) -> Result<Reply, Unanswered>
    ensures { (told result, out.new) ≡ replied_by line.now space.now out.old }
{
    if !table_rules::is_table(space) {
        return Err(Unanswered::Refused(Refusal::NoTable));
    }
    call_checked::ask_line(space, line, out)
}

// "saving 14, 1, 10": the line of the saved form at a place, from 0 on, goes into the lent space; the table is only looked at.
pub fn save_line(
    space: &[u32],
    line: &[u8],
    k: usize,
    out: &mut [u8],
) -> Result<Option<usize>, Refusal>
    ensures { (numbered result, out.new) ≡ saved_by line.now space.now k out.old }
{
    if table_rules::is_table(space) {
        form_save::save_checked(space, line, k, out)
    } else {
        Err(Refusal::NoTable)
    }
}

// The characters of the longest answer line, LF included: a list of as many values as a table may have rows.
pub const LONGEST_ANSWER: usize = 2 * (3 + 4 * meaning::MOST_ROWS as usize) + 1;

// Ties the constant to the laws, which can't name it.
pub fn longest_answer() -> usize
    ensures { result ≡ longest_answer }
{
    LONGEST_ANSWER
}

// The one line that a line of this kind is answered with; before an accepted opening, 14 unless it is itself an opening.
fn answer_first(
    space: &mut [u32],
    line: &[u8],
    kind: LineKind,
    out: &mut [u8],
) -> Result<usize, TooShort>
    requires { (kind ≡ kind_of (type_of line.now)) × (frame_room ≤ length out.old) }
    ensures { (result, (space.new, out.new)) ≡ answered_after out.old (answer_of line.now space.old) }
{
    if table_rules::is_table(space) {
        call_answer::answer_line(space, line, kind, out)
    } else if let LineKind::Opening = kind {
        call_answer::answer_done(
            call_answer::by_number(call_checked::open_line(space, line)),
            out,
        )
    } else {
        call_answer::refuse(Refusal::NoTable, out)
    }
}

// The k-th line for a line of type `60`: of the saved form, or of a refusal.
fn answer_printing(space: &[u32], line: &[u8], k: usize, out: &mut [u8]) -> Option<usize>
    requires { (kind_of (type_of line.now) ≡ LineKind.Printing) × (frame_room ≤ length out.old) }
    ensures { (result, out.new) ≡ printed_at (lines_for line.now space.now) k out.old }
{
    match save_line(space, line, k, out) {
        Ok(there) => there,
        Err(refusal) => call_answer::refuse_at(refusal.number(), k, out),
    }
}

// The k-th output line of the station program for an input line, from 0 on, or the end.
pub fn answer(
    space: &mut [u32],
    line: &[u8],
    k: usize,
    out: &mut [u8; LONGEST_ANSWER],
) -> Option<usize>
    ensures { (result, (space.new, out.new)) ≡ answered_by line.now k space.old out.old }
{
    let kind = line_decode::kind_of(line);
    if let LineKind::Printing = kind {
        return answer_printing(space, line, k, out);
    }
    if k == 0 {
        return call_answer::line_or_end(answer_first(space, line, kind, out));
    }
    None
}
