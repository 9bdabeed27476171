// Questions answered in characters: a list goes straight from the rows into its line, value by value.
#![tactic(auto)]

ghost use Rattle.std.specs.Prelude.{◌≡◌, cond, ◌+◌, ◌*◌, ◌≤◌, length};
ghost use Rattle.meaning.specs.Table.{most_rows};
ghost use Rattle.meaning.specs.Questions.{by_rows};
ghost use Rattle.meaning.specs.Calls.{ask};
ghost use Rattle.words_layout.specs.Layout.{table_of};
ghost use Rattle.refusal_kind.specs.Asking.{asked_from};
ghost use Rattle.table_rules.specs.Checked.{Checked};
ghost use Rattle.line_hex.specs.Putting.{put_at};
ghost use Rattle.line_put.specs.Writing.{line_written, written_each};
ghost use Rattle.call_question.specs.AnswerBytes.{list_bytes, reply_bytes};

use line_put::TooShort;
use line_shape::FOUR;
use question::{Reply, Unanswered};
use words_tags::{RowCount, Value};

// How many bytes stand before the values of a list: the type and the count.
const HEAD: usize = 3;

// How many characters a byte has.
const CHARACTERS: usize = 2;

// A yes or no as a byte.
fn byte_of(yes: bool) -> u32
    ensures { result ≡ cond yes 1 0 }
{
    u32::from(yes)
}

// Writes the values of an object, which were counted before, as digits at a place; the place behind them.
fn put_values(s: &[u32], object: u32, count: RowCount, out: &mut [u8], at: usize) -> usize
    requires { Checked s.now × (count.0 ≡ (by_rows (table_of s.now)).count_at object) × (at + 2 * (4 * count.0) ≤ length out.old) }
    ensures { (result, out.new) ≡ put_at out.old at (written_each 4 ((by_rows (table_of s.now)).list_at object)) }
{
    let mut passed = 0;
    let mut to = at;
    for _i in 0..count.0 {
        let found = question_list::next_value(s, object, RowCount(passed));
        to = line_hex::put_number(out, to, found.value.0, FOUR);
        passed = found.passed.0;
    }
    to
}

// Writes the line of a list: `00`, the count, and the values, which were counted before.
fn write_list(s: &[u32], object: u32, count: RowCount, out: &mut [u8]) -> Result<usize, TooShort>
    requires { Checked s.now × (count.0 ≡ (by_rows (table_of s.now)).count_at object) }
    ensures { (result, out.new) ≡ line_written out.old (list_bytes ((by_rows (table_of s.now)).list_at object)) }
{
    let size = HEAD + FOUR * words_tags::wide(count.0);
    if out.len() <= CHARACTERS * size {
        return Err(TooShort);
    }
    let fields = [line_read::DONE as u32, count.0];
    let at = line_put::put_fields(out, 0, &line_read::TWO_BYTE_WIDTHS, &fields);
    let end = put_values(s, object, count, out, at);
    Ok(line_hex::put_lf(out, end))
}

// Writes the answer to a question. It is asked with no room for a list: 11 then brings the count with which the list is written.
pub fn answer_question(
    s: &[u32],
    object: u32,
    question: u32,
    value: Value,
    out: &mut [u8],
) -> Result<usize, TooShort>
    requires { Checked s.now }
    ensures { (result, out.new) ≡ line_written out.old (reply_bytes (ask (table_of s.now) most_rows (asked_from object question value.0))) }
{
    let mut none = [0u32; 1];
    match question::ask_table(s, object, question, value, &mut none[0..0]) {
        Ok(Reply::Total(high, low)) => line_print::write_sum(out, high, low),
        Ok(Reply::Flag(on)) => line_print::write_flag(out, byte_of(on)),
        Ok(Reply::List(count)) => write_list(s, object, count, out),
        Ok(Reply::Count(number)) => line_print::write_count(out, number.0),
        Ok(Reply::Holds(there)) => line_print::write_flag(out, byte_of(there)),
        Err(Unanswered::Refused(refusal)) => line_print::write_refusal(out, refusal.number()),
        Err(Unanswered::TooLong(count)) => write_list(s, object, count, out),
    }
}
