// Questions to a table that was checked: what is refused, and what is answered from its totals and rows.
#![tactic(auto)]

ghost use Rattle.std.specs.Prelude.{◌≡◌, [], ◌∷◌, ◌<◌, length};
ghost use Rattle.meaning.specs.Questions.{by_rows};
ghost use Rattle.meaning.specs.Calls.{ask};
ghost use Rattle.meaning.specs.Refusals.{asked_refusals, first_of};
ghost use Rattle.words_layout.specs.Layout.{objects_in, table_of, total_words};
ghost use Rattle.refusal_kind.specs.Asking.{asked_from};
ghost use Rattle.table_rules.specs.Checked.{Checked};
ghost use Rattle.question.specs.Replies.{list_reply, replied, told};
ghost use Rattle.question.specs.declared.Unanswered.TheVariants as no;

use refusal_kind::Asks;
use refusal_number::Refusal;
use std::error::Error;
use std::fmt;
use table_change::Total;
use words_layout::{KINDS_AT, OBJECTS_AT, TOTAL_WORDS, TOTALS_AT};
use words_tags::{RowCount, Value};

// What a question is answered; a list stands in the space, and its length here.
#[derive(Clone, Copy, Debug, PartialEq, Eq)]
pub enum Reply {
    Total(u32, u32),
    Flag(bool),
    List(RowCount),
    Count(RowCount),
    Holds(bool),
}

// Why a question is not answered: a refusal, or 11 with the needed count.
#[derive(Clone, Copy, Debug, PartialEq, Eq)]
pub enum Unanswered {
    Refused(Refusal),
    TooLong(RowCount),
}

impl From<Refusal> for Unanswered {
    ghost from_gives = { λ refusal e. e ≡ no.Refused refusal };

    fn from(refusal: Refusal) -> Unanswered {
        Unanswered::Refused(refusal)
    }
}

impl fmt::Display for Unanswered {
    fn fmt<W: fmt::Write>(&self, f: &mut fmt::Formatter<W>) -> fmt::Result {
        match self {
            Unanswered::Refused(refusal) => write!(f, "{refusal}"),
            Unanswered::TooLong(needed) => write!(f, "the list has {} values", needed.0),
        }
    }
}

impl Error for Unanswered {}

// What a flag is asked for: it is on where this is in.
const ON: u32 = 0;

// The total of an object, in its two words.
pub fn total_of(s: &[u32], object: u32) -> Total
    requires { Checked s.now × (object < objects_in s.now) }
    ensures { result.0 ∷ result.1 ∷ [] ≡ total_words ((by_rows (table_of s.now)).total_at object) }
{
    let at = TOTALS_AT + words_tags::wide(object) * TOTAL_WORDS;
    Total(s[at], s[at + 1])
}

// The list of an object, where it is asked for and nothing but its length can refuse it. It is counted first, so that 11 leaves the space alone.
fn list_reply(s: &[u32], object: u32, out: &mut [u32]) -> Result<Reply, Unanswered>
    requires { Checked s.now }
    ensures { (told result, out.new) ≡ replied (list_reply (table_of s.now) object (length out.old)) out.old }
{
    let count = question_list::count_in(s, object);
    if out.len() < words_tags::wide(count.0) {
        return Err(Unanswered::TooLong(count));
    }
    question_list::list_into(s, object, count, out);
    Ok(Reply::List(count))
}

// The answer to a question that passes 1, 3 and 12: 11, or what is asked.
fn answer_passed(
    s: &[u32],
    object: u32,
    question: u32,
    value: Value,
    out: &mut [u32],
) -> Result<Reply, Unanswered>
    requires table { Checked s.now }
    requires passes { first_of (asked_refusals (table_of s.now).header (asked_from object question value.0)) ≡ 0 }
    ensures { (told result, out.new) ≡ replied (ask (table_of s.now) (length out.old) (asked_from object question value.0)) out.old }
{
    match Asks::try_from(question) {
        Ok(Asks::Total) => {
            let total = total_of(s, object);
            Ok(Reply::Total(total.0, total.1))
        }
        Ok(Asks::Flag) => Ok(Reply::Flag(question_list::is_in(s, object, Value(ON)))),
        Ok(Asks::List) => list_reply(s, object, out),
        Ok(Asks::Count) => Ok(Reply::Count(question_list::count_in(s, object))),
        Ok(Asks::Holds) => Ok(Reply::Holds(question_list::is_in(s, object, value))),
        Err(_) => unreachable!(),
    }
}

// A question to a table: refusals 1, 3 and 12, then 11, or its answer.
pub fn ask_table(
    s: &[u32],
    object: u32,
    question: u32,
    value: Value,
    out: &mut [u32],
) -> Result<Reply, Unanswered>
    requires { Checked s.now }
    ensures { (told result, out.new) ≡ replied (ask (table_of s.now) (length out.old) (asked_from object question value.0)) out.old }
{
    let end = KINDS_AT + words_tags::wide(s[OBJECTS_AT]);
    match refusal_order::question_refusal(&s[KINDS_AT..end], object, question, value) {
        Ok(()) => answer_passed(s, object, question, value, out),
        Err(refusal) => Err(Unanswered::Refused(refusal)),
    }
}
