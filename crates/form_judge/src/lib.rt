// A saved form judged a line at a time: whether it is one, and what the second program prints in the end. Any words will do, and any line.
#![tactic(auto)]

ghost use Rattle.std.specs.Prelude.{◌≡◌};
ghost use Rattle.refusal_number.specs.Numbers.{numbered};
ghost use Rattle.form_judge.specs.Judging.{judged_as, judged_by, judged_end, resaved_by};

use form_take::Loaded;
use refusal_number::Refusal;

// The line that asks for the form.
const PRINT: [u8; 3] = [b'6', b'0', line_hex::LF];

// What is known of a form so far: it goes on, it is closed and its table there, or the number of its first refusal.
#[derive(Clone, Copy)]
pub enum Judged {
    Open,
    Closed,
    Refused(u32),
}

// What a line of a form says of the whole of it.
#[tactic(auto, unfolding(crate::specs::Judging::judged_as))]
fn verdict(loaded: Result<Loaded, Refusal>) -> Judged
    ensures { result ≡ judged_as (numbered loaded) }
{
    match loaded {
        Ok(Loaded::Taken) => Judged::Open,
        Ok(Loaded::Table) => Judged::Closed,
        Err(refusal) => Judged::Refused(refusal.number()),
    }
}

// The next line of a form. After the first refusal nothing is read any more, and nothing may follow the closing line.
pub fn judge(space: &mut [u32], line: &[u8], before: Judged) -> Judged
    ensures { (result, space.new) ≡ judged_by line.now (before, space.old) }
{
    match before {
        Judged::Open => verdict(form_load::load_line(space, line)),
        Judged::Closed => Judged::Refused(Refusal::Wrong.number()),
        Judged::Refused(number) => Judged::Refused(number),
    }
}

// The end of a form, which its closing line must have reached.
pub fn judge_end(space: &mut [u32], before: Judged) -> Judged
    ensures { (result, space.new) ≡ judged_end (before, space.old) }
{
    match before {
        Judged::Open => {
            // The table, if one is there, is not the form's.
            let _ = form_load::load_end(space);
            Judged::Refused(Refusal::Wrong.number())
        }
        Judged::Closed => Judged::Closed,
        Judged::Refused(number) => Judged::Refused(number),
    }
}

// The k-th output line of the second program, from 0 on, or the end: of the form again, or of its refusal. A form that goes on prints nothing yet.
pub fn resave(
    space: &mut [u32],
    before: Judged,
    k: usize,
    out: &mut [u8; calls::LONGEST_ANSWER],
) -> Option<usize>
    ensures { (result, (space.new, out.new)) ≡ resaved_by before k space.old out.old }
{
    match before {
        Judged::Open => None,
        Judged::Closed => calls::answer(space, &PRINT, k, out),
        Judged::Refused(number) => call_answer::refuse_at(number, k, out),
    }
}
