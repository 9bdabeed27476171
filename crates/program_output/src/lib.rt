// Output lines gathered in a space until they are written: all that the station program says to a line, and all that the second program says to a form.
#![tactic(auto)]

ghost use Rattle.std.specs.Prelude.{◌≡◌, ◌+◌, ◌≤◌, length};
ghost use Rattle.calls.specs.Answers.{longest_answer};
ghost use Rattle.program_output.specs.Gathering.{HasRoom, joined, line_at, pushed, put};

use form_judge::Judged;
use std::io::Stdout;

// The characters of the longest line. Of a longer one so many are kept, which get what the whole line gets (law `line_answered` of `line_decode`).
pub const LINE: usize = line_read::LINE_ROOM;

// The characters of the output that waits to be written at once.
pub const PENDING: usize = 65536;

// The output lines of the longest answer, a saved form: its opening, D, the other last vectors, the totals, the rows, its closing line.
const MOST_LINES: usize = 2 + meaning::MOST_STATIONS - 1
    + meaning::MOST_OBJECTS
    + meaning::MOST_ROWS as usize
    + 1;

// What lines are of: a session, in which each is answered at once, or a saved form, of which so much is known.
#[derive(Clone, Copy)]
pub enum Source {
    Session,
    Form(Judged),
}

// How many characters wait to be written, where they go, and whether the output still takes any.
#[derive(Clone, Copy)]
pub struct Waiting {
    pub count: usize,
    pub to: Stdout,
    pub open: bool,
}

// Writes what waits. Once a write has failed none is tried any more, so that the output has no gaps.
pub fn flush(pending: &[u8], waiting: Waiting) -> Waiting
    requires { waiting.count ≤ length pending.now }
    ensures { result.count ≡ 0 }
{
    let to = waiting.to;
    Waiting {
        count: 0,
        to,
        open: waiting.open && to.write_all(&pending[0..waiting.count]).is_ok(),
    }
}

// The characters of an output line behind those that wait; how many wait then.
fn append(pending: &mut [u8], from: usize, text: &[u8]) -> usize
    requires { from + length text.now ≤ length pending.old }
    ensures { (result, pending.new) ≡ joined pending.old from text.now }
{
    words_moves::put(pending, from, text);
    from + text.len()
}

// An output line joins those that wait. Where there is no room for it, they are written first.
pub fn push(pending: &mut [u8], waiting: Waiting, text: &[u8]) -> Waiting
    requires { HasRoom waiting.count pending.old × (length text.now ≤ longest_answer) }
    ensures { ((result.count, pending.new) ≡ pushed text.now (waiting.count, pending.old))
        × HasRoom result.count pending.new }
{
    if text.len() <= pending.len() - waiting.count {
        return Waiting {
            count: append(pending, waiting.count, text),
            ..waiting
        };
    }
    let written = flush(pending, waiting);
    Waiting {
        count: append(pending, 0, text),
        ..written
    }
}

// The k-th output line, from 0 on, or the end: for a line of a session, or for a form at its end, to which no line matters.
fn output_line(
    space: &mut [u32],
    source: Source,
    line: &[u8],
    k: usize,
    out: &mut [u8; calls::LONGEST_ANSWER],
) -> Option<usize>
    ensures { (result, (space.new, out.new))
        ≡ line_at source line.now k space.old out.old }
{
    match source {
        Source::Session => calls::answer(space, line, k, out),
        Source::Form(known) => form_judge::resave(space, known, k, out),
    }
}

// Every output line for a line of a session, or for a form at its end.
pub fn gather(
    space: &mut [u32],
    source: Source,
    line: &[u8],
    pending: &mut [u8],
    waiting: Waiting,
) -> Waiting
    requires { HasRoom waiting.count pending.old }
    ensures { ((space.new, (result.count, pending.new))
        ≡ put source line.now (space.old, (waiting.count, pending.old)))
        × HasRoom result.count pending.new }
{
    let mut out = [0u8; calls::LONGEST_ANSWER];
    let mut waits = waiting;
    for k in 0..MOST_LINES {
        match output_line(space, source, line, k, &mut out) {
            Some(n) => waits = push(pending, waits, &out[0..n]),
            None => return waits,
        }
    }
    waits
}
