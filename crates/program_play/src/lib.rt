// A line played: what it does to the session or form that it is of. Where input has titles, a title ends one and starts the next.
#![tactic(auto)]

ghost use Rattle.std.specs.Prelude.{◌&&◌, ◌≡◌, ◌≤◌, length};
ghost use Rattle.calls.specs.Answers.{longest_answer};
ghost use Rattle.program_output.specs.Gathering.{HasRoom};
ghost use Rattle.program_play.specs.Lines.{begins, ended, is_title, played, responded, turned};

use form_judge::Judged;
use program_output::{Source, Waiting};

// A title begins so, and has this behind it where it starts a form.
const TITLE: [u8; 2] = [b'-', b'-'];

const FORM: u8 = b'f';

// What lines are of, and the output that waits.
#[derive(Clone, Copy)]
pub struct Played {
    pub source: Source,
    pub waiting: Waiting,
}

// Whether a line is the title of the next session or form. Only input of many has titles.
fn is_title(titles: bool, line: &[u8]) -> bool
    ensures { result ≡ (titles && is_title line.now) }
{
    titles && line.starts_with(&TITLE)
}

// What a title starts.
fn begin(title: &[u8]) -> Source
    ensures { result ≡ begins title.now }
{
    if title.len() < 3 {
        return Source::Session;
    }
    if title[2] == FORM {
        return Source::Form(Judged::Open);
    }
    Source::Session
}

// A session or form is at its end, and a form is printed.
pub fn finish(space: &mut [u32], pending: &mut [u8], part: Played) -> Waiting
    requires { HasRoom part.waiting.count pending.old }
    ensures { ((space.new, (result.count, pending.new))
        ≡ ended (part.source, (space.old, (part.waiting.count, pending.old))))
        × HasRoom result.count pending.new }
{
    match part.source {
        Source::Session => part.waiting,
        Source::Form(known) => {
            let whole = form_judge::judge_end(space, known);
            program_output::gather(space, Source::Form(whole), &[], pending, part.waiting)
        }
    }
}

// A title, put out as it was kept: the next station begins with zeros.
fn turn(space: &mut [u32], title: &[u8], pending: &mut [u8], part: Played) -> Played
    requires { HasRoom part.waiting.count pending.old × (length title.now ≤ longest_answer) }
    ensures { ((result.source, (space.new, (result.waiting.count, pending.new)))
        ≡ turned title.now (part.source, (space.old, (part.waiting.count, pending.old))))
        × HasRoom result.waiting.count pending.new }
{
    let last = finish(space, pending, part);
    let waiting = program_output::push(pending, last, title);
    space.fill(0);
    Played {
        source: begin(title),
        waiting,
    }
}

// A line of a session or form.
fn play(space: &mut [u32], line: &[u8], pending: &mut [u8], part: Played) -> Played
    requires { HasRoom part.waiting.count pending.old }
    ensures { ((result.source, (space.new, (result.waiting.count, pending.new)))
        ≡ played line.now (part.source, (space.old, (part.waiting.count, pending.old))))
        × HasRoom result.waiting.count pending.new }
{
    match part.source {
        Source::Session => Played {
            source: Source::Session,
            waiting: program_output::gather(space, Source::Session, line, pending, part.waiting),
        },
        Source::Form(known) => Played {
            source: Source::Form(form_judge::judge(space, line, known)),
            waiting: part.waiting,
        },
    }
}

// A line, which may be a title.
pub fn respond(
    titles: bool,
    space: &mut [u32],
    line: &[u8],
    pending: &mut [u8],
    part: Played,
) -> Played
    requires { HasRoom part.waiting.count pending.old × (length line.now ≤ longest_answer) }
    ensures { ((result.source, (space.new, (result.waiting.count, pending.new)))
        ≡ responded titles line.now (part.source, (space.old, (part.waiting.count, pending.old))))
        × HasRoom result.waiting.count pending.new }
{
    if is_title(titles, line) {
        return turn(space, line, pending, part);
    }
    play(space, line, pending, part)
}
