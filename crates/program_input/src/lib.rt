// Input cut into lines for every program: a byte joins the line that goes on, and a line that ends goes to the session or form that it is of.
#![tactic(auto)]

ghost use Rattle.std.specs.Prelude.{false, true, ◌≡◌, length, take};
ghost use Rattle.words_layout.specs.Layout.{most_words};
ghost use Rattle.line_decode.specs.Feeding.{fed, held_fed, held_taken, taken};
ghost use Rattle.line_read.specs.Types.{line_room};
ghost use Rattle.program_output.specs.Gathering.{HasRoom, pending_room};
ghost use Rattle.program_play.specs.Lines.{last_ended, responded};
ghost use Rattle.program_input.specs.Reading.{AfterRead, Read, Ready, WholeLast, WholeResponded};

use program_output::{LINE, PENDING, Source, Waiting};
use program_play::Played;
use std::io;
use std::io::{Stdin, Stdout};
use words_layout::MOST_WORDS;

// So many bytes at most are read at once.
const READ: usize = 65536;

// What is kept from one byte of input to the next: so many characters of a line, and what is played.
#[derive(Clone, Copy)]
pub struct Kept {
    pub have: usize,
    pub part: Played,
}

// One byte of input: it joins the line, and ends it if it is LF. No more is kept than the space holds.
fn take(
    titles: bool,
    space: &mut [u32],
    line: &mut [u8],
    pending: &mut [u8],
    kept: Kept,
    b: u8,
) -> Kept
    requires { Ready kept.have kept.part.waiting.count line.old pending.old }
    ensures { ((result.have, line.new) ≡ taken line.old kept.have b)
        × (((result.part.source, (space.new, (result.part.waiting.count, pending.new)))
        ≡ held_taken (responded titles) line.old kept.have
        (kept.part.source, (space.old, (kept.part.waiting.count, pending.old))) b)
        × Ready result.have result.part.waiting.count line.new pending.new) }
{
    let have = line_hex::keep(line, kept.have, b);
    let part = kept.part;
    if b != line_hex::LF {
        return Kept { have, part };
    }
    let after = program_play::respond(titles, space, &line[0..have], pending, part);
    Kept {
        have: 0,
        part: after,
    }
}

// The bytes of one read. Whole lines get what they get, though the space keeps only so much of a long one.
fn feed(
    titles: bool,
    space: &mut [u32],
    line: &mut [u8],
    pending: &mut [u8],
    from: Kept,
    chunk: &[u8],
) -> Kept
    requires { Ready from.have from.part.waiting.count line.old pending.old }
    ensures { ((result.have, line.new) ≡ fed line.old from.have chunk.now)
        × (((result.part.source, (space.new, (result.part.waiting.count, pending.new)))
        ≡ held_fed (responded titles) line.old from.have
        (from.part.source, (space.old, (from.part.waiting.count, pending.old))) chunk.now)
        × (WholeResponded titles line.old from.have
        (from.part.source, (space.old, (from.part.waiting.count, pending.old))) chunk.now
        (result.part.source, (space.new, (result.part.waiting.count, pending.new)))
        × Ready result.have result.part.waiting.count line.new pending.new)) }
{
    let mut kept = from;
    for b in chunk {
        kept = take(titles, space, line, pending, kept, *b);
    }
    kept
}

// One read, and its bytes: what is kept of input that goes on, or nothing was read. What is put out for the bytes is written before the next read. Once the
// output takes no more, nothing is read.
fn some<R: io::Read>(
    file: &mut R,
    titles: bool,
    space: &mut [u32],
    line: &mut [u8],
    pending: &mut [u8],
    from: Kept,
) -> Option<Kept>
    requires { (length space.old ≡ most_words) × Ready from.have from.part.waiting.count line.old pending.old }
    ensures { AfterRead titles line.old pending.old from.have (from.part.source, space.old)
        line.new pending.new space.new result }
{
    if !from.part.waiting.open {
        return None;
    }
    let mut buffer = [0u8; READ];
    let n = file.read(&mut buffer).unwrap_or(0);
    if n == 0 {
        return None;
    }
    let kept = feed(titles, space, line, pending, from, &buffer[..n]);
    let waiting = program_output::flush(pending, kept.part.waiting);
    Some(Kept {
        have: kept.have,
        part: Played {
            source: kept.part.source,
            waiting,
        },
    })
}

// A whole file, a read at a time.
pub fn read<R: io::Read>(
    file: &mut R,
    titles: bool,
    space: &mut [u32],
    line: &mut [u8],
    pending: &mut [u8],
    from: Kept,
) -> Kept
    requires { (length space.old ≡ most_words) × Ready from.have from.part.waiting.count line.old pending.old }
    ensures { Read titles line.old from.have (from.part.source, space.old)
        line.new result.have (result.part.source, space.new)
        × Ready result.have result.part.waiting.count line.new pending.new }
{
    let mut so_far = from;
    // A loop must end, and nothing says that input does: so many reads no run makes.
    for _ in 0..u64::MAX {
        match some(file, titles, space, line, pending, so_far) {
            Some(more) => so_far = more,
            None => return so_far,
        }
    }
    so_far
}

// Before any input: no character of a line, and no output.
pub fn start(source: Source, to: Stdout) -> Kept
    ensures { (result.have ≡ 0) × ((result.part.source ≡ source) × ((result.part.waiting.count ≡ 0) × (result.part.waiting.open ≡ true))) }
{
    let waiting = Waiting {
        count: 0,
        to,
        open: true,
    };
    Kept {
        have: 0,
        part: Played { source, waiting },
    }
}

// All input is at its end: a last piece without LF is a line too.
pub fn end(titles: bool, space: &mut [u32], line: &[u8], pending: &mut [u8], kept: Kept) -> Waiting
    requires { Ready kept.have kept.part.waiting.count line.now pending.old }
    ensures { ((space.new, (result.count, pending.new))
        ≡ last_ended titles (take kept.have line.now)
        (kept.part.source, (space.old, (kept.part.waiting.count, pending.old))))
        × (WholeLast titles line.now kept.have
        (kept.part.source, (space.old, (kept.part.waiting.count, pending.old)))
        (space.new, (result.count, pending.new))
        × HasRoom result.count pending.new) }
{
    let have = kept.have;
    let part = kept.part;
    if have == 0 {
        return program_play::finish(space, pending, part);
    }
    let last = program_play::respond(titles, space, &line[0..have], pending, part);
    program_play::finish(space, pending, last)
}

// All of standard input, without titles, from its start.
fn read_all(
    mut input: Stdin,
    to: Stdout,
    source: Source,
    space: &mut [u32],
    line: &mut [u8],
    pending: &mut [u8],
) -> Kept
    requires { (length space.old ≡ most_words) × ((length line.old ≡ line_room) × (length pending.old ≡ pending_room)) }
    ensures { Read false line.old 0 (source, space.old)
        line.new result.have (result.part.source, space.new)
        × Ready result.have result.part.waiting.count line.new pending.new }
{
    let first = start(source, to);
    read(&mut input, false, space, line, pending, first)
}

// A whole program on standard input without titles: a session, or a form.
pub fn run(input: Stdin, to: Stdout, source: Source) {
    let mut space = [0u32; MOST_WORDS];
    let mut line = [0u8; LINE];
    let mut pending = [0u8; PENDING];
    let kept = read_all(input, to, source, &mut space, &mut line, &mut pending);
    let last = end(false, &mut space, &line, &mut pending, kept);
    program_output::flush(&pending, last);
}
