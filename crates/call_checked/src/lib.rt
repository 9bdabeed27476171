// Lines to a table that was checked, and the line that opens one: read, tried in 01's order, answered. A refusal changes nothing.
#![tactic(auto)]

ghost use Rattle.std.specs.Prelude.{◌≡◌, ◌≤◌, length, take};
ghost use Rattle.meaning.specs.Calls.{issue, open_table, receive};
ghost use Rattle.words_layout.specs.Layout.{space_for, table_of};
ghost use Rattle.table_rules.specs.Checked.{Checked};
ghost use Rattle.table_ranges.specs.Headers.{header_of};
ghost use Rattle.refusal_number.specs.Numbers.{numbered};
ghost use Rattle.question.specs.Replies.{told};
ghost use Rattle.call_checked.specs.Called.{frame_of, issued_as, issued_on, local_of, opened_as, opened_by, received_as, received_on, replied_on, settled_on};
ghost use Rattle.meaning.specs.Table.{greatest_size};

use question::{Reply, Unanswered};
use refusal_number::Refusal;
use refusal_order::{Header, Sent};
use words_tags::{RowCount, Station, Value};

// Opens a table with these numbers and kinds, if they are in range and the space is large enough.
fn open_with(space: &mut [u32], asked: line_read::Opening, kinds: &[u8]) -> Result<(), Refusal>
    ensures { (numbered result, space.new) ≡ opened_as space.old (open_table (length space.old) (space_for asked.stations asked.capacity) (header_of asked.stations asked.own asked.capacity kinds.now)) }
{
    let own = Station(asked.own);
    let capacity = RowCount(asked.capacity);
    let h = Header {
        size: asked.stations,
        own,
        capacity,
    };
    match refusal_order::opening_refusal(h, kinds, space.len()) {
        Ok(()) => {
            table_opening::lay_table(space, asked.stations, own, capacity, kinds);
            Ok(())
        }
        Err(refusal) => Err(refusal),
    }
}

// "opening 1, 13": any space will do, one that holds a table too.
pub fn open_line(space: &mut [u32], line: &[u8]) -> Result<(), Refusal>
    ensures { (numbered result, space.new) ≡ opened_by line.now space.old }
{
    let mut bytes = [0u8; line_read::LONGEST];
    let n = line_decode::decode_line(line, &mut bytes);
    match line_read::read_opening(&bytes[0..n]) {
        Some(asked) => open_with(space, asked, &bytes[line_read::KINDS_PLACE..n]),
        None => Err(Refusal::Misshapen),
    }
}

// A frame that was read from its line.
fn receive_read(space: &mut [u32], f: line_read::Operation) -> Result<(), Refusal>
    requires { Checked space.old × (f.stations ≤ greatest_size) × (length (take f.stations f.vector) ≡ f.stations) }
    ensures { (numbered result, space.new) ≡ received_as space.old (receive (table_of space.old) (frame_of f)) }
{
    if f.stations != space[words_layout::SIZE_AT] {
        return Err(Refusal::Misshapen);
    }
    let sent = Sent {
        sender: Station(f.sender),
        object: f.object,
        code: f.code,
        value: Value(f.value),
    };
    let end = words_tags::wide(f.stations);
    arrival_frame::receive_frame(space, sent, &f.vector[0..end])?;
    Ok(())
}

// A frame's line to a table that was checked.
pub fn receive_line(space: &mut [u32], line: &[u8]) -> Result<(), Refusal>
    requires { Checked space.old }
    ensures { (numbered result, space.new) ≡ received_on line.now space.old }
{
    match line_decode::operation(line) {
        Some(f) => receive_read(space, f),
        None => Err(Refusal::Misshapen),
    }
}

// A local operation that was read from its line: its frame is written before the table takes it, so that a short space changes nothing.
fn issue_read(space: &mut [u32], f: line_read::Issue, out: &mut [u8]) -> Result<usize, Refusal>
    requires { Checked space.old }
    ensures { (numbered result, (space.new, out.new)) ≡ issued_as space.old out.old (issue (table_of space.old) (local_of f)) }
{
    arrival_local::issue_number(space, f.object, f.code, Value(f.value))?;
    let size = words_tags::wide(space[words_layout::SIZE_AT]);
    let own = space[words_layout::OWN_AT];
    let vector = arrival_local::next_vector(space);
    match line_print::write_operation(out, own, f.object, f.code, f.value, &vector[0..size]) {
        Ok(characters) => {
            arrival_local::take_local(space, f.object, f.code, Value(f.value));
            Ok(characters)
        }
        Err(_) => Err(Refusal::NoRoom),
    }
}

// An issue's line to a table that was checked.
pub fn issue_line(space: &mut [u32], line: &[u8], out: &mut [u8]) -> Result<usize, Refusal>
    requires { Checked space.old }
    ensures { (numbered result, (space.new, out.new)) ≡ issued_on line.now space.old out.old }
{
    match line_decode::issue(line) {
        Some(f) => issue_read(space, f, out),
        None => Err(Refusal::Misshapen),
    }
}

// A settling line to a table that was checked.
pub fn settle_line(space: &mut [u32], line: &[u8]) -> Result<RowCount, Refusal>
    requires { Checked space.old }
    ensures { (numbered result, space.new) ≡ settled_on line.now space.old }
{
    match line_decode::settling(line) {
        Some(asked) => Ok(settling::settle_table(space, RowCount(asked.limit))),
        None => Err(Refusal::Misshapen),
    }
}

// A question to a table that was checked.
pub fn ask_line(space: &[u32], line: &[u8], out: &mut [u32]) -> Result<Reply, Unanswered>
    requires { Checked space.now }
    ensures { (told result, out.new) ≡ replied_on line.now space.now out.old }
{
    match line_decode::question(line) {
        Some(asked) => {
            question::ask_table(space, asked.object, asked.question, Value(asked.value), out)
        }
        None => Err(Unanswered::Refused(Refusal::Misshapen)),
    }
}
