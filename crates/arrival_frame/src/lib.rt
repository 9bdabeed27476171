// A frame offered to a checked table in lent words: the refusal that it gets, and what it changes where it is accepted.
#![tactic(auto)]

ghost use Rattle.std.specs.Prelude.{◌≡◌, length, set};
ghost use Rattle.meaning.specs.Refusals.{first_of, frame_refusals, refusal_of_frame};
ghost use Rattle.meaning.specs.Calls.{after_arrival};
ghost use Rattle.words_layout.specs.Layout.{rewritten, size_in, table_of};
ghost use Rattle.table_rules.specs.Checked.{Checked};
ghost use Rattle.refusal_number.specs.Numbers.{refused};
ghost use Rattle.refusal_order.specs.Fields.{frame_from};
ghost use Rattle.arrival_frame.specs.Receiving.{received_by};

use refusal_number::Refusal;
use refusal_order::Sent;
use words_layout::{CLOCK_AT, COUNT_AT, KINDS_AT, OBJECTS_AT, SIZE_AT};
use words_tags::RowCount;

// The first refusal of 1 to 7, which ask the header, D and L alone.
fn early_refusal(s: &[u32], size: usize, f: Sent, v: &[u32]) -> Result<(), Refusal>
    requires { Checked s.now × (size ≡ size_in s.now) × (length v.now ≡ size) }
    ensures { refused result ≡ first_of (frame_refusals (table_of s.now).header (table_of s.now).clock (table_of s.now).last (frame_from f v.now)) }
{
    let h = refusal_order::header_in(s);
    let end = KINDS_AT + words_tags::wide(s[OBJECTS_AT]);
    let last = CLOCK_AT + size;
    refusal_order::frame_refusal(h, &s[KINDS_AT..end], &s[CLOCK_AT..last], &s[last..], f, v)
}

// The refusal that a frame gets: 1 to 7, then 8; nothing is changed.
pub fn frame_number(s: &[u32], f: Sent, v: &[u32]) -> Result<(), Refusal>
    requires { Checked s.now × (length v.now ≡ size_in s.now) }
    ensures { refused result ≡ refusal_of_frame (table_of s.now) (frame_from f v.now) }
{
    let size = words_tags::wide(s[SIZE_AT]);
    let count = RowCount(s[COUNT_AT]);
    early_refusal(s, size, f, v)?;
    let a = arrival::arrival_of(s, f.object, f.code, f.value, f.sender);
    if arrival::has_room(s, size, count, a, v) {
        Ok(())
    } else {
        Err(Refusal::Full)
    }
}

// Takes an accepted frame: its vector is the last of its sender, and its operation arrives.
pub fn take_frame(s: &mut [u32], f: Sent, v: &[u32])
    requires { Checked s.old × (length v.now ≡ size_in s.old) × (refusal_of_frame (table_of s.old) (frame_from f v.now) ≡ 0) }
    ensures { s.new ≡ rewritten s.old (after_arrival (table_of s.old) (frame_from f v.now).operation (set (table_of s.old).last f.sender.0 v.now)) }
{
    let size = words_tags::wide(s[SIZE_AT]);
    let count = RowCount(s[COUNT_AT]);
    let a = arrival::arrival_of(s, f.object, f.code, f.value, f.sender);
    table_change::write_last(s, size, count, f.sender, v);
    arrival::arrive(s, size, count, a, v);
}

// Receives a frame: a refusal leaves every word as it was.
pub fn receive_frame(s: &mut [u32], f: Sent, v: &[u32]) -> Result<(), Refusal>
    requires { Checked s.old × (length v.now ≡ size_in s.old) }
    ensures { (refused result, s.new) ≡ received_by s.old (frame_from f v.now) }
{
    match frame_number(s, f, v) {
        Ok(()) => {
            take_frame(s, f, v);
            Ok(())
        }
        Err(refusal) => Err(refusal),
    }
}
