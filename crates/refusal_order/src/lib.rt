// The refusals of frames, local operations, questions and openings, in the order in which they are tried. They ask the header, D and L alone, so that frames
// can be tried without any rows. Refusals 14, 8, 10, 11, and 1 of a line or of a frame's N, are tried where there are lines and rows.
#![tactic(auto)]

ghost use Rattle.std.specs.Prelude.{◌≡◌, ◌*◌, ◌≤◌, length};
ghost use Rattle.meaning.specs.Refusals.{asked_refusals, first_of, frame_refusals, issue_refusals, opening_refusals};
ghost use Rattle.words_layout.specs.Words.{pieces};
ghost use Rattle.words_layout.specs.Layout.{capacity_in, clock_at, own_in, size_in, space_for};
ghost use Rattle.refusal_number.specs.Numbers.{refused};
ghost use Rattle.refusal_kind.specs.Asking.{asked_from};
ghost use Rattle.refusal_order.specs.Fields.{frame_from, header_from, header_of_kinds, is_stranger, local_from};
ghost use Rattle.meaning.specs.Table.{greatest_size};

use refusal_number::Refusal;
use words_layout::{CAPACITY_AT, OWN_AT, SIZE_AT};
use words_tags::{RowCount, Station, Value};

// What an opening fixes beside the kinds, which are lent.
#[derive(Clone, Copy)]
pub struct Header {
    pub size: u32,
    pub own: Station,
    pub capacity: RowCount,
}

// What a frame carries beside its vector, which is lent.
#[derive(Clone, Copy)]
pub struct Sent {
    pub sender: Station,
    pub object: u32,
    pub code: u32,
    pub value: Value,
}

// The numbers of a table's header, from its words.
pub fn header_in(s: &[u32]) -> Header
    requires { clock_at ≤ length s.now }
    ensures { (result.size ≡ size_in s.now) × (result.own.0 ≡ own_in s.now) × (result.capacity.0 ≡ capacity_in s.now) }
{
    Header {
        size: s[SIZE_AT],
        own: Station(s[OWN_AT]),
        capacity: RowCount(s[CAPACITY_AT]),
    }
}

// Whether a sender is no other station of the group: outside of it, or the own one.
fn is_stranger(sender: Station, size: u32, own: Station) -> bool
    ensures { result ≡ is_stranger sender.0 size own.0 }
{
    size <= sender.0 || sender.0 == own.0
}

// The refusal of a frame, 2 to 7. Every test is made on every frame, so that the order in which they are tried is that of the returns alone.
pub fn frame_refusal(
    h: Header,
    kinds: &[u32],
    clock: &[u32],
    lasts: &[u32],
    f: Sent,
    v: &[u32],
) -> Result<(), Refusal>
    requires { (length clock.now ≡ h.size) × (length v.now ≡ h.size) × (h.size * h.size ≤ length lasts.now) × (h.size ≤ greatest_size) }
    ensures { refused result ≡ first_of (frame_refusals (header_from h kinds.now) clock.now (pieces h.size h.size lasts.now) (frame_from f v.now)) }
{
    let stranger = is_stranger(f.sender, h.size, h.own);
    let undeclared = !refusal_kind::is_declared(kinds, f.object);
    let forbidden = !refusal_kind::is_allowed(
        table_kinds::kind_of(kinds, f.object),
        f.code,
        f.value,
    );
    let known = refusal_time::is_known(v, clock, f.sender);
    let early = !refusal_time::in_time(v, clock, f.sender);
    let falling = !refusal_time::keeps_rising(lasts, v, f.sender);
    if stranger {
        return Err(Refusal::Stranger);
    }
    if undeclared {
        return Err(Refusal::Undeclared);
    }
    if forbidden {
        return Err(Refusal::Forbidden);
    }
    if known {
        return Err(Refusal::Known);
    }
    if early {
        return Err(Refusal::Early);
    }
    if falling {
        return Err(Refusal::Falling);
    }
    Ok(())
}

// The refusal of a local operation, 3, 4 and 9.
pub fn issue_refusal(
    h: Header,
    kinds: &[u32],
    clock: &[u32],
    object: u32,
    code: u32,
    value: Value,
) -> Result<(), Refusal>
    ensures { refused result ≡ first_of (issue_refusals (header_from h kinds.now) clock.now (local_from object code value.0)) }
{
    let declared = refusal_kind::is_declared(kinds, object);
    let allowed = refusal_kind::is_allowed(table_kinds::kind_of(kinds, object), code, value);
    let last = refusal_time::is_last(clock, h.own);
    if !declared {
        return Err(Refusal::Undeclared);
    }
    if !allowed {
        return Err(Refusal::Forbidden);
    }
    if last {
        return Err(Refusal::Last);
    }
    Ok(())
}

// The refusal of a question, 1, 3 and 12.
pub fn question_refusal(
    kinds: &[u32],
    object: u32,
    question: u32,
    value: Value,
) -> Result<(), Refusal>
    ensures { refused result ≡ first_of (asked_refusals (header_of_kinds kinds.now) (asked_from object question value.0)) }
{
    let well_asked = refusal_kind::well_asked(question, value);
    let object_declared = refusal_kind::is_declared(kinds, object);
    let fitted = refusal_kind::is_fitted(question, table_kinds::kind_of(kinds, object));
    if !well_asked {
        return Err(Refusal::Misshapen);
    }
    if !object_declared {
        return Err(Refusal::Undeclared);
    }
    if !fitted {
        return Err(Refusal::Unfitted);
    }
    Ok(())
}

// The refusal of an opening, 13: for any numbers, so the space is computed only where they are in range.
pub fn opening_refusal(h: Header, kinds: &[u8], space: usize) -> Result<(), Refusal>
    ensures { refused result ≡ first_of (opening_refusals space (space_for h.size h.capacity.0) (header_from h kinds.now)) }
{
    let fits = table_ranges::header_ok(h.size, h.own, h.capacity, kinds)
        && table_ranges::space_for(words_tags::wide(h.size), h.capacity) <= space;
    if fits { Ok(()) } else { Err(Refusal::Unopened) }
}
