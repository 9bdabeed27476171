// A local operation offered to a checked table in lent words: the refusal that it gets, its vector, and what it changes where it is accepted. Refusal 10, of
// the space for its frame, is tried by the caller before anything is changed.
#![tactic(auto)]

ghost use Rattle.std.specs.Prelude.{◌≡◌};
ghost use Rattle.meaning.specs.Order.{raised};
ghost use Rattle.meaning.specs.Table.{greatest_size};
ghost use Rattle.meaning.specs.Refusals.{first_of, issued_by, issue_refusals, refusal_of_local};
ghost use Rattle.meaning.specs.Calls.{after_arrival};
ghost use Rattle.words_layout.specs.Words.{padded};
ghost use Rattle.words_layout.specs.Layout.{own_in, rewritten, size_in, table_of};
ghost use Rattle.table_change.specs.Changes.{EntryBelowLimit};
ghost use Rattle.table_rules.specs.Checked.{Checked};
ghost use Rattle.refusal_number.specs.Numbers.{refused};
ghost use Rattle.refusal_order.specs.Fields.{local_from};

use refusal_number::Refusal;
use words_layout::{CLOCK_AT, COUNT_AT, KINDS_AT, OBJECTS_AT, OWN_AT, SIZE_AT};
use words_tags::{RowCount, Station, Value};

// The first refusal of 3, 4 and 9, which ask the header and D alone.
fn early_refusal(
    s: &[u32],
    size: usize,
    object: u32,
    code: u32,
    value: Value,
) -> Result<(), Refusal>
    requires { Checked s.now × (size ≡ size_in s.now) }
    ensures { refused result ≡ first_of (issue_refusals (table_of s.now).header (table_of s.now).clock (local_from object code value.0)) }
{
    let h = refusal_order::header_in(s);
    let end = KINDS_AT + words_tags::wide(s[OBJECTS_AT]);
    let last = CLOCK_AT + size;
    refusal_order::issue_refusal(
        h,
        &s[KINDS_AT..end],
        &s[CLOCK_AT..last],
        object,
        code,
        value,
    )
}

// The vector of the next own operation, D with the own entry one higher, and zeros behind it.
pub fn next_vector(s: &[u32]) -> [u32; meaning::MOST_STATIONS]
    requires { Checked s.now × EntryBelowLimit (table_of s.now) (own_in s.now) }
    ensures { result ≡ padded greatest_size (raised (table_of s.now).clock (own_in s.now)) }
{
    let end = CLOCK_AT + words_tags::wide(s[SIZE_AT]);
    let own = Station(s[OWN_AT]);
    let mut next = [0u32; meaning::MOST_STATIONS];
    words_moves::put(&mut next, 0, &s[CLOCK_AT..end]);
    words_tags::advance(&mut next, own);
    next
}

// The refusal that a local operation gets, but for 10: 3, 4 and 9, then 8; nothing is changed.
pub fn issue_number(s: &[u32], object: u32, code: u32, value: Value) -> Result<(), Refusal>
    requires { Checked s.now }
    ensures { refused result ≡ refusal_of_local (table_of s.now) (local_from object code value.0) }
{
    let size = words_tags::wide(s[SIZE_AT]);
    let count = RowCount(s[COUNT_AT]);
    let own = Station(s[OWN_AT]);
    match early_refusal(s, size, object, code, value) {
        Ok(()) => {
            let offered = arrival::arrival_of(s, object, code, value, own);
            let next = next_vector(s);
            if arrival::has_room(s, size, count, offered, &next[0..size]) {
                Ok(())
            } else {
                Err(Refusal::Full)
            }
        }
        Err(refusal) => Err(refusal),
    }
}

// Takes an accepted local operation: it arrives with its vector, and L stays.
pub fn take_local(s: &mut [u32], object: u32, code: u32, value: Value)
    requires { Checked s.old × (refusal_of_local (table_of s.old) (local_from object code value.0) ≡ 0) }
    ensures { s.new ≡ rewritten s.old (after_arrival (table_of s.old) (issued_by (table_of s.old) (local_from object code value.0)) (table_of s.old).last) }
{
    let size = words_tags::wide(s[SIZE_AT]);
    let count = RowCount(s[COUNT_AT]);
    let own = Station(s[OWN_AT]);
    let issued = arrival::arrival_of(s, object, code, value, own);
    let next = next_vector(s);
    arrival::arrive(s, size, count, issued, &next[0..size]);
}
