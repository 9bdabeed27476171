// A fresh table laid in lent words.
#![tactic(auto)]

ghost use Rattle.std.specs.Prelude.{◌≡◌, true, ◌++◌, ◌+◌, ◌≤◌, length, drop};
ghost use Rattle.std.proofs.Math.Seq.{paste};
ghost use Rattle.meaning.specs.Table.{in_range, opened};
ghost use Rattle.words_layout.specs.Layout.{kinds_at, space_for, words_of};
ghost use Rattle.table_ranges.specs.Headers.{header_of};
ghost use Rattle.table_opening.specs.Opening.{headed};

use words_layout::{KINDS_AT, TABLE_MARK};
use words_tags::{RowCount, Station};

// Writes the kind of each object.
fn put_kinds(s: &mut [u32], kinds: &[u8])
    requires { kinds_at + length kinds.now ≤ length s.old }
    ensures { s.new ≡ paste s.old kinds_at kinds.now (length kinds.now) }
{
    for i in 0..kinds.len() {
        s[KINDS_AT + i] = u32::from(kinds[i]);
    }
}

// Writes a head and the kinds behind it, with zeros up to a place.
fn lay(s: &mut [u32], head: &[u32], kinds: &[u8], needed: usize)
    requires { (length head.now ≡ kinds_at) × (kinds_at + length kinds.now ≤ needed) × (needed ≤ length s.old) }
    ensures { s.new ≡ headed head.now kinds.now needed s.old }
{
    words_moves::clear(s, 0, needed);
    words_moves::put(s, 0, head);
    put_kinds(s, kinds);
}

// Lays a fresh table: D, every L, the totals and the rows all zero. What lies beyond it stays.
pub fn lay_table(s: &mut [u32], size: u32, own: Station, capacity: RowCount, kinds: &[u8])
    requires { (in_range (header_of size own.0 capacity.0 kinds.now) ≡ true) × (space_for size capacity.0 ≤ length s.old) }
    ensures { s.new ≡ words_of (opened (header_of size own.0 capacity.0 kinds.now)) ++ drop (space_for size capacity.0) s.old }
{
    let needed = table_ranges::space_for(words_tags::wide(size), capacity);
    let objects = kinds.len() as u32;
    let head = [TABLE_MARK, size, own.0, capacity.0, objects, 0, 0];
    lay(s, &head, kinds, needed);
}
