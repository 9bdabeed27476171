// Lines written straight into a lent space, by the widths of their fields.
#![tactic(auto)]

ghost use Rattle.std.specs.Prelude.{◌≡◌, [], ◌+◌, ◌*◌, ◌≤◌, length};
ghost use Rattle.refusal_number.specs.declared.Refusal.TheVariants.{NoRoom};
ghost use Rattle.line_hex.specs.Putting.{put_at};
ghost use Rattle.line_shape.specs.Shapes.{length_of, written};
ghost use Rattle.line_put.specs.Writing.{line_bytes, line_written, Writable, written_each};

use refusal_number::Refusal;
use std::fmt;

// The space is too short for a line, and nothing was written.
#[derive(Clone, Copy, Debug, PartialEq, Eq)]
pub struct TooShort;

impl fmt::Display for TooShort {
    fn fmt<W: fmt::Write>(&self, f: &mut fmt::Formatter<W>) -> fmt::Result {
        f.write_str("the space is shorter than the line")
    }
}

impl std::error::Error for TooShort {}

// A call refuses a space that is too short.
impl From<TooShort> for Refusal {
    ghost from_gives = { λ _ refusal. refusal ≡ NoRoom };

    fn from(_short: TooShort) -> Refusal {
        Refusal::NoRoom
    }
}

// Writes fields as digits at a place, each at its width; the place behind them.
pub fn put_fields(out: &mut [u8], at: usize, widths: &[u8], fields: &[u32]) -> usize
    requires { (length fields.now ≡ length widths.now) × (at + 2 * length_of widths.now ≤ length out.old) }
    ensures { (result, out.new) ≡ put_at out.old at (written widths.now fields.now) }
{
    let mut to = at;
    for (width, field) in widths.iter().zip(fields) {
        to = line_hex::put_number(out, to, *field, usize::from(*width));
    }
    to
}

// Writes numbers of one width as digits at a place; the place behind them.
pub fn put_each(out: &mut [u8], at: usize, width: usize, numbers: &[u32]) -> usize
    requires { at + 2 * (width * length numbers.now) ≤ length out.old }
    ensures { (result, out.new) ≡ put_at out.old at (written_each width numbers.now) }
{
    let mut to = at;
    for number in numbers {
        to = line_hex::put_number(out, to, *number, width);
    }
    to
}

// Writes a line: its fields, then the numbers behind them, each at one width, then LF; the number of its characters, LF included.
pub fn write_fields(
    out: &mut [u8],
    widths: &[u8],
    fields: &[u32],
    width: usize,
    numbers: &[u32],
) -> Result<usize, TooShort>
    requires { Writable widths.now fields.now width numbers.now }
    ensures { (result, out.new) ≡ line_written out.old (line_bytes widths.now fields.now width numbers.now) }
{
    let size = line_shape::length_of(widths) + width * numbers.len();
    if out.len() <= 2 * size {
        return Err(TooShort);
    }
    let at = put_fields(out, 0, widths, fields);
    let end = put_each(out, at, width, numbers);
    Ok(line_hex::put_lf(out, end))
}

// Writes a line with nothing behind its fields.
pub fn write_alone(out: &mut [u8], widths: &[u8], fields: &[u32]) -> Result<usize, TooShort>
    requires { Writable widths.now fields.now 4 [] }
    ensures { (result, out.new) ≡ line_written out.old (line_bytes widths.now fields.now 4 []) }
{
    write_fields(out, widths, fields, line_shape::FOUR, &fields[0..0])
}
