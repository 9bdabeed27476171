// Characters and bytes: a line of lower-case hexadecimal with its LF read to bytes, and numbers written as its digits.
#![tactic(auto)]

ghost use Rattle.std.specs.Prelude.{◌≡◌, ◌+◌, ◌*◌, ◌%◌, ◌≤◌, ◌<◌, drop, length};
ghost use Rattle.line_hex.specs.Decoding.{decoded, ended_at, line_type, pair_of};
ghost use Rattle.line_hex.specs.Hex.{digit_of, digit_value};
ghost use Rattle.line_hex.specs.Keeping.{kept};
ghost use Rattle.line_hex.specs.Numbers.{big_endian};
ghost use Rattle.line_hex.specs.Putting.{end_at, put_at};

pub const LF: u8 = b'\n';

// Digits count in sixteens: the figures up to ten, then letters in lower case.
const BASE: u8 = 16;

const WIDE_BASE: u32 = 16;

const TEN: u8 = 10;

// A byte has so many values, and so many characters in a line.
const BYTE_VALUES: u32 = 256;

const CHARACTERS: usize = 2;

// The value of a character that is a digit.
#[tactic(auto, using(std::proofs::lemmas::Bool::Decides::nat_tests), unfolding(crate::specs::Hex::digit_value, crate::specs::Hex::is_digit, crate::specs::Hex::value_of))]
fn value_of(c: u8) -> Option<u8>
    ensures { result ≡ digit_value c }
{
    match c {
        b'0'..=b'9' => Some(c - b'0'),
        b'a'..=b'f' => Some(c - b'a' + TEN),
        _ => None,
    }
}

// The byte that two digits at a place say.
fn pair_at(line: &[u8], at: usize) -> Option<u8>
    ensures { result ≡ pair_of (drop at line.now) }
{
    let high = value_of(*line.get(at)?)?;
    let low = value_of(*line.get(at + 1)?)?;
    Some(high * BASE + low)
}

// The answer where the pairs of digits end: a line if its LF alone is left.
fn ended_at(line: &[u8], at: usize, count: usize) -> Option<usize>
    ensures { result ≡ ended_at line.now at count }
{
    let rest = line.get(at..)?;
    let alone = rest.len() == 1;
    if alone && rest.last() == Some(&LF) {
        Some(count)
    } else {
        None
    }
}

// A character joins the line where there is room, or is let go; the number of characters kept.
pub fn keep(line: &mut [u8], have: usize, b: u8) -> usize
    ensures { (result, line.new) ≡ kept line.old have b }
{
    if have < line.len() {
        line[have] = b;
        have + 1
    } else {
        have
    }
}

// Reads a line to bytes in one pass; the number of its bytes, if it is a line and they fit. A line of more bytes than the buffer holds is refused like one without its LF.
pub fn decode(line: &[u8], into: &mut [u8]) -> Option<usize>
    ensures { (result, into.new) ≡ decoded line.now into.old }
{
    for count in 0..into.len() {
        match pair_at(line, CHARACTERS * count) {
            Some(byte) => into[count] = byte,
            None => return ended_at(line, CHARACTERS * count, count),
        }
    }
    ended_at(line, CHARACTERS * into.len(), into.len())
}

// The type of a line, malformed ones included: what its first two characters say.
pub fn line_type(line: &[u8]) -> Option<u8>
    ensures { result ≡ line_type line.now }
{
    pair_at(line, 0)
}

// The digit of a number's last four bits.
#[tactic(auto, using(std::proofs::lemmas::Bool::Decides::nat_tests), unfolding(crate::specs::Hex::digit_of))]
fn digit_of(number: u32) -> u8
    ensures { result ≡ digit_of (number % 16) }
{
    let value = (number % WIDE_BASE) as u8;
    if value < TEN {
        value + b'0'
    } else {
        value - TEN + b'a'
    }
}

// Writes a number's bytes as digits at a place, the last byte first; the place behind them.
pub fn put_number(out: &mut [u8], at: usize, number: u32, width: usize) -> usize
    requires { at + 2 * width ≤ length out.old }
    ensures { (result, out.new) ≡ put_at out.old at (big_endian width number) }
{
    let mut rest = number;
    for i in (0..width).rev() {
        let to = at + CHARACTERS * i;
        out[to] = digit_of(rest / WIDE_BASE);
        out[to + 1] = digit_of(rest);
        rest /= BYTE_VALUES;
    }
    at + CHARACTERS * width
}

// Ends a line with its LF at a place; the place behind it, which is the line's length.
pub fn put_lf(out: &mut [u8], at: usize) -> usize
    requires { at < length out.old }
    ensures { (result, out.new) ≡ end_at out.old at }
{
    out[at] = LF;
    at + 1
}
