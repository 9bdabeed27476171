// Fields and bytes: numbers read from the bytes of a line by the widths of its shape.
#![tactic(auto)]

ghost use Rattle.std.specs.Prelude.{◌≡◌, ◌≤◌, true, Some, None, if◌then◌else◌, length};
ghost use Rattle.line_hex.specs.Numbers.{number_of};
ghost use Rattle.line_shape.specs.Places.{at_end, byte_at, four_at};
ghost use Rattle.line_shape.specs.Readers.{read_on, short_widths};
ghost use Rattle.line_shape.specs.Reading.{fields_read, has_shape, Head, is_shaped, most_fields, padded};
ghost use Rattle.line_shape.specs.Shapes.{length_of, narrow, read, widest};

// A line has at most so many fields before its entries.
pub const MOST_FIELDS: usize = 6;

// The width of a vector's entry.
pub const FOUR: usize = 4;

// The same of each entry of a vector.
const ENTRY_WIDTHS: [u8; meaning::MOST_STATIONS] = [FOUR as u8; meaning::MOST_STATIONS];

// A byte has one of so many values.
const BYTE_VALUES: u32 = 256;

// "A reader over a lent line holds the line and its place in it."
#[derive(Clone, Copy)]
pub struct Reader<'a> {
    pub src: &'a [u8],
    pub at: usize,
}

// A line taken apart: its fields, its type first, and the entries behind them, zeros after both.
#[derive(Clone, Copy)]
pub struct Fields {
    pub head: [u32; MOST_FIELDS],
    pub vector: [u32; meaning::MOST_STATIONS],
}

// The number that a few bytes say, most significant first.
#[tactic(auto, using(crate::proofs::Counting::counting_done))]
fn number_of(bytes: &[u8]) -> u32
    requires { length bytes.now ≤ widest }
    ensures { result ≡ number_of bytes.now }
{
    let mut number = 0;
    for byte in bytes {
        number = number * BYTE_VALUES + u32::from(*byte);
    }
    number
}

impl<'a> Reader<'a> {
    // The next byte, behind which the reader then stands; none at the end, where it stays.
    #[tactic(auto, using(std::proofs::lemmas::Bool::Decides::nat_tests), unfolding(crate::specs::Places::byte_at, crate::specs::Readers::place_after))]
    pub fn next_byte(&mut self) -> Option<u8>
        ensures { (result ≡ byte_at self.old.src.now self.old.at) × (self.new ≡ read_on 1 self.old) }
    {
        let byte = *self.src.get(self.at)?;
        self.at += 1;
        Some(byte)
    }

    // The number of the next four bytes, behind which the reader then stands; none where fewer are left, and then it stays.
    pub fn next_four(&mut self) -> Option<u32>
        ensures { (result ≡ four_at self.old.src.now self.old.at) × (self.new ≡ read_on 4 self.old) }
    {
        let four = self.src.get(self.at..)?.get(..FOUR)?;
        self.at += FOUR;
        Some(number_of(four))
    }

    // Whether the reader has come to the end of its line.
    #[tactic(auto, unfolding(crate::specs::Places::at_end))]
    pub fn at_end(&self) -> bool
        ensures { result ≡ at_end self.now.src.now self.now.at }
    {
        self.src.len() <= self.at
    }
}

// How many bytes fields of these widths take.
pub fn length_of(widths: &[u8]) -> usize
    requires { Head widths.now }
    ensures { result ≡ length_of widths.now }
{
    widths.iter().map(|width| usize::from(*width)).sum()
}

// The fields at the front of bytes, zeros after them; where too few bytes are left, a field is the number of these.
fn fields_of<const MOST: usize>(bytes: &[u8], widths: &[u8]) -> [u32; MOST]
    requires few { length widths.now ≤ MOST }
    requires small { narrow widths.now ≡ true }
    ensures { result ≡ padded MOST (read widths.now bytes.now) }
{
    let mut fields = [0; MOST];
    let mut rest = bytes;
    for (i, width) in widths.iter().enumerate() {
        let (field, behind) = rest.split_at(usize::from(*width).min(rest.len()));
        fields[i] = number_of(field);
        rest = behind;
    }
    fields
}

// The fields at the front of a line.
pub fn head_of(s: &[u8], widths: &[u8]) -> [u32; MOST_FIELDS]
    requires { Head widths.now }
    ensures { result ≡ padded most_fields (read widths.now s.now) }
{
    fields_of(s, widths)
}

// Whether bytes are so many, the first of them the type.
pub fn has_shape(s: &[u8], kind: u8, size: usize) -> bool
    ensures { result ≡ has_shape kind size s.now }
{
    s.len() == size && s.first() == Some(&kind)
}

// Takes a line of a type with so many entries apart, if it has that shape.
pub fn read_fields(s: &[u8], kind: u8, widths: &[u8], stations: usize) -> Option<Fields>
    requires { Head widths.now }
    ensures { result
        ≡ (if is_shaped kind widths.now stations s.now
        then Some (fields_read kind widths.now stations s.now)
        else None) }
{
    let entries = ENTRY_WIDTHS.get(..stations)?;
    let at = length_of(widths);
    if has_shape(s, kind, at + FOUR * stations) {
        Some(Fields {
            head: head_of(s, widths),
            vector: fields_of(&s[at..], entries),
        })
    } else {
        None
    }
}

// Takes a line of its type, two bytes and four apart by one reader, from its front to its end.
pub fn read_short(s: &[u8], kind: u8) -> Option<Fields>
    ensures { result
        ≡ (if is_shaped kind short_widths 0 s.now
        then Some (fields_read kind short_widths 0 s.now)
        else None) }
{
    let mut reader = Reader { src: s, at: 0 };
    let first = reader.next_byte()?;
    let second = reader.next_byte()?;
    let third = reader.next_byte()?;
    let value = reader.next_four()?;
    if first == kind && reader.at_end() {
        Some(Fields {
            head: [
                u32::from(first),
                u32::from(second),
                u32::from(third),
                value,
                0,
                0,
            ],
            vector: [0; meaning::MOST_STATIONS],
        })
    } else {
        None
    }
}
