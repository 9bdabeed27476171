// The lines that a station reads and those of a saved form: a reader each, which gives the fields by name where the shape is right.
#![tactic(auto)]

ghost use Rattle.std.specs.Prelude.{◌≡◌, Some, None, if◌then◌else◌};
ghost use Rattle.line_read.specs.Types.{longest};
ghost use Rattle.line_read.specs.Named.{is_issue, is_opening, is_operation, is_question, is_settling, issue_read, opening_read, operation_read, printing_read, question_read, settling_read};
ghost use Rattle.line_read.specs.SavedNamed.{clock_read, closing_read, is_clock, is_closing, is_last, is_row, is_total, last_read, row_read, total_read};

// The bytes of the longest line that can get anything but a refusal of its shape: an opening with as many kinds as a byte can count.
pub const LONGEST: usize = KINDS_PLACE + u8::MAX as usize;

// The characters of that line, with its LF.
pub const LINE_ROOM: usize = 2 * LONGEST + 1;

// Ties the constant to the laws, which can't name it.
pub fn longest_line() -> usize
    ensures { result ≡ longest }
{
    LONGEST
}

// The types.
pub const OPENING: u8 = 0x10;

pub const OPERATION: u8 = 0x20;

pub const ISSUE: u8 = 0x21;

pub const SETTLING: u8 = 0x30;

pub const QUESTION: u8 = 0x40;

pub const PRINTING: u8 = 0x60;

pub const CLOCK: u8 = 0x50;

pub const LAST_VECTOR: u8 = 0x51;

pub const TOTAL: u8 = 0x52;

pub const ROW: u8 = 0x53;

pub const CLOSING: u8 = 0x5f;

pub const REFUSED: u8 = 0xff;

pub const DONE: u8 = 0x00;

// The settled byte of a row's line.
pub const SETTLED_BYTE: u32 = 1;

pub const UNSETTLED_BYTE: u32 = 0;

// The widths of the fields that every line of a type has, its type first.
pub const OPENING_WIDTHS: [u8; 5] = [1, 1, 1, 2, 1];

pub const OPERATION_WIDTHS: [u8; 6] = [1, 1, 1, 1, 1, 4];

pub const SETTLING_WIDTHS: [u8; 2] = [1, 2];

pub const CLOCK_WIDTHS: [u8; 1] = [1];

pub const LAST_VECTOR_WIDTHS: [u8; 2] = [1, 1];

pub const TOTAL_WIDTHS: [u8; 4] = [1, 1, 4, 4];

pub const ROW_WIDTHS: [u8; 6] = [1, 1, 1, 1, 1, 4];

pub const CLOSING_WIDTHS: [u8; 2] = [1, 2];

// And of the answers: nothing, a byte, two bytes, or a total behind the type.
pub const ALONE_WIDTHS: [u8; 1] = [1];

pub const BYTE_WIDTHS: [u8; 2] = [1, 1];

pub const TWO_BYTE_WIDTHS: [u8; 2] = [1, 2];

pub const SUM_WIDTHS: [u8; 3] = [1, 4, 4];

// The bytes of an opening before its kinds, the last of which is their count.
pub const KINDS_PLACE: usize = 6;

const KIND_COUNT_PLACE: usize = 5;

// Where an operation says the size of its group.
const STATIONS_PLACE: usize = 1;

// The kinds stand from KINDS_PLACE on, one byte each.
#[derive(Clone, Copy)]
pub struct Opening {
    pub stations: u32,
    pub own: u32,
    pub capacity: u32,
    pub count: u32,
}

// Of the vector as many entries are the line's as there are stations; the rest are zeros.
#[derive(Clone, Copy)]
pub struct Operation {
    pub stations: u32,
    pub sender: u32,
    pub object: u32,
    pub code: u32,
    pub value: u32,
    pub vector: [u32; meaning::MOST_STATIONS],
}

#[derive(Clone, Copy)]
pub struct Issue {
    pub object: u32,
    pub code: u32,
    pub value: u32,
}

#[derive(Clone, Copy)]
pub struct Settling {
    pub limit: u32,
}

#[derive(Clone, Copy)]
pub struct Question {
    pub object: u32,
    pub question: u32,
    pub value: u32,
}

// `10`: the group size, the own station, the capacity, and how many kinds follow.
pub fn read_opening(s: &[u8]) -> Option<Opening>
    ensures { result ≡ (if is_opening s.now then Some (opening_read s.now) else None) }
{
    let kinds = usize::from(*s.get(KIND_COUNT_PLACE)?);
    if !line_shape::has_shape(s, OPENING, KINDS_PLACE + kinds) {
        return None;
    }
    let [_, stations, own, capacity, count, ..] = line_shape::head_of(s, &OPENING_WIDTHS);
    Some(Opening {
        stations,
        own,
        capacity,
        count,
    })
}

// `20`: an operation with its vector, which has as many entries as the line itself says.
pub fn read_operation(s: &[u8]) -> Option<Operation>
    ensures { result ≡ (if is_operation s.now then Some (operation_read s.now) else None) }
{
    let entries = usize::from(*s.get(STATIONS_PLACE)?);
    let fields = line_shape::read_fields(s, OPERATION, &OPERATION_WIDTHS, entries)?;
    let [_, stations, sender, object, code, value] = fields.head;
    Some(Operation {
        stations,
        sender,
        object,
        code,
        value,
        vector: fields.vector,
    })
}

// `21`: a local operation.
pub fn read_issue(s: &[u8]) -> Option<Issue>
    ensures { result ≡ (if is_issue s.now then Some (issue_read s.now) else None) }
{
    let [_, object, code, value, ..] = line_shape::read_short(s, ISSUE)?.head;
    Some(Issue {
        object,
        code,
        value,
    })
}

// `30`: the limit of a settling call.
pub fn read_settling(s: &[u8]) -> Option<Settling>
    ensures { result ≡ (if is_settling s.now then Some (settling_read s.now) else None) }
{
    let [_, limit, ..] = line_shape::read_fields(s, SETTLING, &SETTLING_WIDTHS, 0)?.head;
    Some(Settling { limit })
}

// `40`: a question about an object.
pub fn read_question(s: &[u8]) -> Option<Question>
    ensures { result ≡ (if is_question s.now then Some (question_read s.now) else None) }
{
    let [_, object, question, value, ..] = line_shape::read_short(s, QUESTION)?.head;
    Some(Question {
        object,
        question,
        value,
    })
}

// Whether the line asks for the saved form: it has no fields but its type.
pub fn read_printing(s: &[u8]) -> bool
    ensures { result ≡ printing_read s.now }
{
    line_shape::has_shape(s, PRINTING, 1)
}

// D.
#[derive(Clone, Copy)]
pub struct Clock {
    pub vector: [u32; meaning::MOST_STATIONS],
}

// k and L[k].
#[derive(Clone, Copy)]
pub struct LastVector {
    pub station: u32,
    pub vector: [u32; meaning::MOST_STATIONS],
}

// The two words of a total in two's complement.
#[derive(Clone, Copy)]
pub struct Total {
    pub object: u32,
    pub high: u32,
    pub low: u32,
}

// The settled byte is handed on as it stands: 01 or 00 is the loader's to ask.
#[derive(Clone, Copy)]
pub struct Row {
    pub object: u32,
    pub code: u32,
    pub settled: u32,
    pub sender: u32,
    pub value: u32,
    pub vector: [u32; meaning::MOST_STATIONS],
}

#[derive(Clone, Copy)]
pub struct Closing {
    pub rows: u32,
}

// `50`: D, of so many stations.
pub fn read_clock(s: &[u8], stations: usize) -> Option<Clock>
    ensures { result ≡ (if is_clock stations s.now then Some (clock_read stations s.now) else None) }
{
    let vector = line_shape::read_fields(s, CLOCK, &CLOCK_WIDTHS, stations)?.vector;
    Some(Clock { vector })
}

// `51`: a station's last vector, of so many entries.
pub fn read_last(s: &[u8], stations: usize) -> Option<LastVector>
    ensures { result ≡ (if is_last stations s.now then Some (last_read stations s.now) else None) }
{
    let fields = line_shape::read_fields(s, LAST_VECTOR, &LAST_VECTOR_WIDTHS, stations)?;
    let [_, station, ..] = fields.head;
    Some(LastVector {
        station,
        vector: fields.vector,
    })
}

// `52`: a counter's total, as two words.
pub fn read_total(s: &[u8]) -> Option<Total>
    ensures { result ≡ (if is_total s.now then Some (total_read s.now) else None) }
{
    let [_, object, high, low, ..] = line_shape::read_fields(s, TOTAL, &TOTAL_WIDTHS, 0)?.head;
    Some(Total { object, high, low })
}

// `53`: a row, with a vector of so many entries.
pub fn read_row(s: &[u8], stations: usize) -> Option<Row>
    ensures { result ≡ (if is_row stations s.now then Some (row_read stations s.now) else None) }
{
    let fields = line_shape::read_fields(s, ROW, &ROW_WIDTHS, stations)?;
    let [_, object, code, settled, sender, value] = fields.head;
    Some(Row {
        object,
        code,
        settled,
        sender,
        value,
        vector: fields.vector,
    })
}

// `5f`: how many rows the form has.
pub fn read_closing(s: &[u8]) -> Option<Closing>
    ensures { result ≡ (if is_closing s.now then Some (closing_read s.now) else None) }
{
    let [_, rows, ..] = line_shape::read_fields(s, CLOSING, &CLOSING_WIDTHS, 0)?.head;
    Some(Closing { rows })
}
