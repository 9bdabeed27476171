// Lines decoded for the calls: characters that were kept one at a time, however the input was cut, read to bytes, and the bytes taken apart; what is no line is
// decoded as no bytes, which have no shape.
#![tactic(auto)]

ghost use Rattle.std.specs.Prelude.{◌≡◌, Some, None, if◌then◌else◌};
ghost use Rattle.std.specs.Fn.{FnOnceReturnsAt};
ghost use Rattle.line_read.specs.Named.{is_issue, is_opening, is_operation, is_question, is_settling, issue_read, operation_read, printing_read, question_read, settling_read};
ghost use Rattle.line_decode.specs.Decoding.{bytes_of, decoded_into, type_of};
ghost use Rattle.line_decode.specs.LineKinds.{kind_of};

// A line that is not of a type: no type's byte.
const NO_TYPE: u8 = 0;

// Reads a line into a buffer; how many bytes it has, and none where it is no line.
pub fn decode_line(line: &[u8], into: &mut [u8; line_read::LONGEST]) -> usize
    ensures { (result, into.new) ≡ decoded_into line.now into.old }
{
    line_hex::decode(line, into).unwrap_or(0)
}

// What a reader says of the bytes of a line.
fn read_line<T, F: FnOnce(&[u8]) -> T>(line: &[u8], read: F) -> T
    requires { F.IsAlwaysCallable read }
    ensures { FnOnceReturnsAt F.FnOnce read (bytes_of line.now) result }
{
    let mut bytes = [0u8; line_read::LONGEST];
    let n = decode_line(line, &mut bytes);
    read(&bytes[0..n])
}

// Whether a line is an opening in its right shape.
pub fn is_opening(line: &[u8]) -> bool
    ensures { result ≡ is_opening (bytes_of line.now) }
{
    read_line(line, line_read::read_opening).is_some()
}

// The operation that a `20` line says, or none where the line is misshapen.
pub fn operation(line: &[u8]) -> Option<line_read::Operation>
    ensures { result
        ≡ (if is_operation (bytes_of line.now)
        then Some (operation_read (bytes_of line.now))
        else None) }
{
    read_line(line, line_read::read_operation)
}

// The local operation that a `21` line says, or none where the line is misshapen.
pub fn issue(line: &[u8]) -> Option<line_read::Issue>
    ensures { result
        ≡ (if is_issue (bytes_of line.now)
        then Some (issue_read (bytes_of line.now))
        else None) }
{
    read_line(line, line_read::read_issue)
}

// The limit that a `30` line says, or none where the line is misshapen.
pub fn settling(line: &[u8]) -> Option<line_read::Settling>
    ensures { result
        ≡ (if is_settling (bytes_of line.now)
        then Some (settling_read (bytes_of line.now))
        else None) }
{
    read_line(line, line_read::read_settling)
}

// The question that a `40` line asks, or none where the line is misshapen.
pub fn question(line: &[u8]) -> Option<line_read::Question>
    ensures { result
        ≡ (if is_question (bytes_of line.now)
        then Some (question_read (bytes_of line.now))
        else None) }
{
    read_line(line, line_read::read_question)
}

// Whether a line is a `60` line in its right shape.
pub fn printing(line: &[u8]) -> bool
    ensures { result ≡ printing_read (bytes_of line.now) }
{
    read_line(line, line_read::read_printing)
}

// The type of a line, malformed ones included.
fn type_of(line: &[u8]) -> u8
    ensures { result ≡ type_of line.now }
{
    line_hex::line_type(line).unwrap_or(NO_TYPE)
}

// What a line is, by its type; a saved line is one of type `50` to `5f`.
#[derive(Clone, Copy, PartialEq, Eq)]
pub enum LineKind {
    Opening,
    Operation,
    Issue,
    Settling,
    Question,
    Printing,
    Saved,
    Unknown,
}

// The kind of a line, decided here for every call and every load.
#[tactic(auto, using(std::proofs::lemmas::Bool::Decides::nat_tests), unfolding(crate::specs::LineKinds::kind_of, meaning::specs::Tests::between))]
pub fn kind_of(line: &[u8]) -> LineKind
    ensures { result ≡ kind_of (type_of line.now) }
{
    match type_of(line) {
        line_read::OPENING => LineKind::Opening,
        line_read::OPERATION => LineKind::Operation,
        line_read::ISSUE => LineKind::Issue,
        line_read::SETTLING => LineKind::Settling,
        line_read::QUESTION => LineKind::Question,
        line_read::PRINTING => LineKind::Printing,
        line_read::CLOCK..=line_read::CLOSING => LineKind::Saved,
        _ => LineKind::Unknown,
    }
}
