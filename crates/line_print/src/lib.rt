// The lines that a station prints: answers, operations and the lines of a saved form, each straight into a lent space.
#![tactic(auto, unfolding(crate::specs::Printed::printed))]

ghost use Rattle.std.specs.Prelude.{◌≡◌, [], ◌∷◌, length};
ghost use Rattle.line_read.specs.Types.{clock, closing, count, done, flag, last_vector, opening, operation, refused, row, sum, total};
ghost use Rattle.line_print.specs.Printed.{printed};
ghost use Rattle.line_put.specs.Writing.{Countable};

use line_put::TooShort;

// The width of a kind.
const ONE: usize = 1;

// `ff` and the refusal number.
pub fn write_refusal(out: &mut [u8], number: u32) -> Result<usize, TooShort>
    ensures { (result, out.new) ≡ printed out.old refused (number ∷ []) [] }
{
    line_put::write_alone(
        out,
        &line_read::BYTE_WIDTHS,
        &[line_read::REFUSED as u32, number],
    )
}

// `00` alone.
pub fn write_done(out: &mut [u8]) -> Result<usize, TooShort>
    ensures { (result, out.new) ≡ printed out.old done [] [] }
{
    line_put::write_alone(out, &line_read::ALONE_WIDTHS, &[line_read::DONE as u32])
}

// `00` and one byte: a flag, or whether a value is held.
pub fn write_flag(out: &mut [u8], on: u32) -> Result<usize, TooShort>
    ensures { (result, out.new) ≡ printed out.old flag (on ∷ []) [] }
{
    line_put::write_alone(out, &line_read::BYTE_WIDTHS, &[line_read::DONE as u32, on])
}

// `00` and two bytes: steps taken, or different values.
pub fn write_count(out: &mut [u8], number: u32) -> Result<usize, TooShort>
    ensures { (result, out.new) ≡ printed out.old count (number ∷ []) [] }
{
    line_put::write_alone(
        out,
        &line_read::TWO_BYTE_WIDTHS,
        &[line_read::DONE as u32, number],
    )
}

// `00` and the two words of a total.
pub fn write_sum(out: &mut [u8], high: u32, low: u32) -> Result<usize, TooShort>
    ensures { (result, out.new) ≡ printed out.old sum (high ∷ low ∷ []) [] }
{
    line_put::write_alone(
        out,
        &line_read::SUM_WIDTHS,
        &[line_read::DONE as u32, high, low],
    )
}

// `20`: an operation, its N the vector's length.
pub fn write_operation(
    out: &mut [u8],
    sender: u32,
    object: u32,
    code: u32,
    value: u32,
    vector: &[u32],
) -> Result<usize, TooShort>
    requires { Countable vector.now }
    ensures { (result, out.new) ≡ printed out.old operation (length vector.now ∷ sender ∷ object ∷ code ∷ value ∷ []) vector.now }
{
    let stations = vector.len() as u32;
    let fields = [
        line_read::OPERATION as u32,
        stations,
        sender,
        object,
        code,
        value,
    ];
    line_put::write_fields(
        out,
        &line_read::OPERATION_WIDTHS,
        &fields,
        line_shape::FOUR,
        vector,
    )
}

// `10`: an opening, its object count the number of kinds.
pub fn write_opening(
    out: &mut [u8],
    stations: u32,
    own: u32,
    capacity: u32,
    kinds: &[u32],
) -> Result<usize, TooShort>
    requires { Countable kinds.now }
    ensures { (result, out.new) ≡ printed out.old opening (stations ∷ own ∷ capacity ∷ length kinds.now ∷ []) kinds.now }
{
    let objects = kinds.len() as u32;
    let fields = [line_read::OPENING as u32, stations, own, capacity, objects];
    line_put::write_fields(out, &line_read::OPENING_WIDTHS, &fields, ONE, kinds)
}

// `50`: D.
pub fn write_clock(out: &mut [u8], vector: &[u32]) -> Result<usize, TooShort>
    requires { Countable vector.now }
    ensures { (result, out.new) ≡ printed out.old clock [] vector.now }
{
    let fields = [line_read::CLOCK as u32];
    line_put::write_fields(
        out,
        &line_read::CLOCK_WIDTHS,
        &fields,
        line_shape::FOUR,
        vector,
    )
}

// `51`: k and L[k].
pub fn write_last(out: &mut [u8], station: u32, vector: &[u32]) -> Result<usize, TooShort>
    requires { Countable vector.now }
    ensures { (result, out.new) ≡ printed out.old last_vector (station ∷ []) vector.now }
{
    let fields = [line_read::LAST_VECTOR as u32, station];
    line_put::write_fields(
        out,
        &line_read::LAST_VECTOR_WIDTHS,
        &fields,
        line_shape::FOUR,
        vector,
    )
}

// `52`: a counter and the two words of its total.
pub fn write_total(out: &mut [u8], object: u32, high: u32, low: u32) -> Result<usize, TooShort>
    ensures { (result, out.new) ≡ printed out.old total (object ∷ high ∷ low ∷ []) [] }
{
    line_put::write_alone(
        out,
        &line_read::TOTAL_WIDTHS,
        &[line_read::TOTAL as u32, object, high, low],
    )
}

// `53`: a row, its vector all zeros where it is settled.
pub fn write_row(
    out: &mut [u8],
    object: u32,
    code: u32,
    settled: u32,
    sender: u32,
    value: u32,
    vector: &[u32],
) -> Result<usize, TooShort>
    requires { Countable vector.now }
    ensures { (result, out.new) ≡ printed out.old row (object ∷ code ∷ settled ∷ sender ∷ value ∷ []) vector.now }
{
    let fields = [line_read::ROW as u32, object, code, settled, sender, value];
    line_put::write_fields(
        out,
        &line_read::ROW_WIDTHS,
        &fields,
        line_shape::FOUR,
        vector,
    )
}

// `5f`: the row count.
pub fn write_closing(out: &mut [u8], rows: u32) -> Result<usize, TooShort>
    ensures { (result, out.new) ≡ printed out.old closing (rows ∷ []) [] }
{
    line_put::write_alone(
        out,
        &line_read::CLOSING_WIDTHS,
        &[line_read::CLOSING as u32, rows],
    )
}
