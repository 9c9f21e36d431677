// The form of treelist's text (document 01, 'Printed tree'): op rows, the making's row, the names lines, and the check of the whole text.
#![tactic(auto)]

ghost use Rattle.std.specs.Prelude.{◌≡◌, ℕ, List, Bool, Some, ◌+◌, ◌≤◌, ◌<◌, length};
ghost use Rattle.std.specs.Fn.{FnReturnsAt};
ghost use Rattle.text.specs.Pieces.{pieces_from, pieces, all};
ghost use Rattle.text.specs.Fields.{Computes};
ghost use Rattle.form.specs.Rows.{are_coordinates, are_words, row_by, row_of, answer_at, read_row, is_there};
ghost use Rattle.form.specs.Making.{making_of, making_says, sixteenths_of};
ghost use Rattle.form.specs.Form.{rows_from, blocks, form_from, form_of};
ghost use Rattle.form.specs.Lines.{rows_form, FirstLines};

// An op row: its index, and for a put or an add the place where the fields of its rest start.
#[derive(Clone, Copy, Debug, PartialEq, Eq)]
pub enum Row {
    Put { index: u64, start: usize },
    Add { index: u64, start: usize },
    Delete { index: u64 },
}

// The making's row: channels, capacity, and the cached share in sixteenths.
#[derive(Clone, Copy, Debug, PartialEq, Eq)]
pub struct Making {
    pub channels: u64,
    pub capacity: u64,
    pub sixteenths: u64,
}

// A text's first bad row, 0 before the op rows.
#[derive(Clone, Copy, Debug, PartialEq, Eq)]
pub struct BadRow {
    pub row: usize,
}

// Whether each field of the row from a place on passes a test.
fn all_fields<F: Fn(&[u8]) -> bool>(row: &[u8], start: usize, test: F) -> bool
    requires start_bound { start ≤ length row.now + 1 }
    requires callable { F.IsAlwaysCallable test }
    ensures { (f : List ℕ → Bool) → Computes (FnReturnsAt F.Fn test) f → result ≡ all f (pieces_from 32 row.now start) }
{
    let mut at = start;
    // A turn goes on by a field's length, so this is no `for`.
    while at <= row.len() {
        let end = text::piece_end(row, at, 32);
        if !test(&row[at..end]) {
            return false;
        }
        at = end + 1;
    }
    true
}

// Whether each field of the row from a place on is a word.
// Rules out the last field untested, and a row refused for having no field there.
pub fn all_words(row: &[u8], start: usize) -> bool
    requires { start ≤ length row.now + 1 }
    ensures { result ≡ are_words (pieces_from 32 row.now start) }
{
    all_fields(row, start, |field| text::read_word(field).is_some())
}

// Whether each is a coordinate.
// Rules out the last field untested, and a row refused for a coordinate beyond 2^20.
pub fn all_coordinates(row: &[u8], start: usize) -> bool
    requires { start ≤ length row.now + 1 }
    ensures { result ≡ are_coordinates (pieces_from 32 row.now start) }
{
    all_fields(row, start, |field| text::read_coordinate(field).is_some())
}

// The row of an op and an index whose rest starts at a place; past the row's end it has no rest.
#[tactic(auto, using(crate::proofs::Rows::rest_none), unfolding(crate::specs::Rows::row_by))]
fn row_by_op(row: &[u8], op: u64, index: u64, start: usize) -> Option<Row>
    requires { start ≤ length row.now + 1 }
    ensures { result ≡ answer_at start (row_by (Some op) index (pieces_from 32 row.now start)) }
{
    match op {
        0 if all_coordinates(row, start) => Some(Row::Put { index, start }),
        1 if all_words(row, start) => Some(Row::Add { index, start }),
        2 if row.len() < start => Some(Row::Delete { index }),
        _ => None,
    }
}

// What an op row is.
// Rules out a delete with a rest taken, and a rest told to start one byte late.
pub fn read_row(row: &[u8]) -> Option<Row>
    ensures { result ≡ read_row row.now }
{
    let first = text::piece_end(row, 0, 32);
    if first == row.len() {
        return None;
    }
    let start = first + 1;
    let second = text::piece_end(row, start, 32);
    let index = text::read_number(&row[start..second])?;
    let op = text::read_number(&row[0..first])?;
    row_by_op(row, op, index, second + 1)
}

fn is_row(line: &[u8]) -> bool
    ensures { result ≡ is_there (row_of (pieces 32 line.now)) }
{
    read_row(line).is_some()
}

// The op rows from a place on: their number, or the first bad one.
fn check_rows(bytes: &[u8], start: usize) -> Result<usize, BadRow>
    requires { start ≤ length bytes.now }
    ensures { result ≡ rows_form 0 (rows_from 0 (pieces_from 10 bytes.now start)) }
{
    let mut at = start;
    let mut n: usize = 0;
    // A turn goes on by a line's length, so this is no `for`.
    loop {
        let end = text::piece_end(bytes, at, 10);
        if end == bytes.len() {
            if end == at {
                return Ok(n);
            }
            return Err(BadRow { row: n + 1 });
        }
        if !is_row(&bytes[at..end]) {
            return Err(BadRow { row: n + 1 });
        }
        n += 1;
        at = end + 1;
    }
}

// What the making's row is: three numbers, whether the tree takes them or not.
// Rules out a fourth field overlooked, and a row refused here for its capacity.
pub fn read_making(row: &[u8]) -> Option<Making>
    ensures { making_of (pieces 32 row.now) ≡ making_says result }
{
    let a = text::piece_end(row, 0, 32);
    if a == row.len() {
        return None;
    }
    let b = text::piece_end(row, a + 1, 32);
    if b == row.len() {
        return None;
    }
    let c = text::piece_end(row, b + 1, 32);
    if c != row.len() {
        return None;
    }
    let channels = text::read_number(&row[0..a])?;
    let capacity = text::read_number(&row[a + 1..b])?;
    let sixteenths = text::read_number(&row[b + 1..c])?;
    Some(Making {
        channels,
        capacity,
        sixteenths,
    })
}

// The share of a number of sixteenths, which has at most nine digits: an f64 has each such number.
// Rules out the number itself for its share, and a share rounded to a whole number.
pub fn share_of(sixteenths: u64) -> f64
    requires { sixteenths < 1000000000 }
    ensures { result ≡ sixteenths_of sixteenths }
{
    (sixteenths as f64) / 16.0
}

fn is_making(line: &[u8]) -> bool
    ensures { result ≡ is_there (making_of (pieces 32 line.now)) }
{
    read_making(line).is_some()
}

// A text whose first three lines end at a, b and c: both names lines, the making, then the op rows.
fn check_blocks(bytes: &[u8], a: usize, b: usize, c: usize) -> Result<usize, BadRow>
    requires { FirstLines bytes.now a b c }
    ensures { result ≡ form_from (blocks (pieces 10 bytes.now)) }
{
    let making_names: &[u8] = b"dimensions capacity cache16";
    if &bytes[0..a] != making_names {
        return Err(BadRow { row: 0 });
    }
    let op_names: &[u8] = b"op index rest";
    if &bytes[b + 1..c] != op_names {
        return Err(BadRow { row: 0 });
    }
    if !is_making(&bytes[a + 1..b]) {
        return Err(BadRow { row: 0 });
    }
    check_rows(bytes, c + 1)
}

// The form of the whole text, for every list of bytes: its number of op rows, or its first bad row, 0 before the op rows.
// Rules out a later bad row told, and an over-long text told by a bad row in it.
pub fn check_form(bytes: &[u8]) -> Result<usize, BadRow>
    ensures { result ≡ form_of bytes.now }
{
    if 32768 < bytes.len() {
        return Err(BadRow { row: 0 });
    }
    let a = text::piece_end(bytes, 0, 10);
    if a == bytes.len() {
        return Err(BadRow { row: 0 });
    }
    let b = text::piece_end(bytes, a + 1, 10);
    if b == bytes.len() {
        return Err(BadRow { row: 0 });
    }
    let c = text::piece_end(bytes, b + 1, 10);
    if c == bytes.len() {
        return Err(BadRow { row: 0 });
    }
    check_blocks(bytes, a, b, c)
}
