// The pieces of a text between separator bytes, and what stands in them: decimal numbers, words and coordinates (document 01, 'Printed tree').
#![tactic(auto)]

ghost use Rattle.std.specs.Prelude.{◌≡◌, ℕ, List, ◌+◌, ◌*◌, ◌≤◌, ◌<◌, ◌^◌, length, drop, map};
ghost use Rattle.std.specs.Fn.{FnReturnsAt};
ghost use Rattle.std.proofs.lemmas.List.Edits.{sets};
ghost use Rattle.text.specs.Pieces.{bytes_before, pieces_from, next_piece, PieceEnds};
ghost use Rattle.text.specs.Numbers.{digit_value, digits_from, decimal_of, word_of, bits_of};
ghost use Rattle.text.specs.Coordinates.{capped, after_minus, coordinate_of};
ghost use Rattle.text.specs.Fields.{Computes, word_in, words_from, coordinates_from};

// How many bytes stand before the first separator: all of them where there is none.
// Rules out the place after the separator, and the last separator's place.
pub fn bytes_before(text: &[u8], separator: u8) -> usize
    ensures { result ≡ bytes_before separator text.now }
{
    text.iter()
        .position(|byte| *byte == separator)
        .unwrap_or(text.len())
}

// Where the piece that starts at a place ends: at the next separator, or at the text's end.
// Rules out an end counted from the piece's start, and a piece that goes past the text's end.
pub fn piece_end(text: &[u8], start: usize, separator: u8) -> usize
    requires { start ≤ length text.now }
    ensures { PieceEnds separator text.now start result }
{
    let rest = &text[start..];
    start + bytes_before(rest, separator)
}

// Where the fields after the first from a place on start; where there is none, the place itself.
// Rules out the first field's own start, and its end.
pub fn after_field(row: &[u8], start: usize) -> usize
    ensures place { result ≡ next_piece 32 row.now start }
    ensures fields { pieces_from 32 row.now result ≡ drop 1 (pieces_from 32 row.now start) }
{
    if row.len() < start {
        return start;
    }
    let end = piece_end(row, start, 32);
    end + 1
}

// The value of a digit, 16 for a byte that is none: `0` to `9` are the bytes 48 to 57, `A` to `F` 65 to 70.
// Rules out lower-case digits taken, and `A` read as 11.
#[tactic(auto, unfolding(crate::specs::Numbers::digit_value))]
pub fn digit_value(byte: u8) -> u64
    ensures { result ≡ digit_value byte }
{
    match byte {
        b'0'..=b'9' => (byte - b'0') as u64,
        b'A'..=b'F' => (byte - b'A') as u64 + 10,
        _ => 16,
    }
}

// The number of the digits in a base. There are so few of them that it has 64 bits.
fn read_digits(field: &[u8], base: u64) -> Option<u64>
    requires base_nonzero { 0 < base }
    requires field_bound { base ^ length field.now ≤ 2 ^ 64 }
    ensures { result ≡ digits_from base 0 field.now }
{
    let mut v: u64 = 0;
    for byte in field {
        let d = digit_value(*byte);
        if base <= d {
            return None;
        }
        v = v * base + d;
    }
    Some(v)
}

// The number that a field is: one to nine digits, no leading zero.
// Rules out 01 read as 1, and ten digits read.
pub fn read_number(field: &[u8]) -> Option<u64>
    ensures { result ≡ decimal_of field.now }
{
    if field.is_empty() || 9 < field.len() {
        return None;
    }
    if field[0] == b'0' && field.len() != 1 {
        return None;
    }
    read_digits(field, 10)
}

// The word that a field is: sixteen hexadecimal digits. A word and an f32's bits stay two functions over `read_digits`: each has its length and its bound.
// Rules out fifteen digits taken as a smaller word, and lower-case digits read.
#[tactic(auto, using(crate::proofs::Numbers::sixteen_fits), unfolding(crate::specs::Numbers::word_of))]
pub fn read_word(field: &[u8]) -> Option<u64>
    ensures { result ≡ word_of field.now }
{
    if field.len() != 16 {
        return None;
    }
    read_digits(field, 16)
}

// The bits of an f32 that a field is: eight hexadecimal digits.
// Rules out sixteen digits taken, and seven taken as smaller bits.
#[tactic(auto, using(crate::proofs::Numbers::eight_fit), unfolding(crate::specs::Numbers::bits_of))]
pub fn read_bits(field: &[u8]) -> Option<u64>
    ensures { result ≡ bits_of field.now }
{
    if field.len() != 8 {
        return None;
    }
    read_digits(field, 16)
}

// The f32 of a coordinate's size, 2^21 for all that is larger: an f32 has every whole number up to 2^24, and not every one of nine digits.
// Nothing is lost: beyond 2^20 it is refused either way (`CapLosesNothing`).
fn capped_float(size: u64) -> f32
    ensures { result ≡ capped size }
{
    size.min(2097152) as f32
}

fn after_minus(number: Option<u64>) -> Option<f32>
    ensures { result ≡ after_minus number }
{
    match number? {
        0 => None,
        size => Some(-capped_float(size)),
    }
}

// The coordinate that a field is: a number, or a minus sign and a number other than 0.
// Rules out -0 read as minus zero, and a sign dropped.
pub fn read_coordinate(field: &[u8]) -> Option<f32>
    ensures { result ≡ coordinate_of field.now }
{
    match field {
        [b'-', size @ ..] => after_minus(read_number(size)),
        _ => read_number(field).map(capped_float),
    }
}

// The word of the field that starts at a place, 0 where there is none.
// Rules out the fields after it taken into the word, and the word of the row's first field.
pub fn word_from(row: &[u8], start: usize) -> u64
    ensures { result ≡ word_in 0 (pieces_from 32 row.now start) }
{
    if row.len() < start {
        return 0;
    }
    let end = piece_end(row, start, 32);
    read_word(&row[start..end]).unwrap_or(0)
}

// What a reading gives of each field of the row from a place on, as many as the lent buffer holds; its other places stay. Gives how many fields the row has there.
fn read_fields<T: Copy, F: Fn(&[u8]) -> T>(
    row: &[u8],
    start: usize,
    values: &mut [T],
    read: F,
) -> usize
    requires { F.IsAlwaysCallable read }
    ensures value { result ≡ length (pieces_from 32 row.now start) }
    ensures values_after { (f : List ℕ → T) → Computes (FnReturnsAt F.Fn read) f → values.new ≡ sets values.old 0 (map f (pieces_from 32 row.now start)) }
{
    let mut at = start;
    let mut n: usize = 0;
    // A turn goes on by a field's length, so this is no `for`.
    while at <= row.len() {
        let end = piece_end(row, at, 32);
        if n < values.len() {
            values[n] = read(&row[at..end]);
        }
        n += 1;
        at = end + 1;
    }
    n
}

// The words of the row from a place on, as many as the lent buffer holds; its other places stay. Gives how many fields the row has there.
// Rules out a count of those stored alone, and a write past the fields' number.
pub fn read_words(row: &[u8], start: usize, words: &mut [u64]) -> usize
    ensures value { result ≡ length (pieces_from 32 row.now start) }
    ensures words_after { words.new ≡ sets words.old 0 (words_from row.now start) }
{
    read_fields(row, start, words, |field| read_word(field).unwrap_or(0))
}

// The coordinates of the row from a place on, as many as the lent buffer holds; its other places stay. Gives how many fields the row has there.
// Rules out a buffer cleared beyond the coordinates, and the fields stored from the last to the first.
pub fn read_coordinates(row: &[u8], start: usize, coordinates: &mut [f32]) -> usize
    ensures value { result ≡ length (pieces_from 32 row.now start) }
    ensures coordinates_after { coordinates.new ≡ sets coordinates.old 0 (coordinates_from row.now start) }
{
    read_fields(row, start, coordinates, |field| {
        read_coordinate(field).unwrap_or(0.0)
    })
}
