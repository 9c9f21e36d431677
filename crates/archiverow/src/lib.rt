// A row of an archive, read from its line: which row it is, its index, and where its rest starts; then weight, chance and words of an arrival's rest, written out or
// named. The line is given without its line feed. Coordinates are read by `text::read_coordinates`.
#![tactic(auto)]

ghost use Rattle.std.specs.Prelude.{◌≡◌, ◌+◌, ◌≤◌, length};
ghost use Rattle.std.proofs.lemmas.List.Edits.{sets};
ghost use Rattle.text.specs.Pieces.{pieces_from};
ghost use Rattle.archiverow.specs.Rows.{weight_in, chance_in, arrival_words_in, is_arrival, is_dash, put_by, arrival_by, report_by, row_by};
ghost use Rattle.archiverow.specs.Read.{answer_at, read_line};

use refusals::Refusal;

// The longest row in form, without its line feed.
const LONGEST: usize = 8191;

// A row: the index of a put or an arrival, and the place where the fields of the rest start.
#[derive(Clone, Copy, Debug, PartialEq, Eq)]
pub enum Line {
    Puts { index: u64, start: usize },
    Arrives { index: u64, start: usize },
    Reports { start: usize },
}

#[tactic(auto, unfolding(crate::specs::Rows::is_dash))]
fn is_dash(field: &[u8]) -> bool
    ensures { result ≡ is_dash field.now }
{
    field.len() == 1 && field[0] == b'-'
}

// Whether the fields from a place on are an arrival's rest.
fn is_arrival(row: &[u8], start: usize) -> bool
    requires { start ≤ length row.now + 1 }
    ensures { result ≡ is_arrival (pieces_from 32 row.now start) }
{
    if row.len() < start {
        return false;
    }
    let end = text::piece_end(row, start, 32);
    if end == row.len() {
        return false;
    }
    if text::read_bits(&row[start..end]).is_none() {
        return false;
    }
    let words = end + 1;
    if form::all_words(row, words) {
        return true;
    }
    namedwords::is_named(row, words)
}

// The put of an index, and the arrival of one, whose rest starts at a place.
fn put_line(row: &[u8], index: Option<u64>, start: usize) -> Result<Line, Refusal>
    requires { start ≤ length row.now + 1 }
    ensures { result ≡ answer_at start (put_by index (pieces_from 32 row.now start)) }
{
    match index {
        Some(index) if form::all_coordinates(row, start) => Ok(Line::Puts { index, start }),
        _ => Err(Refusal::OutOfForm),
    }
}

fn arrival_line(row: &[u8], index: Option<u64>, start: usize) -> Result<Line, Refusal>
    requires { start ≤ length row.now + 1 }
    ensures { result ≡ answer_at start (arrival_by index (pieces_from 32 row.now start)) }
{
    let Some(index) = index else {
        return Err(Refusal::OutOfForm);
    };
    if !is_arrival(row, start) {
        return Err(Refusal::OutOfForm);
    }
    if namedwords::is_beyond(row, text::after_field(row, start)) {
        return Err(Refusal::PastStream);
    }
    Ok(Line::Arrives { index, start })
}

// The report whose dash is a field, and whose rest starts at a place.
#[tactic(auto, unfolding(crate::specs::Rows::report_by))]
fn report_line(row: &[u8], field: &[u8], start: usize) -> Result<Line, Refusal>
    requires { start ≤ length row.now + 1 }
    ensures { result ≡ answer_at start (report_by field.now (pieces_from 32 row.now start)) }
{
    if !is_dash(field) {
        return Err(Refusal::OutOfForm);
    }
    if !form::all_coordinates(row, start) {
        return Err(Refusal::OutOfForm);
    }
    Ok(Line::Reports { start })
}

// The row of an op and a second field, whose rest starts at a place.
#[tactic(auto, unfolding(crate::specs::Rows::row_by))]
fn line_by_op(row: &[u8], op: u64, field: &[u8], start: usize) -> Result<Line, Refusal>
    requires { start ≤ length row.now + 1 }
    ensures { result ≡ answer_at start (row_by op field.now (pieces_from 32 row.now start)) }
{
    match op {
        0 => put_line(row, text::read_number(field), start),
        3 => arrival_line(row, text::read_number(field), start),
        4 => report_line(row, field, start),
        _ => Err(Refusal::OutOfForm),
    }
}

// What the row of a line is; 17 where it is out of form, and 22 of an arrival that names words which the stream has not.
// Rules out an arrival with no word for its starting chance taken, and a report with an index taken.
pub fn read_line(row: &[u8]) -> Result<Line, Refusal>
    ensures { result ≡ read_line row.now }
{
    if LONGEST < row.len() {
        return Err(Refusal::OutOfForm);
    }
    let first = text::piece_end(row, 0, 32);
    if first == row.len() {
        return Err(Refusal::OutOfForm);
    }
    let start = first + 1;
    let second = text::piece_end(row, start, 32);
    let Some(op) = text::read_number(&row[0..first]) else {
        return Err(Refusal::OutOfForm);
    };
    line_by_op(row, op, &row[start..second], second + 1)
}

// The weight of an arrival's rest that starts at a place, for every bit pattern.
// Rules out the digits read as a whole number, and the weight of the field after it.
pub fn read_weight(row: &[u8], start: usize) -> f32
    ensures { result ≡ weight_in (pieces_from 32 row.now start) }
{
    if row.len() < start {
        return 0.0;
    }
    let end = text::piece_end(row, start, 32);
    let bits = text::read_bits(&row[start..end]).unwrap_or(0);
    little::float_of(bits as u32)
}

// The word for the starting chance of an arrival's rest that starts at a place, written out or named.
// Rules out the weight's field read as it, and the first of the tree's words.
pub fn read_chance(row: &[u8], start: usize) -> u64
    ensures { result ≡ chance_in (pieces_from 32 row.now start) }
{
    let at = text::after_field(row, start);
    if namedwords::is_named(row, at) {
        return namedwords::read_chance(row, at);
    }
    text::word_from(row, at)
}

// The tree's words of an arrival's rest that starts at a place, written out or named, as many as the lent buffer holds; its other places stay. Gives how many the row
// has.
// Rules out the word for the starting chance as the first of them, and a count of those stored alone.
pub fn read_arrival_words(row: &[u8], start: usize, words: &mut [u64]) -> usize
    ensures value { result ≡ length (arrival_words_in (pieces_from 32 row.now start)) }
    ensures words_after { words.new ≡ sets words.old 0 (arrival_words_in (pieces_from 32 row.now start)) }
{
    let chance = text::after_field(row, start);
    if namedwords::is_named(row, chance) {
        return namedwords::read_words(row, chance, words);
    }
    let at = text::after_field(row, chance);
    text::read_words(row, at, words)
}
