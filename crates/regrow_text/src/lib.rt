// The text of an archive as it comes: one read at a time, behind what is left of the text, which moves to its front. No contract can say what standard input
// brings; each says where what came stands, that it is what the input had next, where that is known, and that what was left is kept.
#![tactic(auto)]

ghost use Rattle.std.specs.Prelude.{◌≡◌, ◌+◌, ◌-◌, ◌≤◌, ◌<◌, length, take, drop, MatchOption};
ghost use Rattle.std.specs.Io.KnownBytes.{Consumes};
ghost use Rattle.text.specs.Pieces.{PieceEnds};
ghost use Rattle.regrow_text.specs.Reading.{Brings, Takes, ReadsOn, Stays, Follows, FollowTakes, Heads};

use std::io::Read;

// The first three lines have fewer bytes, if they are in form.
const HEAD: usize = 120;

// The longest row, without its line feed.
const LONGEST: usize = 8191;

// A read failed, or a line is too long, or the archive ends within one.
#[derive(Clone, Copy, Debug, PartialEq, Eq)]
pub struct Failed;

// What is left of a text between two places, after a batch of lines: bytes that are there or have come.
#[derive(Clone, Copy, Debug, PartialEq, Eq)]
pub struct Part {
    pub from: usize,
    pub to: usize,
}

// The first three lines of a text, each by the place of its line feed.
#[derive(Clone, Copy, Debug, PartialEq, Eq)]
pub struct Head {
    pub first: usize,
    pub second: usize,
    pub third: usize,
}

// One read, behind the bytes that are in the text: the place after those that it brought, or none at the archive's end. There is room for one at least, so that a
// read of none is that end.
fn read_more<R: Read>(input: &mut R, text: &mut [u8], at: usize) -> Result<Option<usize>, Failed>
    requires { at < length text.old }
    ensures brings { Brings at text.old result text.new }
    ensures kept { take at text.new ≡ take at text.old }
    ensures takes { Takes at (R.remaining input.old) (R.remaining input.new) result text.new }
{
    match input.read(&mut text[at..]) {
        Ok(0) => Ok(None),
        Ok(n) => Ok(Some(at + n)),
        Err(_) => Err(Failed),
    }
}

// Where the line from a place on ends, if its line feed is there.
fn line_end(text: &[u8], from: usize) -> Option<usize>
    requires { from ≤ length text.now }
    ensures { MatchOption result (PieceEnds 10 text.now from (length text.now)) (λ end. PieceEnds 10 text.now from end × (end < length text.now)) }
{
    let end = text::piece_end(text, from, 10);
    if end == text.len() {
        return None;
    }
    Some(end)
}

// Where the first three lines of a text end, if they are there.
// Rules out the last bytes of a text taken for the third line before its line feed has come, and an empty line passed over.
pub fn find_head(text: &[u8]) -> Option<Head>
    ensures { Heads text.now result }
{
    let first = line_end(text, 0)?;
    let second = line_end(text, first + 1)?;
    let third = line_end(text, second + 1)?;
    Some(Head {
        first,
        second,
        third,
    })
}

// Reads until the first three lines are there, or more bytes than they may have, or no more comes; how many bytes are in the text, which are those that the
// input had next. What stands in the text beyond them is free.
// Rules out a count beyond the text, a byte lost, and a wait without end for lines that do not come.
pub fn read_head<R: Read>(input: &mut R, text: &mut [u8]) -> usize
    requires { 8192 ≤ length text.old }
    ensures within { result ≤ length text.old }
    ensures takes { Consumes (R.remaining input.old) (R.remaining input.new) (take result text.new) }
{
    let mut to: usize = 0;
    // A turn goes on by what a read brought, so this is no `for`.
    while to <= HEAD && find_head(&text[..to]).is_none() {
        match read_more(input, text, to) {
            Ok(Some(next)) => {
                to = next;
            }
            Ok(None) | Err(Failed) => return to,
        }
    }
    to
}

// What comes after the bytes between two places, which have no line feed: more of their line, or the archive's end where they are none. A line that is too long,
// or that the archive ends in, counts as a failure.
fn read_on<R: Read>(
    input: &mut R,
    text: &mut [u8],
    from: usize,
    to: usize,
) -> Result<Option<usize>, Failed>
    requires { (from ≤ to) × (to ≤ length text.old) × (8192 ≤ length text.old) }
    ensures reads { ReadsOn (to - from) (drop from text.old) result text.new }
    ensures takes { Takes (to - from) (R.remaining input.old) (R.remaining input.new) result text.new }
{
    if to - from > LONGEST {
        return Err(Failed);
    }
    let left = to - from;
    text.copy_within(from..to, 0);
    let more = read_more(input, text, left)?;
    if more.is_none() && left > 0 {
        return Err(Failed);
    }
    Ok(more)
}

// What follows a batch that read so many of the bytes between two places: what it left, or where it read none more of the archive.
// Rules out a wait for more while whole lines are left, and an archive that is cut off within a line taken for one that ends.
pub fn follow<R: Read>(
    input: &mut R,
    text: &mut [u8],
    from: usize,
    to: usize,
    read: usize,
) -> Result<Option<Part>, Failed>
    requires { (from + read ≤ to) × (to ≤ length text.old) × (8192 ≤ length text.old) }
    ensures stays { Stays from to read text.old result text.new }
    ensures follows { Follows (to - (from + read)) (drop (from + read) text.old) result text.new }
    ensures takes { FollowTakes (to - (from + read)) (R.remaining input.old) (R.remaining input.new) result text.new }
{
    if read > 0 {
        return Ok(Some(Part {
            from: from + read,
            to,
        }));
    }
    match read_on(input, text, from, to)? {
        Some(next) => Ok(Some(Part { from: 0, to: next })),
        None => Ok(None),
    }
}
