// The first three lines of an archive, each given without its line feed: the names of the making's numbers, these numbers, and the names of the rows' fields.
#![tactic(auto)]

ghost use Rattle.std.specs.Prelude.{◌≡◌};
ghost use Rattle.archivehead.specs.Head.{is_making_names, is_row_names, making_of_line, making_says};

// The making's row: channels, capacity, and the cached and the initial share in sixteenths.
#[derive(Clone, Copy, Debug, PartialEq, Eq)]
pub struct MakingLine {
    pub channels: u64,
    pub capacity: u64,
    pub cached: u64,
    pub initial: u64,
}

// Whether a line is the first.
// Rules out a bare tree's line of names taken, and a line that only starts with these names.
pub fn is_making_names(line: &[u8]) -> bool
    ensures { result ≡ is_making_names line.now }
{
    let names: &[u8] = b"dimensions capacity cache16 initial16";
    line == names
}

// Whether a line is the third.
// Rules out the first line taken for it, and an empty line taken.
pub fn is_row_names(line: &[u8]) -> bool
    ensures { result ≡ is_row_names line.now }
{
    let names: &[u8] = b"op index rest";
    line == names
}

// What the second line is: four numbers, whether the tree takes them or not.
// Rules out the initial share told as the cached one, and a line of three numbers taken.
pub fn read_making(line: &[u8]) -> Option<MakingLine>
    ensures { making_of_line line.now ≡ making_says result }
{
    let a = text::piece_end(line, 0, 32);
    if a == line.len() {
        return None;
    }
    let b = text::piece_end(line, a + 1, 32);
    if b == line.len() {
        return None;
    }
    let c = text::piece_end(line, b + 1, 32);
    if c == line.len() {
        return None;
    }
    let d = text::piece_end(line, c + 1, 32);
    if d != line.len() {
        return None;
    }
    let channels = text::read_number(&line[0..a])?;
    let capacity = text::read_number(&line[a + 1..b])?;
    let cached = text::read_number(&line[b + 1..c])?;
    let initial = text::read_number(&line[c + 1..d])?;
    Some(MakingLine {
        channels,
        capacity,
        cached,
        initial,
    })
}
