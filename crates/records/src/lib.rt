// Records of what the Rust answers (crates/replay/RECORDED.md): read from an input, held to what the port answers and counted. Nothing is written.
#![tactic(auto)]

ghost use Rattle.std.specs.Prelude.{◌≡◌, ◌+◌, ◌<◌, ◌≤◌, ◌&&◌, [], length, drop, ◌==◌, nat_le, nat_lt, slice_index_or, slice_set, MatchResult};
ghost use Rattle.records.specs.Agreeing.{agreeing};
ghost use Rattle.records.specs.Records.{kinds, room, counted, Read, Reason, judgement, agreed};

use std::io;

// The kinds of records are the numbers below this.
pub const KINDS: usize = 13;

// No record is given more bytes, or answered with more.
pub const ROOM: usize = 16384;

// What is lent for an answer, before the call.
pub const LENT: u8 = 170;

// The bytes that a record begins with.
const HEAD: usize = 16;

// Of each kind, how many records are compared and how many of them agree.
pub type Counts = [[usize; 2]; KINDS];

// Why no record is read: the input is at its end, it ends within one, it has none, or none begins so.
#[derive(Clone, Copy, Debug, PartialEq, Eq)]
pub enum NoRecord {
    Ended,
    Short,
    Empty,
    Malformed,
}

// A record: its kind, the length of what is given, the number returned and the length of what is written.
#[derive(Clone, Copy)]
pub struct Record {
    pub kind: usize,
    pub size: usize,
    pub returned: usize,
    pub count: usize,
}

// Whether the port agrees with a record, and how many bytes of the buffer are as recorded, from its start on.
#[derive(Clone, Copy)]
pub struct Judgement {
    pub agrees: bool,
    pub same: usize,
}

// Reads n bytes of an input to the start of a buffer, and gives how many came. Which bytes come is free, and how many, up to n; the bytes from n
// on stay as they were.
fn read_bytes(input: &mut impl io::Read, bytes: &mut [u8], n: usize) -> usize
    requires { n ≤ length bytes.old }
    ensures few { result ≤ n }
    ensures beyond { drop n bytes.new ≡ drop n bytes.old }
{
    inputs::read_full(input, &mut bytes[..n])
}

// The end of the input within a record's beginning, or before it.
fn stopped(number: usize, came: usize) -> NoRecord
    ensures { Reason number result }
{
    if came > 0 {
        NoRecord::Short
    } else if number == 0 {
        NoRecord::Empty
    } else {
        NoRecord::Ended
    }
}

// The number at a place of four bytes.
fn number_at(bytes: &[u8], at: usize) -> usize
    requires { at + 4 ≤ length bytes.now }
{
    casts::wide32(little::u32_at(bytes, at))
}

// What a record begins with, from its bytes.
fn head_of(bytes: &[u8]) -> Record
    requires { length bytes.now ≡ 16 }
{
    Record {
        kind: number_at(bytes, 0),
        size: number_at(bytes, 4),
        returned: number_at(bytes, 8),
        count: number_at(bytes, 12),
    }
}

// Whether a record may begin so.
fn is_head(head: Record) -> bool
    ensures { result ≡ nat_lt head.kind kinds && (nat_le head.size room && nat_le head.count room) }
{
    (head.kind < KINDS) & ((head.size <= ROOM) & (head.count <= ROOM))
}

// Reads a record, what is given and what was recorded to the start of two buffers; or tells why there is none. Which bytes come is free; of a record that
// is read whole, the bytes beyond what is given and what was recorded stay as they were. Where there is none, so is what stands in the buffers.
// Rules out a kind taken that there is not, and a length that has no room.
pub fn read(
    input: &mut impl io::Read,
    number: usize,
    given: &mut [u8; ROOM],
    expected: &mut [u8; ROOM],
) -> Result<Record, NoRecord>
    ensures { MatchResult result (λ head. Read head given.old given.new expected.old expected.new) (λ why. Reason number why) }
{
    let mut bytes = [0u8; HEAD];
    let came = read_bytes(input, &mut bytes, HEAD);
    if came < HEAD {
        return Err(stopped(number, came));
    }
    let head = head_of(&bytes);
    if !is_head(head) {
        return Err(NoRecord::Malformed);
    }
    let first = read_bytes(input, given, head.size);
    let second = read_bytes(input, expected, head.count);
    if first + second < head.size + head.count {
        return Err(NoRecord::Short);
    }
    Ok(head)
}

// How many bytes at the start of both are the same.
// Rules out the bytes that are the same anywhere, and an end of the shorter taken for a difference in it.
fn agreeing_bytes(x: &[u8], y: &[u8]) -> usize
    ensures { result ≡ agreeing x.now y.now }
{
    x.iter().zip(y).take_while(|(a, b)| a == b).count()
}

// Whether the port returned the same number, and every byte lent is the same, those beyond the answer too.
// Rules out the bytes of the answer alone looked at, and its length alone.
fn agrees(returned: usize, got: usize, same: usize) -> bool
    ensures { result ≡ (returned == got) && (same == room) }
{
    (returned == got) & (same == ROOM)
}

// One record more is compared, and counted as one that agrees only if it does. No input has so many records that a count starts again at 0.
// Rules out a difference counted as agreement, and one that is not counted as compared.
fn count(counts: [usize; 2], same: bool) -> [usize; 2]
    ensures { result ≡ counted counts same }
{
    let compared = counts[0].wrapping_add(1);
    if same {
        return [compared, counts[1].wrapping_add(1)];
    }
    [compared, counts[1]]
}

// The same in the counts of all kinds.
fn tally(counts: &mut Counts, kind: usize, same: bool)
    requires { kind < kinds }
    ensures { counts.new ≡ slice_set counts.old kind (counted (slice_index_or counts.old kind []) same) }
{
    counts[kind] = count(counts[kind], same);
}

// Holds what the port returned and wrote to what was recorded, and counts it.
// Rules out a record counted under another kind, and one counted twice.
pub fn judge(
    head: Record,
    got: usize,
    expected: &[u8; ROOM],
    answers: &[u8; ROOM],
    counts: &mut Counts,
) -> Judgement
    requires { head.kind < kinds }
    ensures judged { result ≡ judgement head.returned got expected.now answers.now }
    ensures counts_after { counts.new ≡ slice_set counts.old head.kind (counted (slice_index_or counts.old head.kind []) (agreed head.returned got expected.now answers.now)) }
{
    let same = agreeing_bytes(expected, answers);
    let agrees = agrees(head.returned, got, same);
    tally(counts, head.kind, agrees);
    Judgement { agrees, same }
}
