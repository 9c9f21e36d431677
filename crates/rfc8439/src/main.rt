// Runs the vectors of RFC 8439 (VECTORS.md): standard input has one to a line, and standard output says how many lines there are and how many hold.
#![tactic(auto)]

ghost use Rattle.std.specs.Prelude.{◌≡◌, length, bytes_eq};
ghost use Rattle.text.specs.Pieces.{pieces};
ghost use Rattle.chacha20.specs.Block.{chacha20_block};
ghost use Rattle.rfc8439.specs.Vectors.{counter_of, holds, holding};

use std::io;

// So many bytes of standard input are read at most.
const READ: usize = 65536;

// The bytes of a line, without its line feed.
const LINE: usize = 227;

// How many pieces a text has between its line feeds, and how many of them hold.
#[derive(Clone, Copy)]
struct Counts {
    pieces: usize,
    held: usize,
}

// Whether the block of a key, a counter and a nonce is the expected one.
fn agrees(key: &[u8; 32], counter: u32, nonce: &[u8; 12], expected: &[u8; 64]) -> bool
    ensures { result ≡ bytes_eq (chacha20_block key.now counter nonce.now) expected.now }
{
    let mut block = [0u8; 64];
    chacha20::chacha20_block(key, counter, nonce, &mut block);
    block == *expected
}

fn counter_of(field: &[u8]) -> u32
    ensures { result ≡ counter_of field.now }
{
    (text::read_bits(field).unwrap_or(0) % 4294967296) as u32
}

// Whether a line is a vector that holds.
// Rules out a line of another form passed over, and the counter of the line before.
fn line_holds(line: &[u8]) -> bool
    ensures { result ≡ holds line.now }
{
    let mut key = [0u8; 32];
    let mut nonce = [0u8; 12];
    let mut expected = [0u8; 64];
    if line.len() != LINE {
        return false;
    }
    if !hexbytes::read_hex(&line[0..64], &mut key) {
        return false;
    }
    if !hexbytes::read_hex(&line[74..98], &mut nonce) {
        return false;
    }
    if !hexbytes::read_hex(&line[99..227], &mut expected) {
        return false;
    }
    agrees(&key, counter_of(&line[65..73]), &nonce, &expected)
}

// Counts the pieces between a text's line feeds, and those that hold. What stands after the last line feed is a piece too.
// Rules out a line that does not hold counted as one, and the last line passed over.
fn count(text: &[u8]) -> Counts
    ensures { (result.pieces ≡ length (pieces 10 text.now)) × (result.held ≡ holding (pieces 10 text.now)) }
{
    let mut pieces: usize = 0;
    let mut held: usize = 0;
    for line in text.split(|byte| *byte == b'\n') {
        pieces += 1;
        if line_holds(line) {
            held += 1;
        }
    }
    Counts { pieces, held }
}

// Prints a number and a word after it.
fn say(rt: &impl Print, number: usize, word: &str) -> io::Result<()> {
    print!(rt; "{number}{word}")
}

fn main(rt: HostRuntime) -> io::Result<()> {
    let mut text = [0u8; READ];
    let come = inputs::read_full(&mut rt.reader(), &mut text);
    let counts = count(&text[..come]);
    if counts.pieces > 0 {
        say(&rt, counts.pieces - 1, " lines, ")?;
    }
    say(&rt, counts.held, " hold\n")
}
