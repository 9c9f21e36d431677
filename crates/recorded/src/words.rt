// Numbers of 32 and 64 bits written to a lent buffer. What lies beyond its end is counted and not stored.
ghost use Rattle.std.specs.Prelude.{◌≡◌, cond, ◌+◌, ◌*◌, ◌≤◌, ◌<◌};
ghost use Rattle.lines.specs.Lines.{Wrote};
ghost use Rattle.little.specs.Little.{bytes32};
ghost use Rattle.recorded.specs.Words.{bytes64, pair_bytes};

// A test's answer as a number.
// Rules out the answers swapped.
pub fn bit(b: bool) -> usize
    ensures { (result ≡ cond b 1 0) × (result ≤ 1) }
{
    if b { 1 } else { 0 }
}

// Writes the lowest 32 bits of a number, and gives the next place.
// Rules out a byte of them left out, and a place that the next number overlaps.
pub fn put_word(out: &mut [u8], at: usize, x: usize) -> usize
    requires { at < 1000000000000 }
    ensures wrote { Wrote out.old at (bytes32 x) result out.new }
    ensures next { result ≡ at + 4 }
{
    let mut word = [0u8; 4];
    little::put_u32(&mut word, 0, x);
    lines::put_bytes(out, at, &word)
}

// Writes a number of 64 bits, its lower half first.
// Rules out the halves swapped.
pub fn put_double(out: &mut [u8], at: usize, x: usize) -> usize
    requires { at < 100000000000 }
    ensures wrote { Wrote out.old at (bytes64 x) result out.new }
    ensures next { result ≡ at + 8 }
{
    let p = put_word(out, at, x);
    put_word(out, p, x / 4294967296)
}

// Writes two numbers of 16 bits.
// Rules out the numbers swapped.
pub fn put_pair(out: &mut [u8], at: usize, pair: [u16; 2]) -> usize
    requires { at < 100000000000 }
    ensures wrote { Wrote out.old at (pair_bytes pair) result out.new }
    ensures next { result ≡ at + 4 }
{
    put_word(
        out,
        at,
        casts::wide16(pair[0]) + 65536 * casts::wide16(pair[1]),
    )
}
