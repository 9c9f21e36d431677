// An input read to the start of a lent buffer, until the buffer is full or no more comes.
#![tactic(auto)]

ghost use Rattle.std.specs.Prelude.{◌≤◌, length, take};
ghost use Rattle.std.specs.Io.KnownBytes.{Consumes};

use std::io::Read;

// How many bytes came: those that the input had next, where that is known. How many come is free, up to the buffer's length: an input may end early, and a read that
// fails is taken for its end. So is what stands in the buffer beyond them.
// Rules out a count beyond the buffer, a byte lost or told twice, and a wait without end for bytes that do not come.
pub fn read_full<R: Read>(input: &mut R, bytes: &mut [u8]) -> usize
    ensures within { result ≤ length bytes.old }
    ensures takes { Consumes (R.remaining input.old) (R.remaining input.new) (take result bytes.new) }
{
    let mut came: usize = 0;
    // A turn goes on by what a read brought, so this is no `for`.
    while came < bytes.len() {
        match input.read(&mut bytes[came..]) {
            Ok(0) | Err(_) => return came,
            Ok(more) => {
                came += more;
            }
        }
    }
    came
}
