// Recorded inputs of the functions of floats of `readings` and `little`, by the record's kind; each function's answer as a number of 64 bits.
ghost use Rattle.std.specs.Prelude.{◌≡◌, ◌≤◌, ◌<◌, length};
ghost use Rattle.lines.specs.Lines.{Wrote};
ghost use Rattle.recorded.specs.Floats.{value_of, floats_answer};

// The bytes of an input: its bits, and a capacity.
const INPUT: usize = 12;

// What the function of a kind answers to bits. The kinds are the recorded file's numbers.
#[tactic(auto, unfolding(crate::specs::Floats::value_of))]
fn value_of(kind: usize, bits: u64, capacity: u16) -> usize
    ensures { result ≡ value_of kind bits capacity }
{
    let x = little::float_of((bits % 4294967296) as u32);
    let y = little::double_of(bits);
    match kind {
        4 => crate::words::bit(readings::is_coordinate(x)),
        5 => crate::words::bit(readings::is_weight(x)),
        6 => crate::words::bit(readings::is_share(y)),
        7 => casts::wide64(little::pattern_of_double(readings::factor(bits))),
        8 => casts::wide32(little::pattern_of(readings::narrow(y))),
        9 => readings::cached_part(y, capacity),
        10 => casts::wide32(little::pattern_of(x)),
        _ => casts::wide64(little::pattern_of_double(y)),
    }
}

// The answers to all inputs, one after another.
// Rules out one function's answers for another's, and the last input left out.
pub fn answer_floats(kind: usize, given: &[u8], out: &mut [u8]) -> usize
    requires { length given.now ≤ 1048576 }
    ensures { Wrote out.old 0 (floats_answer kind given.now) result out.new }
{
    let n = given.len() / INPUT;
    let mut p: usize = 0;
    for i in 0..n {
        let bits = little::u64_at(given, INPUT * i);
        let capacity = little::u16_at(given, INPUT * i + 8);
        p = crate::words::put_double(out, p, value_of(kind, bits, capacity));
    }
    p
}
