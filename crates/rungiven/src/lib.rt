// What a call of a byte run brings (docs/LAYOUT.md): its coordinates, and its words.
#![tactic(auto)]

ghost use Rattle.std.specs.Prelude.{◌≡◌, ℕ, ◌+◌, ◌*◌, ◌≤◌, length};
ghost use Rattle.std.specs.Float.{binary32};
ghost use Rattle.std.specs.Float.Ieee.{of_bits};
ghost use Rattle.wholetree.specs.Whole.{tab};
ghost use Rattle.runlayout.specs.Layout.{size, number, double};

// Reads coordinates from a place on, as many as are lent room.
// Rules out a coordinate read from the place before, and a lent place left unwritten.
pub fn read_coordinates(run: &[u8], from: usize, coordinates: &mut [f32])
    requires { from + length coordinates.old ≤ size run.now }
    ensures { coordinates.new ≡ tab (length coordinates.old) (λ (i : ℕ). of_bits binary32 (number run.now (from + i))) }
{
    for i in 0..coordinates.len() {
        coordinates[i] = little::float_of(runlayout::bits_at(run, from + i));
    }
}

// The same of words, of two numbers each. One body for both would take the read as a closure, and be longer than these two.
// Rules out the halves of a word read in turn, and a word read from one number after the last's first.
pub fn read_words(run: &[u8], from: usize, words: &mut [u64])
    requires { from + 2 * length words.old ≤ size run.now }
    ensures { words.new ≡ tab (length words.old) (λ (i : ℕ). double run.now (from + 2 * i)) }
{
    for i in 0..words.len() {
        words[i] = runlayout::double_at(run, from + 2 * i);
    }
}
