// The C entry of the source of words (docs/LAYOUT.md, 'Words from a key').
ghost use Rattle.std.specs.Prelude.{◌≡◌};
ghost use Rattle.run.specs.Words.{words_outcome};

// Fills a lent list with the words of a key's stream from a number on; or refuses, and writes nothing.
// Rules out the count of words returned in place of that of bytes, which may be 21 or 22 too, and a refused list written up to the stream's end.
pub fn sicklephlox_words(key: &[u8], start: u64, words: &mut [u64]) -> usize
    ensures { (result, words.new) ≡ words_outcome key.now start words.old }
{
    match wordsource::fill(key, start, words) {
        Ok(count) => 8 * count,
        Err(refusal) => refusal.number(),
    }
}
