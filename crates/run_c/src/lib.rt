// What C calls of the port (harness/port/sicklephlox.h): a byte run (docs/LAYOUT.md), and the source of words. A library of Rattle exports nothing to C,
// so each export stands here, calls the function of its name in `run`, and promises what that promises.
#![tactic(auto)]

ghost use Rattle.std.specs.Prelude.{◌≡◌};
ghost use Rattle.run.specs.Outcome.{outcome};
ghost use Rattle.run.specs.Words.{words_outcome};

// Carries out a whole run, and writes its answers to the lent bytes; or refuses it, and writes nothing.
// Rules out a run taken that ends inside a call, and a byte written beyond the answers.
#[unsafe(no_mangle)]
pub extern "C" fn sicklephlox_run(run: &[u8], answers: &mut [u8]) -> usize
    ensures { (result, answers.new) ≡ outcome run.now answers.old }
{
    run::sicklephlox_run(run, answers)
}

// Fills a lent list with the words of a key's stream from a number on; or refuses, and writes nothing.
// Rules out the count of words returned in place of that of bytes, which may be 21 or 22 too, and a refused list written up to the stream's end.
#[unsafe(no_mangle)]
pub extern "C" fn sicklephlox_words(key: &[u8], start: u64, words: &mut [u64]) -> usize
    ensures { (result, words.new) ≡ words_outcome key.now start words.old }
{
    run::words::sicklephlox_words(key, start, words)
}
