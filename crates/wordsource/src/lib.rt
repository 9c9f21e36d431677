// Words from a key (document 02, A.6): the stream of a key's words, filled into a lent list from any of its numbers on.
#![tactic(auto)]

ghost use Rattle.std.specs.Prelude.{◌≡◌, ◌+◌, ◌-◌, ◌*◌, ◌≤◌, ◌<◌, min, length, take, set, ◌++◌};
ghost use Rattle.wordsource.specs.Stream.{key_bytes, word_limit, stream_words};
ghost use Rattle.wordsource.specs.Pairs.{words_of};
ghost use Rattle.wordsource.specs.Filled.{filled};

use chacha20::State;
use refusals::Refusal;

// The bytes of a key.
const KEY: usize = 32;

// So many words has a stream: eight for each of 2^32 blocks.
pub const LIMIT: u64 = 1 << 35;

// The word of two numbers of a block, the lower half first.
fn word_of(low: u32, high: u32) -> u64
    ensures { result ≡ low + 4294967296 * high }
{
    u64::from(low) + 4294967296 * u64::from(high)
}

// Sets the words of a block, from the word `from` of its eight on, in the list from a place on, as far as both go. Answers the place after them.
fn put_words(block: &State, from: usize, words: &mut [u64], at: usize) -> usize
    requires { (from < 8) × (at < length words.old) }
    ensures count { result ≡ min (at + (8 - from)) (length words.old) }
    ensures words { take result words.new ≡ take at words.old ++ words_of block.now from (result - at) }
{
    let end = casts::at_most(at + (8 - from), words.len());
    for i in at..end {
        let k = 2 * (from + (i - at));
        words[i] = word_of(block[k], block[k + 1]);
    }
    end
}

// The state of a key's block, from that of block 0.
fn at_block(first: State, number: u32) -> State
    ensures { result ≡ set first 12 number }
{
    let mut state = first;
    state[12] = number;
    state
}

// Fills a list that the stream has words for, block by block.
fn put_stream(key: &[u8; KEY], start: u64, words: &mut [u64])
    requires { start + length words.old ≤ word_limit }
    ensures { words.new ≡ stream_words key.now start (length words.old) }
{
    let first = chacha20::state_of(key, 0, &[0; 12]);
    let mut block = [0u32; 16];
    let mut i: usize = 0;
    // Kept as a `while`: each turn goes on by the words of one block, eight at most, and fewer at the list's start and end.
    while i < words.len() {
        let n = start + i as u64;
        chacha20::block_of(&at_block(first, (n / 8) as u32), &mut block);
        i = put_words(&block, (n % 8) as usize, words, i);
    }
}

// Fills a lent list with the words of a key's stream from a number on, and answers how many they are; or refuses, and writes nothing.
// Rules out a stream that begins anew with each call, and a list filled up to the stream's end where it runs past it.
pub fn fill(key: &[u8], start: u64, words: &mut [u64]) -> Result<usize, Refusal>
    ensures { (result, words.new) ≡ filled key.now start words.old }
{
    let Some(key) = key.as_array::<KEY>() else {
        return Err(Refusal::KeyLength);
    };
    if start >= LIMIT {
        return Err(Refusal::PastStream);
    }
    let count = words.len();
    if LIMIT - start < count as u64 {
        return Err(Refusal::PastStream);
    }
    put_stream(key, start, words);
    Ok(count)
}
