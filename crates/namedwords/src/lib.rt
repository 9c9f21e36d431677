// The words that an arrival names in place of writing them out: a key, and the number of the first of them in the key's stream. They stand in the two fields after its
// weight, from a place of its row on.
#![tactic(auto)]

ghost use Rattle.std.specs.Prelude.{◌≡◌, true, ◌+◌, ◌-◌, ◌≤◌, ◌<◌, length, get_or, take, drop};
ghost use Rattle.std.proofs.lemmas.List.Edits.{sets};
ghost use Rattle.text.specs.Pieces.{pieces_from};
ghost use Rattle.hexbytes.specs.Hex.{hex_bytes};
ghost use Rattle.wordsource.specs.Stream.{stream_words};
ghost use Rattle.wordsource.specs.Filled.{is_stretch};
ghost use Rattle.namedwords.specs.Named.{is_key, is_named, key_in, first_in, row_words, is_beyond, named_in};

use limits::CAPACITY;
use wordsource::LIMIT;

// The bytes of a key.
const BYTES: usize = 32;

// The last number from which the stream has a word for the starting chance and those for the tree.
const LAST: u64 = LIMIT - 1 - CAPACITY as u64;

fn is_key(field: &[u8]) -> bool
    ensures { result ≡ is_key field.now }
{
    let mut key = [0u8; BYTES];
    hexbytes::read_hex(field, &mut key)
}

// Whether the fields from a place on are a key and a word number, and no more.
// Rules out a field after them taken, and a key of 32 digits taken.
pub fn is_named(row: &[u8], start: usize) -> bool
    ensures { result ≡ is_named (pieces_from 32 row.now start) }
{
    if row.len() < start {
        return false;
    }
    let end = text::piece_end(row, start, 32);
    if end == row.len() {
        return false;
    }
    let at = end + 1;
    if text::piece_end(row, at, 32) != row.len() {
        return false;
    }
    if !is_key(&row[start..end]) {
        return false;
    }
    form::all_words(row, at)
}

fn read_first(row: &[u8], start: usize) -> u64
    ensures { result ≡ first_in (pieces_from 32 row.now start) }
{
    let at = text::after_field(row, start);
    text::word_from(row, at)
}

// Whether the words that the fields from a place on name are more than the stream has.
// Rules out a stream of one word less, and words that are written out taken for such a number.
pub fn is_beyond(row: &[u8], start: usize) -> bool
    ensures { result ≡ is_beyond (pieces_from 32 row.now start) }
{
    if !is_named(row, start) {
        return false;
    }
    LAST < read_first(row, start)
}

fn key_of(field: &[u8]) -> [u8; 32]
    requires { is_key field.now ≡ true }
    ensures { result ≡ hex_bytes field.now }
{
    let mut key = [0u8; BYTES];
    hexbytes::read_hex(field, &mut key);
    key
}

fn read_key(row: &[u8], start: usize) -> [u8; 32]
    requires { is_named (pieces_from 32 row.now start) ≡ true }
    ensures { result ≡ key_in (pieces_from 32 row.now start) }
{
    let end = text::piece_end(row, start, 32);
    key_of(&row[start..end])
}

// Fills a lent list with words of the stream, from so many after the first named one on.
fn fill_from(row: &[u8], start: usize, skip: u64, words: &mut [u64])
    requires named { is_named (pieces_from 32 row.now start) ≡ true }
    requires had { is_stretch (first_in (pieces_from 32 row.now start)) row_words ≡ true }
    requires within { (skip < row_words) × (skip + length words.old ≤ row_words) }
    ensures { words.new ≡ stream_words (key_in (pieces_from 32 row.now start)) (first_in (pieces_from 32 row.now start) + skip) (length words.old) }
{
    let key = read_key(row, start);
    let first = read_first(row, start);
    let _ = wordsource::fill(&key, first + skip, words);
}

// The word for the starting chance that the fields from a place on name, 0 where the stream has too few.
// Rules out the first of the tree's words, and the key's first eight bytes read as a word.
pub fn read_chance(row: &[u8], start: usize) -> u64
    requires { is_named (pieces_from 32 row.now start) ≡ true }
    ensures { result ≡ get_or (named_in (pieces_from 32 row.now start)) 0 0 }
{
    if is_beyond(row, start) {
        return 0;
    }
    let mut words = [0u64; 1];
    fill_from(row, start, 0, &mut words);
    words[0]
}

// The words for the tree that they name, as many as the lent buffer holds; its other places stay. Gives how many they are, none where the stream has too few.
// Rules out the word for the starting chance as the first of them, and a buffer cleared beyond them.
pub fn read_words(row: &[u8], start: usize, words: &mut [u64]) -> usize
    requires { is_named (pieces_from 32 row.now start) ≡ true }
    ensures count { result ≡ length (drop 1 (named_in (pieces_from 32 row.now start))) }
    ensures words { words.new ≡ sets words.old 0 (drop 1 (named_in (pieces_from 32 row.now start))) }
{
    if is_beyond(row, start) {
        return 0;
    }
    let n = casts::at_most(words.len(), CAPACITY);
    fill_from(row, start, 1, &mut words[..n]);
    CAPACITY
}
