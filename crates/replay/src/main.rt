// Replays recorded answers of the Rust (RECORDED.md): what the port returns and writes for each is held to what was recorded, and standard output says
// for each kind how many agree. What differs, and a record that cannot be replayed, is said too.
#![tactic(auto)]

ghost use Rattle.std.specs.Prelude.{◌≡◌, ◌≤◌, length};
ghost use Rattle.records.specs.Records.{room};
ghost use Rattle.replay.specs.Answers.{answered};

use records::{Counts, KINDS, LENT, NoRecord, ROOM};
use std::io;
use std::io::Read;

// So many records that differ are said; the others are only counted.
const SAID: usize = 20;

// Room for a space and a number.
const FIELD: usize = 21;

// What the port answers to what is given by a record of a kind.
// Rules out one kind's answer for another's, and an answer of none.
fn answer(kind: usize, given: &[u8], out: &mut [u8]) -> usize
    requires { length given.now ≤ room }
    ensures { (result, out.new) ≡ answered kind given.now out.old }
{
    // No enum of kinds: a file has their numbers, and eight of the thirteen go on to `answer_floats` as they are.
    match kind {
        0 => recorded::answer_cut(given, out),
        1 => recorded::answer_sequence(given, out),
        2 => run::sicklephlox_run(given, out),
        3 => treelist_text::treelist_output(given, out),
        12 => recorded_samples::answer_sample(given, out),
        _ => recorded::answer_floats(kind, given, out),
    }
}

// Prints a number, after a space.
fn say_number(rt: &impl Print, n: usize) -> io::Result<()> {
    let mut field = [b' '; FIELD];
    let end = 1 + lines::put_decimal(&mut field, 1, n);
    rt.write_all(&field[..end])
}

// Prints a line: a word, and numbers.
fn say(rt: &impl Print, word: &[u8], numbers: &[usize]) -> io::Result<()> {
    rt.write_all(word)?;
    for n in numbers {
        say_number(rt, *n)?;
    }
    rt.write_all(b"\n")
}

// Says that a record differs, if not too many did: what was returned and what was to be, and how many bytes of the buffer are as recorded, from its
// start on. Gives how many are said now.
fn told(
    rt: &impl Print,
    number: usize,
    said: usize,
    returned: usize,
    got: usize,
    same: usize,
) -> io::Result<usize> {
    if said >= SAID {
        return Ok(said);
    }
    say(rt, b"differs", &[number, returned, got, same])?;
    Ok(said + 1)
}

// A word on the end of the replay, where a record is not whole or there is none at all.
fn ended(rt: &impl Print, why: NoRecord, number: usize) -> io::Result<()> {
    match why {
        NoRecord::Ended => Ok(()),
        NoRecord::Short => say(rt, b"short", &[number]),
        NoRecord::Empty => say(rt, b"empty", &[number]),
        NoRecord::Malformed => say(rt, b"malformed", &[number]),
    }
}

// How many records that differ are said after one more record, or none at the end.
fn replay_one(
    rt: &impl Print,
    input: &mut impl Read,
    number: usize,
    said: usize,
    counts: &mut Counts,
) -> io::Result<Option<usize>> {
    let mut given = [0u8; ROOM];
    let mut expected = [LENT; ROOM];
    let head = match records::read(input, number, &mut given, &mut expected) {
        Ok(head) => head,
        Err(why) => {
            ended(rt, why, number)?;
            return Ok(None);
        }
    };
    let size = head.size;
    let mut answers = [LENT; ROOM];
    let got = answer(head.kind, &given[..size], &mut answers);
    let judged = records::judge(head, got, &expected, &answers, counts);
    if judged.agrees {
        return Ok(Some(said));
    }
    let now = told(rt, number, said, head.returned, got, judged.same)?;
    Ok(Some(now))
}

// A proved loop has to end, and nothing says that the input does; so records are counted up to a number that no input has.
fn replay_all(rt: &impl Print, input: &mut impl Read, counts: &mut Counts) -> io::Result<()> {
    let mut said: usize = 0;
    for number in 0..usize::MAX {
        match replay_one(rt, input, number, said, counts)? {
            Some(now) => {
                said = now;
            }
            None => return Ok(()),
        }
    }
    Ok(())
}

// The line of a kind.
fn say_kind(rt: &impl Print, kind: usize, counts: [usize; 2]) -> io::Result<()> {
    say(rt, b"kind", &[kind, counts[0], counts[1]])
}

fn main(rt: HostRuntime) -> io::Result<()> {
    let mut counts = [[0usize; 2]; KINDS];
    replay_all(&rt, &mut rt.reader(), &mut counts)?;
    for (kind, of_kind) in counts.iter().enumerate() {
        say_kind(&rt, kind, *of_kind)?;
    }
    Ok(())
}
