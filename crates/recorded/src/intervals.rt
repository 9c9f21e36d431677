// A recorded sequence of an interval manager: a size, then calls, each answered with how many rows are in use after it and the top one; at some places all
// rows are looked at.
ghost use Rattle.std.specs.Prelude.{◌≡◌, ◌+◌, ◌*◌, ◌≤◌, ◌<◌, length};
ghost use Rattle.limits.specs.Limits.{branch_limit};
ghost use Rattle.lines.specs.Lines.{Wrote};
ghost use Rattle.recorded.specs.Sequences.{look_bytes, top_of, rows_to, gotten, taken, called, rows_called, Told, Turned, sequence_answer};

use intervalstoremanager::{Got, IntervalStoreManager};
use limits::{BRANCHES, Free};

// What is given for a `get`, and for a look at all rows; any other number is released.
const GET: u16 = 65535;

const ROWS: u16 = 65534;

// The answer where nothing is left, or a number is not taken back.
const NONE: u16 = 65535;

// What a call answers, and the manager after it.
#[derive(Clone, Copy)]
pub struct Called {
    pub answer: u16,
    pub manager: IntervalStoreManager,
}

// The manager after a number of the sequence, and the next place to write to.
#[derive(Clone, Copy)]
pub struct Reached {
    pub manager: IntervalStoreManager,
    pub place: usize,
}

fn after_get(manager: IntervalStoreManager, got: Option<Got>) -> Called
    ensures { result ≡ gotten manager got }
{
    match got {
        Some(got) => Called {
            answer: got.index,
            manager: got.manager,
        },
        None => Called {
            answer: NONE,
            manager,
        },
    }
}

// A number that is taken back is its own answer.
fn after_release(
    manager: IntervalStoreManager,
    number: u16,
    released: Option<IntervalStoreManager>,
) -> Called
    ensures { result ≡ taken manager number released }
{
    match released {
        Some(after) => Called {
            answer: number,
            manager: after,
        },
        None => Called {
            answer: NONE,
            manager,
        },
    }
}

fn call(manager: IntervalStoreManager, number: u16, rows: &mut Free) -> Called
    ensures answer { result ≡ called manager rows.old number }
    ensures rows_after { rows.new ≡ rows_called manager rows.old number }
{
    if number == GET {
        return after_get(manager, manager.get(rows));
    }
    after_release(manager, number, manager.release(rows, number))
}

// The top row, zeros where there is none.
fn top_of(manager: IntervalStoreManager, rows: &Free) -> [u16; 2]
    ensures { result ≡ top_of manager rows.now }
{
    let n = casts::wide16(manager.last_in_use);
    if n == 0 {
        return [0, 0];
    }
    if BRANCHES < n {
        return [0, 0];
    }
    rows[n - 1]
}

// Writes what a call answers, the rows in use after it and the top one.
fn put_call(out: &mut [u8], at: usize, done: Called, rows: &Free) -> Reached
    requires { at < 10000000000 }
    ensures { Told done rows.now at out.old result out.new }
{
    let manager = done.manager;
    let p = crate::words::put_pair(out, at, [done.answer, manager.last_in_use]);
    Reached {
        manager,
        place: crate::words::put_pair(out, p, top_of(manager, rows)),
    }
}

// Writes all rows, those that are not in use too.
fn put_rows(out: &mut [u8], at: usize, rows: &Free) -> usize
    requires { at < 10000000000 }
    ensures wrote { Wrote out.old at (rows_to rows.now branch_limit) result out.new }
    ensures next { result ≡ at + look_bytes }
{
    let mut p = at;
    for row in rows {
        p = crate::words::put_pair(out, p, *row);
    }
    p
}

// One number more of a sequence: a look at all rows, or a call.
fn turn(
    out: &mut [u8],
    at: usize,
    number: u16,
    manager: IntervalStoreManager,
    rows: &mut Free,
) -> Reached
    requires { at < 10000000000 }
    ensures { Turned manager rows.old number at out.old result rows.new out.new }
{
    if number == ROWS {
        return Reached {
            manager,
            place: put_rows(out, at, rows),
        };
    }
    put_call(out, at, call(manager, number, rows), rows)
}

// The whole sequence: the size, then its calls in turn.
// Rules out rows that are not in use left out, and a refused call that changes the manager.
pub fn answer_sequence(given: &[u8], out: &mut [u8]) -> usize
    requires { length given.now ≤ 1048576 }
    ensures { Wrote out.old 0 (sequence_answer given.now) result out.new }
{
    let n = given.len() / 2;
    if n == 0 {
        return 0;
    }
    let mut rows = [[0u16; 2]; BRANCHES];
    let manager = IntervalStoreManager::new(little::u16_at(given, 0), &mut rows);
    let made = Called {
        answer: manager.get_capacity(),
        manager,
    };
    let mut state = put_call(out, 0, made, &rows);
    for i in 1..n {
        let number = little::u16_at(given, 2 * i);
        state = turn(out, state.place, number, state.manager, &mut rows);
    }
    state.place
}
