// The free branch numbers of a tree, handed out and taken back in the Rust's order: a port of intervalstoremanager.rs.
// The rows are lent by the caller, and the manager of them is passed and returned by value. `change_capacity`, `used` and `get_size`
// are left out, as no tree calls them. Nothing is required of a caller: any manager, rows and number are answered.
#![tactic(auto)]

ghost use Rattle.std.specs.Prelude.{◌≡◌, eqb, length};
ghost use Rattle.intervalstoremanager.specs.Stack.{fresh};
ghost use Rattle.intervalstoremanager.specs.Rows.{layout, got_of, rows_got, pushed_of, rows_pushed, released_of, rows_released};

use casts::wide16;
use limits::{BRANCHES, Free};

// The rows in use are the first `last_in_use` that go with this: a stack of free intervals, its top the last of them.
#[derive(Clone, Copy)]
pub struct IntervalStoreManager {
    pub capacity: u16,
    pub last_in_use: u16,
}

// The number handed out, and the manager after it.
#[derive(Clone, Copy)]
pub struct Got {
    pub index: u16,
    pub manager: IntervalStoreManager,
}

impl IntervalStoreManager {
    // The manager of the numbers 0 to size − 1, all free, and every row but theirs cleared. The Rust underflows at size 0; here no
    // number is free then.
    // Rules out numbers that end at `size`, and rows above the first left as they were lent.
    pub fn new(size: u16, rows: &mut Free) -> Self
        ensures answer { result ≡ record { capacity = size; last_in_use = length (fresh size) } }
        ensures rows_after { rows.new ≡ layout (fresh size) }
    {
        *rows = [[0, 0]; BRANCHES];
        if size == 0 {
            return Self {
                capacity: 0,
                last_in_use: 0,
            };
        }
        rows[0] = [0, size - 1];
        Self {
            capacity: size,
            last_in_use: 1,
        }
    }

    // Rules out the rows in use for the capacity, and a number of its own choosing.
    pub fn get_capacity(self) -> u16
        ensures { result ≡ self.capacity }
    {
        self.capacity
    }

    // Rules out the test turned round, and true while one interval is left.
    pub fn is_empty(self) -> bool
        ensures { result ≡ eqb self.last_in_use 0 }
    {
        self.last_in_use == 0
    }

    // The start of the top interval is handed out; none where no number is free, or more rows are said to be in use than there are, and then nothing is written.
    // The test is "below" where the Rust's is "not the same", so that one more than the start fits in whatever rows are lent. On the rows of a stack this is
    // `GetOnStack`, in specs/Rows.antt.
    // Rules out the end handed out, and the row of a spent interval left uncleared.
    pub fn get(self, rows: &mut Free) -> Option<Got>
        ensures answer { result ≡ got_of self rows.old }
        ensures rows_after { rows.new ≡ rows_got self rows.old }
    {
        let n = wide16(self.last_in_use);
        if n == 0 {
            return None;
        }
        if BRANCHES < n {
            return None;
        }
        let start = rows[n - 1][0];
        let end = rows[n - 1][1];
        if start < end {
            rows[n - 1] = [start + 1, end];
            return Some(Got {
                index: start,
                manager: self,
            });
        }
        rows[n - 1] = [0, 0];
        let manager = Self {
            capacity: self.capacity,
            last_in_use: self.last_in_use - 1,
        };
        Some(Got {
            index: start,
            manager,
        })
    }

    // An interval of one number on top, where there is a row for it.
    fn push(self, rows: &mut Free, index: u16) -> Option<Self>
        ensures answer { result ≡ pushed_of self }
        ensures rows_after { rows.new ≡ rows_pushed self rows.old index }
    {
        let n = wide16(self.last_in_use);
        if n < BRANCHES {
            rows[n] = [index, index];
            return Some(Self {
                capacity: self.capacity,
                last_in_use: self.last_in_use + 1,
            });
        }
        None
    }

    // The manager with the number back, which joins the top interval at either end, else becomes a new top; none where it needs a row of its own and no row is
    // left, and then nothing is written. On the rows of a stack this is `ReleaseOnStack`, and `NeverFull` says when it is not refused, both in specs/Rows.antt.
    // Rules out an interval below the top joined, and a new top for a number that touches it.
    pub fn release(self, rows: &mut Free, index: u16) -> Option<Self>
        ensures answer { result ≡ released_of self rows.old index }
        ensures rows_after { rows.new ≡ rows_released self rows.old index }
    {
        let n = wide16(self.last_in_use);
        if n == 0 {
            return self.push(rows, index);
        }
        if BRANCHES < n {
            return None;
        }
        let start = rows[n - 1][0];
        let end = rows[n - 1][1];
        if wide16(start) == wide16(index) + 1 {
            rows[n - 1] = [index, end];
            return Some(self);
        }
        if wide16(end) + 1 == wide16(index) {
            rows[n - 1] = [start, index];
            return Some(self);
        }
        self.push(rows, index)
    }
}
