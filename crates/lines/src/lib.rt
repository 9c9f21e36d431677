// The lines that `treelist` prints, written to a lent buffer: numbers in decimal and in hexadecimal, a branch's line, a leaf's, a refused row's and the line
// of names. What lies beyond the buffer's end is counted and not stored, so that a buffer of any size will do.
#![tactic(auto)]

ghost use Rattle.std.specs.Prelude.{◌≡◌, [], ◌∷◌, ◌+◌, ◌≤◌, ◌<◌, length, set};
ghost use Rattle.lines.specs.Lines.{digit, decimal, hex, number_field, last_number_field, branch_line, leaf_line, refused_line, names_line, Wrote};
ghost use Rattle.lines.specs.Placed.{placed};

// The byte of a digit, `0` to `9` and `A` to `F`.
#[tactic(auto, unfolding(crate::specs::Lines::digit))]
fn digit_of(d: usize) -> u8
    requires { d < 16 }
    ensures { result ≡ digit d }
{
    if d < 10 {
        return (48 + d) as u8;
    }
    (55 + d) as u8
}

// Sets a byte so many places after a place, if the line has that place.
fn set_after(out: &mut [u8], at: usize, count: usize, b: u8)
    ensures { out.new ≡ set out.old (at + count) b }
{
    if at < out.len() && count < out.len() - at {
        out[at + count] = b;
    }
}

// Stores a byte at a place, if the buffer has it, and gives the next place.
fn put_byte(out: &mut [u8], at: usize, b: u8) -> usize
    requires { at < 1099511627776 }
    ensures { Wrote out.old at (b ∷ []) result out.new }
{
    set_after(out, at, 0, b);
    at + 1
}

// Writes a number in decimal: sets each digit in the line at its place, and keeps none besides. Answers how many there are; those beyond the line's end are
// counted and not set.
// Rules out a digit at the neighbouring place, and a leading zero, with which a byte beyond the number is touched.
pub fn put_decimal(out: &mut [u8], at: usize, n: usize) -> usize
    ensures placed { (result, out.new) ≡ placed out.old at (decimal n) }
    ensures few { result ≤ 20 }
{
    if n < 10 {
        set_after(out, at, 0, digit_of(n));
        return 1;
    }
    let count = put_decimal(out, at, n / 10);
    set_after(out, at, count, digit_of(n % 10));
    count + 1
}

// Writes the last `count` hexadecimal digits of a number, upper-case.
// Rules out lower-case digits, and leading zeros left out.
pub fn put_hex(out: &mut [u8], at: usize, count: usize, n: usize) -> usize
    requires at_bound { at < 1000000000000 }
    requires count_bound { count ≤ 16 }
    ensures wrote { Wrote out.old at (hex count n) result out.new }
    ensures few { result ≡ at + count }
{
    if count == 0 {
        return at;
    }
    let p = put_hex(out, at, count - 1, n / 16);
    put_byte(out, p, digit_of(n % 16))
}

// Writes bytes as they are.
// Rules out one byte of them left out, and an end to them at a line feed.
pub fn put_bytes(out: &mut [u8], at: usize, bytes: &[u8]) -> usize
    requires at_bound { at < 1000000000000 }
    requires bytes_len_bound { length bytes.now ≤ 64 }
    ensures { Wrote out.old at bytes.now result out.new }
{
    let mut p = at;
    for byte in bytes {
        p = put_byte(out, p, *byte);
    }
    p
}

// A number that others follow, with the space after it. With the byte as a parameter one function would do for both, and each caller would have to name it.
// Rules out the space before it, and a line feed after it.
pub fn put_field(out: &mut [u8], at: usize, n: usize) -> usize
    requires { at < 1000000000000 }
    ensures wrote { Wrote out.old at (number_field n) result out.new }
    ensures few { result ≤ at + 21 }
{
    let count = put_decimal(out, at, n);
    put_byte(out, at + count, 32)
}

// The last number of a line, with the line feed after it.
// Rules out a space before the line feed, and no line feed.
pub fn put_last(out: &mut [u8], at: usize, n: usize) -> usize
    requires { at < 1000000000000 }
    ensures wrote { Wrote out.old at (last_number_field n) result out.new }
    ensures few { result ≤ at + 21 }
{
    let count = put_decimal(out, at, n);
    put_byte(out, at + count, 10)
}

// Writes `refused N R`.
// Rules out row and number swapped, and a line with no line feed.
pub fn put_refused(out: &mut [u8], at: usize, number: usize, row: usize) -> usize
    requires { at < 100000000000 }
    ensures wrote { Wrote out.old at (refused_line number row) result out.new }
    ensures few { result ≤ at + 50 }
{
    let p = put_bytes(out, at, b"refused ");
    let q = put_field(out, p, number);
    put_last(out, q, row)
}

// Writes the line of names that stands above a tree's nodes.
// Rules out a name left out, and a line with no line feed.
pub fn put_names(out: &mut [u8], at: usize) -> usize
    requires { at < 100000000000 }
    ensures { Wrote out.old at names_line result out.new }
{
    put_bytes(out, at, b"id dimension cut left right mass\n")
}

// Writes a leaf's line.
// Rules out three dashes for four, and the mass before them.
pub fn put_leaf(out: &mut [u8], at: usize, id: usize, mass: usize) -> usize
    requires { at < 100000000000 }
    ensures wrote { Wrote out.old at (leaf_line id mass) result out.new }
    ensures few { result ≤ at + 50 }
{
    let p = put_field(out, at, id);
    let q = put_bytes(out, p, b"- - - - ");
    put_last(out, q, mass)
}

// Writes a branch's line, its cut by the cut's bits.
// Rules out left and right swapped, and a cut's leading zeros left out.
pub fn put_branch(
    out: &mut [u8],
    at: usize,
    id: usize,
    dimension: usize,
    cut: usize,
    left: usize,
    right: usize,
    mass: usize,
) -> usize
    requires { at < 100000000000 }
    ensures wrote { Wrote out.old at (branch_line id dimension cut left right mass) result out.new }
    ensures few { result ≤ at + 130 }
{
    let p1 = put_field(out, at, id);
    let p2 = put_field(out, p1, dimension);
    let p3 = put_hex(out, p2, 8, cut);
    let p4 = put_byte(out, p3, 32);
    let p5 = put_field(out, p4, left);
    let p6 = put_field(out, p5, right);
    put_last(out, p6, mass)
}
