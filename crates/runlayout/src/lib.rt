// The layout of a byte run (docs/LAYOUT.md): the numbers in it, whether all of it is in the layout, and how much its answers take.
#![tactic(auto)]

ghost use Rattle.std.specs.Prelude.{◌≡◌, true, ◌+◌, ◌*◌, ◌/◌, ◌<◌, ◌≤◌, length};
ghost use Rattle.runlayout.specs.Layout.{size, number, double, is_call, call_width, is_sampled, making_width, begins_with_making, width_at, stands_at, channels, capacity, rest_from};
ghost use Rattle.runlayout.specs.Check.{width_of_kind, verdict};

// How many whole numbers a run has.
// Rules out the number of bytes, and a number begun and not ended counted.
pub fn size_of(run: &[u8]) -> usize
    ensures { result ≡ size run.now }
{
    run.len() / 4
}

// The number at a place, as 32 bits.
// Rules out a place counted in bytes, and the highest byte first.
pub fn bits_at(run: &[u8], p: usize) -> u32
    requires { p < size run.now }
    ensures { result ≡ number run.now p }
{
    little::u32_at(run, 4 * p)
}

// The number at a place.
// Rules out the same, and a number above 32 bits.
pub fn number_at(run: &[u8], p: usize) -> usize
    requires { p < size run.now }
    ensures { (result ≡ number run.now p) × (result < 4294967296) }
{
    casts::wide32(bits_at(run, p))
}

// The number of 64 bits at a place.
// Rules out the second number as the lower half, and a place counted in eights.
pub fn double_at(run: &[u8], p: usize) -> u64
    requires { p + 1 < size run.now }
    ensures { result ≡ double run.now p }
{
    little::u64_at(run, 4 * p)
}

// Whether the run makes a sampled tree.
// Rules out a bare tree's run taken for a sampled one's.
pub fn is_sampled(run: &[u8]) -> bool
    requires { 0 < size run.now }
    ensures { result ≡ is_sampled run.now }
{
    number_at(run, 0) == 2
}

// How many numbers the making has.
// Rules out a bare tree's width for a sampled one, and a width in bytes.
pub fn making_width(run: &[u8]) -> usize
    requires { 0 < size run.now }
    ensures { (result ≡ making_width run.now) × (5 ≤ result) }
{
    if is_sampled(run) { 7 } else { 5 }
}

// Whether the run has whole numbers only and begins with a making.
// Rules out a sampled tree's making that ends before its initial share, and a run of no making.
pub fn begins_with_making(run: &[u8]) -> bool
    ensures { result ≡ begins_with_making run.now }
{
    run.len() % 4 == 0
        && size_of(run) != 0
        && matches!(number_at(run, 0), 1 | 2)
        && making_width(run) <= size_of(run)
}

// Whether a call of a kind may stand in the run of a bare or a sampled tree. Kinds stay numbers: those of docs/LAYOUT.md, which C writes.
fn is_call(sampled: bool, kind: usize) -> bool
    ensures { result ≡ is_call sampled kind }
{
    match kind {
        3 | 7..=10 => true,
        4 | 5 => !sampled,
        6 | 11 => sampled,
        _ => false,
    }
}

// The number at a place, 0 beyond the run's end.
// Rules out 0 for the last number, and a number read beyond the end.
pub fn number_or_none(run: &[u8], p: usize) -> usize
    requires { length run.now ≡ 4 * size run.now }
    ensures { (result ≡ number run.now p) × (result < 4294967296) }
{
    if p < size_of(run) {
        return number_at(run, p);
    }
    0
}

// How many numbers a call has, by its kind, its third number and its sixth.
#[tactic(auto, unfolding(crate::specs::Layout::call_width))]
fn call_width(kind: usize, third: usize, sixth: usize) -> usize
    requires { (third < 4294967296) × (sixth < 4294967296) }
    ensures { (result ≡ call_width kind third sixth) × (1 ≤ result) × (result < 8589934600) }
{
    match kind {
        3 | 7 => 3 + third,
        4 => 3 + 2 * third,
        6 => 6 + 2 * sixth,
        11 => 1,
        _ => 2,
    }
}

// How many numbers the call at a place has.
// Rules out an arrival's words counted by its third number, and a width of 0, at which a run would never end.
pub fn width_at(run: &[u8], p: usize) -> usize
    requires { (p < size run.now) × (length run.now ≡ 4 * size run.now) }
    ensures { (result ≡ width_at run.now p) × (1 ≤ result) × (result < 8589934600) }
{
    let third = number_or_none(run, p + 2);
    let sixth = number_or_none(run, p + 5);
    call_width(number_at(run, p), third, sixth)
}

// Whether a call stands at a place and ends within the run.
fn stands_at(run: &[u8], p: usize, sampled: bool) -> bool
    requires { (p < size run.now) × (length run.now ≡ 4 * size run.now) × (sampled ≡ is_sampled run.now) }
    ensures { result ≡ stands_at run.now p }
{
    is_call(sampled, number_at(run, p)) && p + width_at(run, p) <= size_of(run)
}

// How many numbers the answer to a call has, by its kind and its second number, in a tree of d channels and capacity c.
#[tactic(auto, unfolding(crate::specs::Check::width_of_kind))]
fn width_of_kind(kind: usize, second: usize, d: usize, c: usize) -> usize
    requires { (d < 4294967296) × (c < 4294967296) × (second < 4294967296) }
    ensures { (result ≡ width_of_kind d c kind second) × (result < 34359738368) }
{
    match kind {
        3 => 1,
        4 => 3,
        6 => 4,
        7 => 2 + 5 * second,
        9 => 6,
        10 => 1 + 2 * d,
        11 => 2 + 2 * c,
        _ => 2,
    }
}

// How many numbers the answer to the call at a place has.
// Rules out a report's answer counted without its rows.
pub fn answer_width(run: &[u8], p: usize) -> usize
    requires { (begins_with_making run.now ≡ true) × (p < size run.now) }
    ensures { (result ≡ width_of_kind (channels run.now) (capacity run.now) (number run.now p) (number run.now (p + 1))) × (result < 34359738368) }
{
    let second = number_or_none(run, p + 1);
    width_of_kind(
        number_at(run, p),
        second,
        number_at(run, 1),
        number_at(run, 2),
    )
}

// Whether as many answer numbers are lent as the calls after the making need, beside the making's one; None where these are out of the layout.
// Rules out a call cut short at the run's end, and answers too few told for a run that is out of the layout.
pub fn check_calls(run: &[u8], lent: usize) -> Option<bool>
    requires { (begins_with_making run.now ≡ true) × (lent < 4611686018427387904) }
    ensures { result ≡ verdict (channels run.now) (capacity run.now) lent 1 (rest_from run.now (channels run.now) (making_width run.now)) }
{
    let n = size_of(run);
    let sampled = is_sampled(run);
    let mut p = making_width(run);
    let mut used: usize = 1;
    // A turn goes on by a call's width, so this is no `for`.
    while p < n {
        if !stands_at(run, p, sampled) {
            return None;
        }
        used = used.saturating_add(answer_width(run, p));
        p += width_at(run, p);
    }
    Some(used <= lent)
}
