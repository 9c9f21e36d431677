// The ChaCha20 block function of RFC 8439, in numbers and in bytes.
#![tactic(auto)]

ghost use Rattle.std.specs.Prelude.{◌≡◌, ◌*◌, ◌<◌, length};
ghost use Rattle.little.specs.Little.{bytes_of};
ghost use Rattle.chacha20.specs.Block.{plus, roll, quarter_round, quarter_at, columns, diagonals, inner_blocks, added, block_of, state_of, chacha20_block};

// The sixteen numbers that a block is worked out from, and of which it consists.
pub type State = [u32; 16];

// The four numbers of a quarter round.
#[derive(Clone, Copy)]
pub struct Quarter {
    pub a: u32,
    pub b: u32,
    pub c: u32,
    pub d: u32,
}

// The quarter round.
// Rules out a roll by another number of bits, and a number mixed in before it is added to.
pub fn quarter_round(a: u32, b: u32, c: u32, d: u32) -> Quarter
    ensures { result ≡ quarter_round a b c d }
{
    let a1 = a.wrapping_add(b);
    let d1 = (d ^ a1).rotate_left(16);
    let c1 = c.wrapping_add(d1);
    let b1 = (b ^ c1).rotate_left(12);
    let a2 = a1.wrapping_add(b1);
    let d2 = (d1 ^ a2).rotate_left(8);
    let c2 = c1.wrapping_add(d2);
    let b2 = (b1 ^ c2).rotate_left(7);
    Quarter {
        a: a2,
        b: b2,
        c: c2,
        d: d2,
    }
}

// The quarter round of four places of a state.
fn quarter_at(state: &mut State, x: usize, y: usize, z: usize, w: usize)
    requires { (x < 16) × (y < 16) × (z < 16) × (w < 16) }
    ensures { state.new ≡ quarter_at x y z w state.old }
{
    let q = quarter_round(state[x], state[y], state[z], state[w]);
    state[x] = q.a;
    state[y] = q.b;
    state[z] = q.c;
    state[w] = q.d;
}

// These four and the next four differ in their places alone; a function over the places would need them in a table, which says no more.
fn column_rounds(state: &mut State)
    ensures { state.new ≡ columns state.old }
{
    quarter_at(state, 0, 4, 8, 12);
    quarter_at(state, 1, 5, 9, 13);
    quarter_at(state, 2, 6, 10, 14);
    quarter_at(state, 3, 7, 11, 15);
}

fn diagonal_rounds(state: &mut State)
    ensures { state.new ≡ diagonals state.old }
{
    quarter_at(state, 0, 5, 10, 15);
    quarter_at(state, 1, 6, 11, 12);
    quarter_at(state, 2, 7, 8, 13);
    quarter_at(state, 3, 4, 9, 14);
}

// Twenty rounds are ten pairs of column and diagonal rounds.
const PAIRS: usize = 10;

// The twenty rounds.
fn twenty_rounds(state: &mut State)
    ensures { state.new ≡ inner_blocks 10 state.old }
{
    for _ in 0..PAIRS {
        column_rounds(state);
        diagonal_rounds(state);
    }
}

// Adds to each number of a block the state's.
fn add_state(block: &mut [u32], state: &[u32])
    requires { length state.now ≡ length block.old }
    ensures { block.new ≡ added block.old state.now }
{
    for (i, number) in block.iter_mut().enumerate() {
        *number = number.wrapping_add(state[i]);
    }
}

// The block of a state, in numbers: the twenty rounds, and the state added to what they leave.
// Rules out a block without that sum, from which the state could be worked out again, and eighteen rounds.
pub fn block_of(state: &State, block: &mut State)
    ensures { block.new ≡ block_of state.now }
{
    *block = *state;
    twenty_rounds(block);
    add_state(block, state);
}

// The state of a key, a block counter and a nonce.
// Rules out key and nonce read with the high byte first, and the counter after the nonce.
pub fn state_of(key: &[u8; 32], counter: u32, nonce: &[u8; 12]) -> State
    ensures { result ≡ state_of key.now counter nonce.now }
{
    [
        0x6170_7865,
        0x3320_646e,
        0x7962_2d32,
        0x6b20_6574,
        little::u32_at(key, 0),
        little::u32_at(key, 4),
        little::u32_at(key, 8),
        little::u32_at(key, 12),
        little::u32_at(key, 16),
        little::u32_at(key, 20),
        little::u32_at(key, 24),
        little::u32_at(key, 28),
        counter,
        little::u32_at(nonce, 0),
        little::u32_at(nonce, 4),
        little::u32_at(nonce, 8),
    ]
}

// The bytes of numbers, each with the lowest byte first.
fn put_each(numbers: &[u32], bytes: &mut [u8])
    requires { length bytes.old ≡ 4 * length numbers.now }
    ensures { bytes.new ≡ bytes_of numbers.now }
{
    for (i, number) in numbers.iter().enumerate() {
        little::put_u32(bytes, 4 * i, casts::wide32(*number));
    }
}

// The block of a key, a block counter and a nonce, in bytes.
// Rules out numbers with the highest byte first, and a counter that is not looked at.
pub fn chacha20_block(key: &[u8; 32], counter: u32, nonce: &[u8; 12], block: &mut [u8; 64])
    ensures { block.new ≡ chacha20_block key.now counter nonce.now }
{
    let state = state_of(key, counter, nonce);
    let mut numbers = [0u32; 16];
    block_of(&state, &mut numbers);
    put_each(&numbers, block);
}
