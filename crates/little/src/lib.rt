// Numbers and floats in byte slices, the lowest byte first: how the byte run and the recorded answers lie.
#![tactic(auto)]

ghost use Rattle.std.specs.Prelude.{◌≡◌, ◌+◌, ◌≤◌, length, take, drop};
ghost use Rattle.std.specs.Float.{binary32, binary64};
ghost use Rattle.std.specs.Float.Ieee.{of_bits, to_bits};
ghost use Rattle.std.proofs.lemmas.List.Edits.{sets};
ghost use Rattle.little.specs.Little.{little16, little32, little64, bytes32};

// The bit of an f32's sign, and the pattern of infinity.
const SIGN: u32 = 2147483648;

const INFINITE: u32 = 2139095040;

// The same of an f64.
const SIGN64: u64 = 9223372036854775808;

const INFINITE64: u64 = 9218868437227405312;

// The pattern that is given to NaN, of the many that it has.
const NOT_A_NUMBER: u32 = 2143289344;

const NOT_A_NUMBER64: u64 = 9221120237041090560;

// So many bytes of a slice, from `at` on.
fn bytes_at<const N: usize>(bytes: &[u8], at: usize) -> [u8; N]
    requires { at + N ≤ length bytes.now }
    ensures { result ≡ take N (drop at bytes.now) }
{
    let mut part = [0u8; N];
    part.copy_from_slice(&bytes[at..at + N]);
    part
}

// The number in two bytes, from `at` on, the lowest byte first; and so in four and in eight.
// Each rules out the highest byte first, and halves that overlap.
pub fn u16_at(bytes: &[u8], at: usize) -> u16
    requires { at + 2 ≤ length bytes.now }
    ensures { result ≡ little16 bytes.now at }
{
    u16::from_le_bytes(bytes_at(bytes, at))
}

pub fn u32_at(bytes: &[u8], at: usize) -> u32
    requires { at + 4 ≤ length bytes.now }
    ensures { result ≡ little32 bytes.now at }
{
    u32::from_le_bytes(bytes_at(bytes, at))
}

pub fn u64_at(bytes: &[u8], at: usize) -> u64
    requires { at + 8 ≤ length bytes.now }
    ensures { result ≡ little64 bytes.now at }
{
    u64::from_le_bytes(bytes_at(bytes, at))
}

// Not one function over a trait for both widths: its impls would hold the format, both constants and both library calls of each, which is all there is here.
// The f32 of any pattern. `from_bits` is not defined at those of NaN, which stand above infinity's.
// Rules out NaN for every pattern above infinity's, which those with the sign are too, and 0 for one of NaN's.
pub fn float_of(bits: u32) -> f32
    ensures { result ≡ of_bits binary32 bits }
{
    if bits % SIGN > INFINITE {
        return f32::NAN;
    }
    f32::from_bits(bits)
}

// The pattern of any f32. `to_bits` is not defined at NaN.
// Rules out 0 for NaN, which is a number's, and the sign of −0.0 lost.
pub fn pattern_of(x: f32) -> u32
    ensures { result ≡ to_bits binary32 x }
{
    if x.is_nan() {
        return NOT_A_NUMBER;
    }
    f32::to_bits(x)
}

// The f64 of any pattern.
// Rules out NaN for every pattern above infinity's, which those with the sign are too, and 0 for one of NaN's.
pub fn double_of(bits: u64) -> f64
    ensures { result ≡ of_bits binary64 bits }
{
    if bits % SIGN64 > INFINITE64 {
        return f64::NAN;
    }
    f64::from_bits(bits)
}

// The pattern of any f64.
// Rules out 0 for NaN, which is a number's, and the sign of −0.0 lost.
pub fn pattern_of_double(x: f64) -> u64
    ensures { result ≡ to_bits binary64 x }
{
    if x.is_nan() {
        return NOT_A_NUMBER64;
    }
    f64::to_bits(x)
}

// Writes the lowest 32 bits of a number to four bytes, from `at` on.
// Rules out the highest byte first, and a byte written beyond the four.
pub fn put_u32(bytes: &mut [u8], at: usize, x: usize)
    requires { at + 4 ≤ length bytes.old }
    ensures { bytes.new ≡ sets bytes.old at (bytes32 x) }
{
    let lowest = ((x % 4294967296) as u32).to_le_bytes();
    bytes[at..at + 4].copy_from_slice(&lowest);
}
