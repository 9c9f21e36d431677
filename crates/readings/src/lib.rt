// The floats of document 01: which are coordinates, weights and shares, the factor of a random word, and narrowing f64 to f32.
#![tactic(auto)]

ghost use Rattle.std.specs.Prelude.{◌≡◌, ◌^◌, ◌<◌, ◌≤◌, from_bits};
ghost use Rattle.std.specs.Float.{binary64};
ghost use Rattle.std.specs.Float.Ieee.Nearest.{closest};
ghost use Rattle.readings.specs.Coordinate.{is_coordinate};
ghost use Rattle.readings.specs.Weight.{is_weight};
ghost use Rattle.readings.specs.Share.{is_share, cached_part};
ghost use Rattle.readings.specs.Word.{factor_of};
ghost use Rattle.readings.specs.Narrow.{narrowed};

// An f32's pattern is its sign (2^31), its exponent's field (8 bits) and 23 digits; the leading digit, 2^23, is not written.
const SIGN_32: u32 = 2147483648;

const LEAD_32: u32 = 8388608;

// The pattern of infinity: the field is 255, and no digit is set.
const INFINITE_32: u32 = 2139095040;

// The pattern of 2^20: the field is 127 + 20.
const LARGEST_COORDINATE: u32 = 1233125376;

// Not one trait over both formats: no function here is for both, and `narrow` goes from the one to the other.
// An f64's pattern is its sign (2^63), its exponent's field (11 bits) and 52 digits; the leading digit, 2^52, is not written.
const SIGN_64: u64 = 9223372036854775808;

const LEAD_64: u64 = 4503599627370496;

// Whether x is a coordinate: a whole number from -2^20 to 2^20, and not -0.
// Rules out 0.5 taken, as its digits end in zeros too, and 2^20 refused.
pub fn is_coordinate(x: f32) -> bool
    ensures { result ≡ is_coordinate x }
{
    if x != x {
        return false;
    }
    let bits: u32 = f32::to_bits(x);
    let size = bits % SIGN_32;
    if size == 0 {
        return bits == 0;
    }
    let field = size / LEAD_32;
    let digits = bits % LEAD_32 + LEAD_32;
    let zeros = u32::trailing_zeros(digits);
    // x is digits * 2^(field - 150), so it is whole where the zeros at the end make up for what is missing.
    if zeros + field < 150 {
        return false;
    }
    size <= LARGEST_COORDINATE
}

// Whether x is a weight: finite, and not -0.
// Rules out −0 taken, as 0 is, and an infinity taken, as it equals itself.
pub fn is_weight(x: f32) -> bool
    ensures { result ≡ is_weight x }
{
    if x != x {
        return false;
    }
    let bits: u32 = f32::to_bits(x);
    if bits == SIGN_32 {
        return false;
    }
    bits % SIGN_32 < INFINITE_32
}

// Whether x is a share: from 0 to 1. A NaN passes no comparison, and -0 is 0.
// Rules out 1 refused, and a test for what is outside, which a NaN passes.
pub fn is_share(x: f64) -> bool
    ensures { result ≡ is_share x }
{
    if 0.0 <= x {
        return x <= 1.0;
    }
    false
}

// The factor of a random word: its upper 53 bits, times 2^-53. Nothing is rounded.
// Rules out the lower 53 bits, and the word times 2^-64, which rounds up to 1.
pub fn factor(w: u64) -> f64
    ensures { result ≡ factor_of w }
{
    ((w >> 11) as f64) * 1.1102230246251565e-16
}

// q / 2^k to the nearest whole number, a tie to the even one.
fn nearest_shift(q: u64, k: u64) -> u64
    requires { (q < 2 ^ 53) × (1 ≤ k) × (k ≤ 54) }
    ensures { result ≡ closest q (2 ^ k) }
{
    let d: u64 = 1 << k;
    // Half less 1, and 1 more where the whole part is odd, carries where the rest is above half, or is half and the whole part is odd.
    (q + (d / 2 - 1) + q / d % 2) / d
}

// The f64 of a pattern narrowed, up to infinity's, 2047 * 2^52: the sign is clear, and it is no NaN.
// An f64 counts its field from 2^-1023 and an f32 from 2^-127, so the fields 897 to 1150 are f32's 1 to 254.
fn narrow_size(bits: u64) -> f32
    requires { bits ≤ 9218868437227405312 }
    ensures { result ≡ narrowed (from_bits binary64 bits) }
{
    let field = bits / LEAD_64;
    let digits = bits % LEAD_64 + LEAD_64;
    if field < 897 {
        // Below 2^-126 an f32 counts in steps of 2^-149, and what is below 2^-151 is none.
        if field < 872 {
            return 0.0;
        }
        let low = nearest_shift(digits, 926 - field);
        return f32::from_bits(low as u32);
    }
    // From 2^128 on.
    if field > 1150 {
        return f32::from_bits(INFINITE_32);
    }
    // 24 digits are kept of 53. The leading one adds 1 to the field, and a carry out of them 1 more, at most to infinity's.
    let high = nearest_shift(digits, 29);
    f32::from_bits(((field - 897) * 8388608 + high) as u32)
}

// x to the nearest f32, a tie to the even one: the Rust's `as f32`.
// Rules out a tie always up, and digits cut off, which is never above x.
pub fn narrow(x: f64) -> f32
    ensures { result ≡ narrowed x }
{
    if x != x {
        return 0.0 / 0.0;
    }
    let bits: u64 = f64::to_bits(x);
    if bits < SIGN_64 {
        return narrow_size(bits);
    }
    -narrow_size(bits - SIGN_64)
}

// How many of `capacity` branches are cached at a share: the whole part of the product, rounded once as an f64.
// For a number that is no share too: 0 where the product is below 0 or a NaN, and 2^64 - 1 where it is no less than 2^64.
// Rules out the product rounded to the nearest number, or up, and 1/49 of 49 worked out as 1, which the rounded product does not reach.
pub fn cached_part(share: f64, capacity: u16) -> usize
    ensures { result ≡ cached_part share capacity }
{
    let product = share * (capacity as f64);
    if -1.0 < product {
        if product < 18446744073709551616.0 {
            return std::num::truncating_f64_to_u64(product) as usize;
        }
        return 18446744073709551615;
    }
    0
}
