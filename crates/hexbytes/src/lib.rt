// Bytes written as hexadecimal digits, read into lent bytes.
#![tactic(auto)]

ghost use Rattle.std.specs.Prelude.{◌≡◌, true, ◌+◌, ◌*◌, ◌<◌, length};
ghost use Rattle.text.specs.Numbers.{digit_value};
ghost use Rattle.hexbytes.specs.Hex.{are_digits, hex_bytes, read_hex};

use text::digit_value;

fn are_digits(field: &[u8]) -> bool
    ensures { result ≡ are_digits field.now }
{
    field.iter().all(|byte| digit_value(*byte) < 16)
}

// The byte of two digits.
fn byte_of(high: u8, low: u8) -> u8
    requires { (digit_value high < 16) × (digit_value low < 16) }
    ensures { result ≡ 16 * digit_value high + digit_value low }
{
    (16 * digit_value(high) + digit_value(low)) as u8
}

fn put_bytes(field: &[u8], bytes: &mut [u8])
    requires { (length field.now ≡ 2 * length bytes.old) × (are_digits field.now ≡ true) }
    ensures { bytes.new ≡ hex_bytes field.now }
{
    for (i, byte) in bytes.iter_mut().enumerate() {
        *byte = byte_of(field[2 * i], field[2 * i + 1]);
    }
}

// Reads the bytes of a field, if it has the digits of just as many as are lent; else nothing is written.
// Rules out the low digit read first, and a field of fewer digits taken for the first bytes.
pub fn read_hex(field: &[u8], bytes: &mut [u8]) -> bool
    ensures { (result, bytes.new) ≡ read_hex field.now bytes.old }
{
    if field.len() != 2 * bytes.len() {
        return false;
    }
    if !are_digits(field) {
        return false;
    }
    put_bytes(field, bytes);
    true
}
