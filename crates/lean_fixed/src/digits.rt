ghost use Rattle.std.specs.Prelude.{◌≡◌};
ghost use Rattle.lean_fixed.specs.Digits.{digits, is_digit};

// The greatest number that is read: 10^18.
const MOST: u64 = 1_000_000_000_000_000_000;

/// The number that the bytes spell in decimal digits. `None` exactly where they are not one or more digits of a value of
/// at most 10^18; leading zeros are allowed.
pub fn read_digits(bytes: &[u8]) -> Option<u64>
    ensures { result ≡ digits bytes.now }
{
    if bytes.is_empty() {
        return None;
    }
    let mut number: u64 = 0;
    for byte in bytes {
        if !is_decimal(*byte) {
            return None;
        }
        number = number * 10 + (*byte - b'0') as u64;
        if number > MOST {
            return None;
        }
    }
    Some(number)
}

fn is_decimal(byte: u8) -> bool
    ensures { result ≡ is_digit byte }
{
    byte.is_ascii_digit()
}
