// The numbers of a bench file: decimal without leading zeros, and eight hexadecimal capitals.
#![tactic(auto)]

ghost use Rattle.std.specs.Prelude.{◌≡◌, ◌≤◌, ◌<◌, ◌^◌};
ghost use Rattle.file_numbers.specs.Numbers.{digit_value, number_in, leading_zero, decimal_in, hexadecimal_in};

// Every value of a word is below this.
pub const WORD_VALUES: u64 = 4294967296;

// The value of a digit, 16 for any other byte.
#[tactic(auto, unfolding(crate::specs::Numbers::digit_value))]
fn digit(b: u8) -> u64
    ensures { result ≡ digit_value b }
{
    match b {
        b'0'..=b'9' => (b - b'0') as u64,
        b'A'..=b'F' => (b - b'A') as u64 + 10,
        _ => 16,
    }
}

// The number, below a limit, that a text of digits writes in a base.
fn value(bytes: &[u8], base: u64, limit: u64) -> Option<u32>
    requires { (base ≤ 16) × (limit ≤ 2 ^ 32) × (0 < limit) }
    ensures { result ≡ number_in base limit bytes.now }
{
    let mut v: u64 = 0;
    for &b in bytes {
        let d = digit(b);
        if base <= d {
            return None;
        }
        v = v * base + d;
        if limit <= v {
            return None;
        }
    }
    Some(v as u32)
}

// Whether a text of two digits or more begins with 0.
#[tactic(auto, unfolding(crate::specs::Numbers::leading_zero))]
fn leading_zero(bytes: &[u8]) -> bool
    ensures { result ≡ leading_zero bytes.now }
{
    bytes.len() > 1 && bytes[0] == b'0'
}

// A decimal number below a limit, without leading zeros.
#[tactic(auto, unfolding(crate::specs::Numbers::decimal_in))]
pub fn decimal(bytes: &[u8], limit: u64) -> Option<u32>
    requires { (limit ≤ 2 ^ 32) × (0 < limit) }
    ensures { result ≡ decimal_in limit bytes.now }
{
    if bytes.is_empty() || leading_zero(bytes) {
        return None;
    }
    value(bytes, 10, limit)
}

// Eight hexadecimal capitals.
#[tactic(auto, unfolding(crate::specs::Numbers::hexadecimal_in))]
pub fn hexadecimal(bytes: &[u8]) -> Option<u32>
    ensures { result ≡ hexadecimal_in bytes.now }
{
    if bytes.len() == 8 {
        value(bytes, 16, WORD_VALUES)
    } else {
        None
    }
}
