//! The values of integer literals.

ghost use Rattle.std.specs.Prelude.{◌≡◌, ◌≤◌, ◌<◌, ◌^◌, MatchOption};
ghost use Rattle.asl_grammar.specs.lexemes.Bytes.{digit_of, value_of};

/// The least integer that is too large for a literal: 2^127.
const TOO_LARGE: u128 = 0x8000_0000_0000_0000_0000_0000_0000_0000;

/// The value of a hexadecimal digit.
fn digit_of(b: u8) -> u8
    ensures { result ≡ digit_of b }
{
    if b <= b'9' {
        b.saturating_sub(b'0')
    } else if b <= b'F' {
        b.saturating_sub(b'A' - 10)
    } else {
        b.saturating_sub(b'a' - 10)
    }
}

/// The number that decimal digits and underscores write, or `None` where it is 2^127 or more.
pub fn decimal_value(text: &[u8]) -> Option<u128>
    ensures { MatchOption result (2 ^ 127 ≤ value_of 10 text.now) (λ n. (n ≡ value_of 10 text.now) × (n < 2 ^ 127)) }
{
    let mut value: u128 = 0;
    for b in text {
        if *b != b'_' {
            let digit = u128::from(digit_of(*b));
            if value > (TOO_LARGE - 1 - digit) / 10 {
                return None;
            }
            value = value * 10 + digit;
        }
    }
    Some(value)
}

/// The number that hexadecimal digits and underscores write, or `None` where it is 2^127 or more.
pub fn hex_value(text: &[u8]) -> Option<u128>
    ensures { MatchOption result (2 ^ 127 ≤ value_of 16 text.now) (λ n. (n ≡ value_of 16 text.now) × (n < 2 ^ 127)) }
{
    let mut value: u128 = 0;
    for b in text {
        if *b != b'_' {
            let digit = u128::from(digit_of(*b));
            if value > (TOO_LARGE - 1 - digit) / 16 {
                return None;
            }
            value = value * 16 + digit;
        }
    }
    Some(value)
}
