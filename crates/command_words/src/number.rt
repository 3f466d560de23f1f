//! The numbers of options.
ghost use Rattle.std.specs.Prelude.{◌≡◌, ◌≤◌, true, false, length, MatchOption, IfSome};
ghost use Rattle.std.specs.Str.{all_ascii_digits};
ghost use Rattle.std.specs.Str.Parse.{digits_value};
ghost use Rattle.command_words.specs.Form.{number_in};

/// The number that the value spells, if it has one to twenty decimal digits and is from `least` to `most`; else `None`.
pub fn number_in(least: u64, most: u64, value: &str) -> Option<u64>
    ensures same { result ≡ number_in least most value.now }
    ensures within { IfSome result (λ number. number ≤ most) }
{
    let bytes = value.as_bytes();
    if bytes.is_empty() {
        return None;
    }
    if bytes.len() > 20 {
        return None;
    }
    let number = digits(bytes)?;
    if number < u128::from(least) {
        return None;
    }
    if number > u128::from(most) {
        return None;
    }
    Some(number as u64)
}

// The number of at most twenty digits, if nothing else is there.
fn digits(bytes: &[u8]) -> Option<u128>
    requires { length bytes.now ≤ 20 }
    ensures { MatchOption result (all_ascii_digits bytes.now ≡ false)
        (λ number. (all_ascii_digits bytes.now ≡ true) × (number ≡ digits_value 10 bytes.now)) }
{
    let mut number = 0u128;
    for &byte in bytes {
        if !byte.is_ascii_digit() {
            return None;
        }
        number = number * 10 + u128::from(byte - b'0');
    }
    Some(number)
}
