//! Numbers in decimal digits.
ghost use Rattle.script_text.specs.Numbers.{is_digit, number_of, value_of};
ghost use Rattle.std.specs.List.{list_all};
ghost use Rattle.std.specs.Prelude.{◌≡◌, ◌≤◌, IsTrue, length};

/// The number that a word of 1 to 20 decimal digits spells, in full, so it may pass 2 ^ 64; leading zeros are allowed.
/// Answers `None` for any other word.
pub fn number(word: &[u8]) -> Option<u128>
    ensures { result ≡ number_of word.now }
{
    if word.is_empty() || word.len() > 20 || !are_digits(word) {
        return None;
    }
    Some(value(word))
}

// Whether each byte is a decimal digit.
fn are_digits(word: &[u8]) -> bool
    ensures { result ≡ list_all is_digit word.now }
{
    word.iter().all(|b| *b >= b'0' && *b <= b'9')
}

// The value of at most 20 decimal digits.
fn value(digits: &[u8]) -> u128
    requires few { length digits.now ≤ 20 }
    requires digits { IsTrue (list_all is_digit digits.now) }
    ensures { result ≡ value_of digits.now }
{
    let mut value = 0;
    for digit in digits {
        value = 10 * value + u128::from(*digit - b'0');
    }
    value
}
