//! Decimal numbers without leading zeros.

ghost use Rattle.std.specs.Prelude.{◌≡◌};
ghost use Rattle.shader_type_text.specs.Numbers.{number_of_word};

use std::str;

/// Returns the number of 32 bits with this decimal.
pub fn number_from_word(word: &[u8]) -> Option<u32>
    ensures { result ≡ number_of_word word.now }
{
    let Ok(text) = str::from_utf8(word) else {
        return None;
    };
    let Ok(number) = text.parse::<u32>() else {
        return None;
    };
    let mut buffer = itoa::Buffer::new();
    if buffer.format(number) == text {
        Some(number)
    } else {
        None
    }
}
