//! Text positions, as editors count them.
ghost use Rattle.std.specs.Prelude.{◌≡◌};
ghost use Rattle.report_input.specs.Places.{after, after_all, place_in, start};

/// A text position.
#[derive(Clone, Copy, Debug, PartialEq, Eq)]
pub struct Place {
    /// The number of the line, from 1.
    pub line: usize,
    /// The number of the character in its line, from 1.
    pub column: usize,
}

impl Place {
    /// Returns the text position of a byte.
    pub fn of(text: &[u8], byte: usize) -> Place
        ensures { result ≡ place_in text.now byte }
    {
        behind(&text[..byte.min(text.len())])
    }
}

/// Returns the text position after one more byte. Bytes from 128 to 191 continue a character of UTF-8.
fn after(place: Place, byte: u8) -> Place
    ensures { result ≡ after place byte }
{
    let Place { line, column } = place;
    if byte == b'\n' {
        Place {
            line: line.saturating_add(1),
            column: 1,
        }
    } else if 128 <= byte && byte < 192 {
        place
    } else {
        Place {
            line,
            column: column.saturating_add(1),
        }
    }
}

/// Returns the text position at the end of a text.
fn behind(text: &[u8]) -> Place
    ensures { result ≡ after_all start text.now }
{
    let mut place = Place { line: 1, column: 1 };
    for byte in text {
        place = after(place, *byte);
    }
    place
}
