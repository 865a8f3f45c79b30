//! Texts split into lines.
use shader_type_text::index_of;

/// An iterator over the lines of a text. The last line needs no line feed.
#[derive(Drop)]
pub struct Lines<'a> {
    rest: &'a [u8],
}

impl<'a> Lines<'a> {
    ghost use Rattle.std.specs.Prelude.{◌≡◌};
    ghost use Rattle.typer_answers.specs.Lines.{lines_left, lines_of};

    pub fn new(text: &'a [u8]) -> Self
        ensures { lines_left result ≡ lines_of text.now }
    {
        Lines { rest: text }
    }
}

impl<'a> Iterator for Lines<'a> {
    type Item = &'a [u8];

    ghost use Rattle.std.specs.Iterator.{YieldsFirstRef, item_count};
    ghost use Rattle.typer_answers.specs.Lines.{lines_left};

    ghost next_gives = { YieldsFirstRef lines_left };

    ghost remaining = { item_count lines_left };

    fn next(&mut self) -> Option<&'a [u8]> {
        let rest = self.rest;
        if rest.is_empty() {
            return None;
        }
        match index_of(rest, b'\n') {
            Some(at) => {
                self.rest = &rest[at + 1..];
                Some(&rest[..at])
            }
            None => {
                self.rest = &[];
                Some(rest)
            }
        }
    }
}
