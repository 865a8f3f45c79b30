//! Texts split at separators.
use crate::bytes::index_of;
use std::marker::Model;

/// An iterator over the pieces of a byte string between separators, in order.
///
/// Contracts see the list of the remaining pieces.
#[derive(Drop)]
pub struct Pieces<'a> {
    rest: Option<&'a [u8]>,
    separator: u8,
}

impl<'a> Model for Pieces<'a> {
    ghost use Rattle.std.specs.Prelude.{ℕ, List};
    ghost use Rattle.shader_type_text.specs.Pieces.{pieces_of};

    ghost Value = { List (List ℕ) };

    ghost view = { λ pieces. pieces_of pieces.separator pieces.rest };
}

impl<'a> Pieces<'a> {
    ghost use Rattle.std.specs.Prelude.{◌≡◌, ◌==◌};
    ghost use Rattle.std.specs.List.{slice_split};

    /// Returns an iterator over the pieces, which are one more than the separators.
    pub fn new(bytes: &'a [u8], separator: u8) -> Self
        ensures { result ≡ slice_split (λ b. b == separator) bytes.now }
    {
        Pieces {
            rest: Some(bytes),
            separator,
        }
    }
}

impl<'a> Iterator for Pieces<'a> {
    type Item = &'a [u8];

    ghost use Rattle.std.specs.Iterator.{YieldsFirstRef, item_count};

    ghost next_gives = { YieldsFirstRef (λ pieces. pieces) };

    ghost remaining = { item_count (λ pieces. pieces) };

    fn next(&mut self) -> Option<&'a [u8]> {
        let rest = self.rest?;
        match index_of(rest, self.separator) {
            Some(at) => {
                self.rest = Some(&rest[at + 1..]);
                Some(&rest[..at])
            }
            None => {
                self.rest = None;
                Some(rest)
            }
        }
    }
}
