//! Combinations of the items of slices.
ghost use Rattle.std.specs.Prelude.{◌≡◌, ◌↔◌, [], IsTrue};
ghost use Rattle.std.specs.Iterator.{YieldsFirst, item_count};
ghost use Rattle.shader_overloads.specs.Combinations.{pair_combinations, triples_of};

use std::marker::Model;

/// Returns all pairs of an item of `left` and an item of `right`, in order, `left` outermost.
pub fn pairs<'a, T: Copy, U: Copy>(left: &'a [T], right: &'a [U]) -> PairsLeft<'a, T, U>
    ensures { result ≡ pair_combinations left.now right.now }
{
    PairsLeft {
        left,
        partners: right,
        right,
    }
}

/// Returns all triples of items of the three slices, in order, the first slice outermost.
pub fn triples<'a, T: Copy, U: Copy, V: Copy>(
    left: &'a [T],
    middle: &'a [U],
    right: &'a [V],
) -> TriplesLeft<'a, T, U, V>
    ensures { result ≡ triples_of left.now middle.now right.now }
{
    TriplesLeft {
        left,
        partners: pairs(middle, right),
        middle,
        right,
    }
}

/// An iterator over the remaining pairs of [`pairs`].
#[derive(Drop)]
pub struct PairsLeft<'a, T, U> {
    left: &'a [T],
    /// The items still to be paired with the first of `left`.
    partners: &'a [U],
    right: &'a [U],
}

impl<'a, T, U> Model for PairsLeft<'a, T, U> {
    ghost use Rattle.std.specs.Prelude.{◌≡◌, List, []};
    ghost use Rattle.shader_overloads.specs.Combinations.{pairs_left};

    ghost Value = { List (T × U) };

    ghost view = { λ pairs. pairs_left pairs.left.now pairs.partners.now pairs.right.now };

    ghost invariant = { λ pairs. pairs.partners.now ≡ [] → pairs.right.now ≡ [] };
}

impl<'a, T: Copy, U: Copy> Iterator for PairsLeft<'a, T, U> {
    type Item = (T, U);

    ghost next_gives = { YieldsFirst (λ pairs. pairs) };

    ghost remaining = { item_count (λ pairs. pairs) };

    fn next(&mut self) -> Option<(T, U)> {
        let (second, partners) = self.partners.split_first()?;
        let (first, others) = self.left.split_first()?;
        if partners.is_empty() {
            self.left = others;
            self.partners = self.right;
        } else {
            self.partners = partners;
        }
        Some((*first, *second))
    }
}

/// An iterator over the remaining triples of [`triples`].
#[derive(Drop)]
pub struct TriplesLeft<'a, T, U, V> {
    left: &'a [T],
    /// The pairs still to be joined with the first of `left`.
    partners: PairsLeft<'a, U, V>,
    middle: &'a [U],
    right: &'a [V],
}

impl<'a, T, U, V> Model for TriplesLeft<'a, T, U, V> {
    ghost use Rattle.std.specs.Prelude.{List};
    ghost use Rattle.shader_overloads.specs.Combinations.{triples_left};

    ghost Value = { List (T × U × V) };

    ghost view = { λ triples. triples_left triples.left.now triples.partners triples.middle.now triples.right.now };
}

impl<'a, T: Copy, U: Copy, V: Copy> Iterator for TriplesLeft<'a, T, U, V> {
    type Item = (T, U, V);

    ghost next_gives = { YieldsFirst (λ triples. triples) };

    ghost remaining = { item_count (λ triples. triples) };

    fn next(&mut self) -> Option<(T, U, V)> {
        if let Some((second, third)) = self.partners.next() {
            let first = self.left.first()?;
            return Some((*first, second, third));
        }
        let (_, others) = self.left.split_first()?;
        self.left = others;
        self.partners = pairs(self.middle, self.right);
        let (second, third) = self.partners.next()?;
        let first = self.left.first()?;
        Some((*first, second, third))
    }
}
