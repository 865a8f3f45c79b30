//! Iteration over the set bits of a number.
ghost use Rattle.std.specs.Prelude.{◌≡◌};
ghost use Rattle.std.specs.Iterator.{YieldsFirst, item_count};
ghost use Rattle.shader_overloads.specs.Bits.{one_bits};

use std::marker::Model;

/// An iterator over the set bits of a number as masks, ascending.
///
/// The masks are distinct powers of two that add up to the number.
#[derive(Drop)]
pub struct OneBitsIter {
    bits: u64,
}

impl Model for OneBitsIter {
    ghost use Rattle.std.specs.Prelude.{List, ℕ};
    ghost use Rattle.shader_overloads.specs.Bits.{one_bits};

    ghost Value = { List ℕ };

    ghost view = { λ left. one_bits left.bits };
}

impl OneBitsIter {
    pub fn new(bits: u64) -> OneBitsIter
        ensures { result ≡ one_bits bits }
    {
        OneBitsIter { bits }
    }
}

impl Iterator for OneBitsIter {
    type Item = u64;

    ghost next_gives = { YieldsFirst (λ left. left) };

    ghost remaining = { item_count (λ left. left) };

    fn next(&mut self) -> Option<u64> {
        if self.bits == 0 {
            return None;
        }
        // One less clears the lowest set bit and sets all bits below it.
        let below = self.bits - 1;
        let item = self.bits & !below;
        self.bits &= below;
        Some(item)
    }
}
