//! Sets of rule numbers.
ghost use Rattle.std.specs.Prelude.{◌≡◌, ◌≤◌, ◌<◌, ◌==◌, ◌&&◌, ◌||◌, ◌/◌, ◌%◌, ◌^◌, nat_lt, ℕ, false, IfNone, IfSome};
ghost use Rattle.shader_overloads.specs.Bits.{has_bit};
ghost use Rattle.shader_overloads.specs.Masks.{IsBelow, IsLeastPosition, IsTaken, has_position};

use std::ops::BitAnd;

/// A set of numbers below 192, one bit of three words for each.
#[derive(Clone, Copy)]
pub struct Mask {
    low: u64,
    middle: u64,
    high: u64,
}

#[tactic(auto, unfolding(crate::specs::Masks::has_position))]
impl Mask {
    pub const EMPTY: Mask = Mask {
        low: 0,
        middle: 0,
        high: 0,
    };

    pub fn empty() -> Mask
        ensures { (k : ℕ) → has_position result k ≡ false }
    {
        Self::EMPTY
    }

    /// Returns the set of the numbers below a count.
    pub fn below(count: usize) -> Mask
        requires { count ≤ 192 }
        ensures { (k : ℕ) → has_position result k ≡ nat_lt k count }
    {
        Mask {
            low: ones(count),
            middle: ones(count.saturating_sub(64)),
            high: ones(count.saturating_sub(128)),
        }
    }

    /// Returns the set of the numbers `12 * i + j` for each set bit `i`, below 13, of `groups` and each set bit `j`, below 12, of
    /// `members`.
    pub fn pairs(groups: u16, members: u16) -> Mask
        ensures pairs { (k : ℕ) → k < 156 → has_position result k ≡ (has_bit groups (k / 12) && has_bit members (k % 12)) }
        ensures within { IsBelow result 156 }
    {
        let groups = groups as u64 & 0x1fff;
        let members = members as u64 & 0xfff;
        let first = five_groups(groups & 0x1f, members);
        let second = five_groups(groups >> 5 & 0x1f, members);
        let third = five_groups(groups >> 10, members);
        Mask {
            low: first + (second << 60),
            middle: (second >> 4) + (third << 56),
            high: third >> 8,
        }
    }

    /// Returns the set of the numbers `12 * group + j` for each set bit `j`, below 12, of the members.
    #[inline(always)]
    pub fn group(group: usize, members: u16) -> Mask
        requires { group < 13 }
        ensures { (k : ℕ) → k < 156 → has_position result k ≡ (k / 12 == group && has_bit members (k % 12)) }
    {
        let members = members as u64 & 0xfff;
        // The word boundaries are within groups 5 and 10.
        if group < 5 {
            Mask {
                low: members << (12 * group),
                ..Self::EMPTY
            }
        } else if group == 5 {
            Mask {
                low: members << 60,
                middle: members >> 4,
                high: 0,
            }
        } else if group < 10 {
            Mask {
                middle: members << (12 * group - 64),
                ..Self::EMPTY
            }
        } else if group == 10 {
            Mask {
                low: 0,
                middle: members << 56,
                high: members >> 8,
            }
        } else {
            Mask {
                high: members << (12 * group - 128),
                ..Self::EMPTY
            }
        }
    }

    pub fn has(self, position: usize) -> bool
        requires { position < 192 }
        ensures { result ≡ has_position self position }
    {
        if position < 64 {
            self.low >> position & 1 == 1
        } else if position < 128 {
            self.middle >> (position - 64) & 1 == 1
        } else {
            self.high >> (position - 128) & 1 == 1
        }
    }

    pub fn insert(&mut self, position: usize)
        requires { position < 192 }
        ensures { (k : ℕ) → has_position self.new k ≡ (k == position || has_position self.old k) }
    {
        if position < 64 {
            self.low |= 1 << position;
        } else if position < 128 {
            self.middle |= 1 << (position - 64);
        } else {
            self.high |= 1 << (position - 128);
        }
    }

    /// Returns the least number of the set, if any.
    pub fn first(self) -> Option<usize>
        ensures none { IfNone result ((k : ℕ) → has_position self k ≡ false) }
        ensures first { IfSome result (IsLeastPosition self) }
    {
        let mut left = self;
        left.take_first()
    }

    /// Removes the least number and returns it.
    pub fn take_first(&mut self) -> Option<usize>
        ensures none { IfNone result ((k : ℕ) → has_position self.old k ≡ false) }
        ensures first { IfSome result (λ position. IsTaken self.old position self.new) }
    {
        if self.low != 0 {
            let position = self.low.trailing_zeros() as usize;
            self.low &= self.low - 1;
            return Some(position);
        }
        if self.middle != 0 {
            let position = self.middle.trailing_zeros() as usize;
            self.middle &= self.middle - 1;
            return Some(64 + position);
        }
        if self.high != 0 {
            let position = self.high.trailing_zeros() as usize;
            self.high &= self.high - 1;
            return Some(128 + position);
        }
        None
    }
}

impl BitAnd for Mask {
    type Output = Mask;

    ghost bitand_gives = { λ a b both. (k : ℕ) → has_position both k ≡ (has_position a k && has_position b k) };

    fn bitand(self, other: Mask) -> Mask {
        Mask {
            low: self.low & other.low,
            middle: self.middle & other.middle,
            high: self.high & other.high,
        }
    }
}

/// Returns a word with its lowest `count` bits set, or all of them from a count of 64 on.
fn ones(count: usize) -> u64
    ensures below { (k : ℕ) → k < 64 → has_bit result k ≡ nat_lt k count }
    ensures above { (k : ℕ) → 64 ≤ k → has_bit result k ≡ false }
{
    if count >= 64 {
        u64::MAX
    } else {
        (1 << count) - 1
    }
}

/// Returns a word with the members in 12 bits for each set bit of the groups, and 12 zeros for each other bit.
fn five_groups(groups: u64, members: u64) -> u64
    requires groups { groups < 32 }
    requires members { members < 4096 }
    ensures pairs { (k : ℕ) → k < 60 → has_bit result k ≡ (has_bit groups (k / 12) && has_bit members (k % 12)) }
    ensures within { result < 2 ^ 60 }
{
    // Moves each bit from position i to position 12 i: the factor has the multiples of 11, and the mask those of 12.
    let spread = groups * 0x1002_0040_0801 & 0x1_0010_0100_1001;
    spread * members
}
