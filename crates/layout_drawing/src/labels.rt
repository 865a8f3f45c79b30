//! The labels of members in drawings.
ghost use Rattle.std.specs.Prelude.{◌≤◌};

use crate::pieces::Slot;
use std::fmt;

/// The greatest number of bytes of a name that is drawn.
const MOST_NAME: usize = 60;

/// Returns whether a name can be drawn: short, and of visible ASCII characters, each of which takes one column.
fn is_plain(name: &str) -> bool {
    !name.is_empty()
        && name.len() <= MOST_NAME
        && name.as_bytes().iter().all(|byte| byte.is_ascii_graphic())
}

/// Returns the number of columns that a number below 100,000 takes. For a greater one, returns more columns than a row has.
fn digits(number: usize) -> usize
    ensures { result ≤ 1000 }
{
    match number {
        0..=9 => 1,
        10..=99 => 2,
        100..=999 => 3,
        1_000..=9_999 => 4,
        10_000..=99_999 => 5,
        _ => 1_000,
    }
}

/// The name of a member if it is short and plain, otherwise its number after a `#`.
#[derive(Clone, Copy)]
pub struct LabelText<'a> {
    pub slot: Slot<'a>,
}

impl LabelText<'_> {
    /// Returns how many columns the label takes.
    pub fn width(&self) -> usize {
        if is_plain(self.slot.name) {
            self.slot.name.len()
        } else {
            1 + digits(self.slot.member)
        }
    }
}

impl fmt::Display for LabelText<'_> {
    fn fmt<W: fmt::Write>(&self, f: &mut fmt::Formatter<W>) -> fmt::Result {
        if is_plain(self.slot.name) {
            f.write_str(self.slot.name)
        } else {
            write!(f, "#{}", self.slot.member)
        }
    }
}
