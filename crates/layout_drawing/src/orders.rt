//! Finds an order of a struct's members in which they take fewer bytes.
ghost use Rattle.std.specs.Prelude.{◌≡◌, ◌<◌, ◌≤◌, IfOk, IfSome, OnOk, fold, length};
ghost use Rattle.std.specs.List.Sorted.{IsPermutation};
ghost use Rattle.layout_drawing.specs.Orders.{IsSmaller, end_after, greatest_alignment, span_of};

use crate::LabelText;
use crate::pieces::Slot;
use std::alloc::{AllocError, Global};
use std::fmt;

/// The greatest number of members of a struct for which another order is looked for.
pub const MOST_ORDERED: usize = 64;

/// The members of a struct in another order.
#[derive(Drop)]
pub struct Order<'a> {
    pub slots: Vec<Slot<'a>>,
    /// The size of the struct in that order, in bytes.
    pub span: u32,
}

/// Returns the end of a member that is placed at the next multiple of its alignment, if it is below 2 ^ 32.
fn end_after(end: u32, slot: &Slot<'_>) -> Option<u32>
    ensures { IfSome result (λ next. next ≡ end_after end slot.now) }
{
    match (end as u64).checked_next_multiple_of(slot.alignment as u64) {
        Some(start) => start
            .checked_add(slot.size as u64)
            .and_then(|end| u32::try_from(end).ok()),
        None => None,
    }
}

/// Returns the greatest alignment of the members, at least 1.
fn greatest_alignment(slots: &[Slot<'_>]) -> u32
    ensures { result ≡ greatest_alignment slots.now }
{
    let mut greatest = 1;
    for slot in slots {
        greatest = greatest.max(slot.alignment);
    }
    greatest
}

/// Returns the end of the last member.
fn end_of(slots: &[Slot<'_>]) -> Option<u32>
    ensures { IfSome result (λ end. end ≡ fold end_after 0 slots.now) }
{
    let mut end = 0;
    for slot in slots {
        match end_after(end, slot) {
            Some(next) => end = next,
            None => return None,
        }
    }
    Some(end)
}

/// Returns the size in bytes of a struct whose members are placed in this order, each at the next multiple of its alignment. Returns
/// `None` if an end isn't below 2 ^ 32 or an alignment is 0.
pub fn span_of(slots: &[Slot<'_>]) -> Option<u32>
    ensures { IfSome result (λ span. span ≡ span_of slots.now) }
{
    let greatest = greatest_alignment(slots);
    match end_of(slots) {
        Some(end) => end.checked_next_multiple_of(greatest),
        None => None,
    }
}

/// Returns how badly a member fits at an offset: first by the padding before it, then by a small alignment, then by a small size.
fn unfitness(slot: &Slot<'_>, end: u32) -> (u32, u32, u32) {
    let padding = match end.checked_next_multiple_of(slot.alignment) {
        Some(start) => start - end,
        None => u32::MAX,
    };
    (padding, u32::MAX - slot.alignment, u32::MAX - slot.size)
}

/// Returns the position, from `first` on, of the member that fits best at the offset `end`.
fn best_from(slots: &[Slot<'_>], first: usize, end: u32) -> usize
    requires { first < length slots.now }
    ensures { result < length slots.now }
{
    let mut best = first;
    for position in first..slots.len() {
        if unfitness(&slots[position], end) < unfitness(&slots[best], end) {
            best = position;
        }
    }
    best
}

/// Puts at each position the member that fits best at the end of those before it.
fn arrange(slots: &mut [Slot<'_>])
    ensures { IsPermutation slots.old slots.new }
{
    let mut end = 0;
    for position in 0..slots.len() {
        let best = best_from(slots, position, end);
        slots.swap(position, best);
        end = end_after(end, &slots[position]).unwrap_or(end);
    }
}

/// Returns an order of the members in which the struct takes fewer bytes than it does, if one is found.
///
/// Returns `None` if the struct isn't as large as the layout rules make it, e.g. because of attributes, or has more than `MOST_ORDERED`
/// members.
///
/// # Errors
///
/// `AllocError` if allocating the members fails.
pub fn smaller_order<'a>(
    alloc: Global,
    slots: &[Slot<'a>],
    span: u32,
) -> Result<Option<Order<'a>>, AllocError>
    ensures { IfOk result (λ found. IfSome found (IsSmaller slots.now span)) }
{
    if slots.len() > MOST_ORDERED || span_of(slots) != Some(span) {
        return Ok(None);
    }
    let mut ordered = Vec::from_slice(alloc, slots)?;
    arrange(ordered.as_mut_slice());
    match span_of(ordered.as_slice()) {
        Some(smaller) if smaller < span => Ok(Some(Order {
            slots: ordered,
            span: smaller,
        })),
        _ => Ok(None),
    }
}

/// The line on an order of a struct's members, given the size that the struct has.
#[derive(Clone, Copy)]
pub struct OrderText<'a> {
    pub order: &'a Order<'a>,
    pub span: u32,
}

impl fmt::Display for OrderText<'_> {
    fn fmt<W: fmt::Write>(&self, f: &mut fmt::Formatter<W>) -> fmt::Result {
        f.write_str("  in the order ")?;
        if let Some((first, others)) = self.order.slots.as_slice().split_first() {
            write!(f, "{}", LabelText { slot: *first })?;
            for other in others {
                write!(f, ", {}", LabelText { slot: *other })?;
            }
        }
        write!(f, ": {} bytes instead of {}\n", self.order.span, self.span)
    }
}
