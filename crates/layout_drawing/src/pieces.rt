//! The bytes of a struct, cut into its members and the holes between them.
ghost use Rattle.std.specs.Prelude.{◌≡◌, ◌↔◌, ◌≤◌, ◌++◌, ◌∷◌, ◌+◌, [], OnOk, IfOk, IfSome, IsSome, map};
ghost use Rattle.layout_drawing.specs.Pieces.{AreTiles, Fits, hole, member_pieces, piece_of};

use std::alloc::{AllocError, Global};

/// A member of a struct: its number, its name, and its offset, size and alignment in bytes.
#[derive(Clone, Copy, Debug)]
pub struct Slot<'a> {
    /// The number of the member, from 0.
    pub member: usize,
    /// The name, or an empty text if there is none.
    pub name: &'a str,
    pub offset: u32,
    pub size: u32,
    pub alignment: u32,
}

/// A run of bytes of a struct: those of a member, or a hole.
#[derive(Clone, Copy, Debug)]
pub struct Piece<'a> {
    /// The member, or none for bytes that belong to no member.
    pub slot: Option<Slot<'a>>,
    pub start: u32,
    pub end: u32,
}

/// Adds the hole between two offsets, if the first is below the second.
fn add_hole<'a>(pieces: &mut Vec<Piece<'a>>, start: u32, end: u32) -> Result<(), AllocError>
    ensures { OnOk result (pieces.new.items ≡ pieces.old.items ++ hole start end) }
{
    if start < end {
        pieces.push(Piece {
            slot: None,
            start,
            end,
        })?;
    }
    Ok(())
}

/// Adds the hole before a member, and the member.
fn add_member<'a>(
    pieces: &mut Vec<Piece<'a>>,
    slot: &Slot<'a>,
    at: u32,
    end: u32,
) -> Result<(), AllocError>
    requires { end ≡ slot.now.offset + slot.now.size }
    ensures { OnOk result (pieces.new.items ≡ pieces.old.items ++ (hole at slot.now.offset ++ piece_of slot.now ∷ [])) }
{
    add_hole(pieces, at, slot.offset)?;
    pieces.push(Piece {
        slot: Some(*slot),
        start: slot.offset,
        end,
    })?;
    Ok(())
}

/// Returns the end of a member if it begins at `at` or later and ends at the struct's end or earlier.
fn end_within(slot: &Slot<'_>, at: u32, span: u32) -> Option<u32>
    ensures found { IsSome result ↔ ((at ≤ slot.now.offset) × (slot.now.offset + slot.now.size ≤ span)) }
    ensures end { IfSome result (λ end. end ≡ slot.now.offset + slot.now.size) }
{
    let end = slot.offset as u64 + slot.size as u64;
    if at <= slot.offset && end <= span as u64 {
        Some(end as u32)
    } else {
        None
    }
}

/// Returns the members of a struct and the holes between them, which together are its bytes from the first to the last, each once. There
/// are none if two members share a byte, if one begins before the one that it follows, or if one ends after the struct.
///
/// # Errors
///
/// `AllocError` if an allocation fails.
pub fn pieces_of<'a>(
    alloc: Global,
    slots: &[Slot<'a>],
    span: u32,
) -> Result<Option<Vec<Piece<'a>>>, AllocError>
    ensures found { IfOk result (λ found. IsSome found ↔ Fits span 0 slots.now) }
    ensures tiled { IfOk result (λ found. IfSome found (λ pieces. AreTiles span 0 pieces.items)) }
    ensures members { IfOk result (λ found. IfSome found (λ pieces. member_pieces pieces.items ≡ map piece_of slots.now)) }
{
    let mut pieces = Vec::new(alloc);
    let mut at = 0;
    for slot in slots {
        match end_within(slot, at, span) {
            Some(end) => {
                add_member(&mut pieces, slot, at, end)?;
                at = end;
            }
            None => return Ok(None),
        }
    }
    add_hole(&mut pieces, at, span)?;
    Ok(Some(pieces))
}
