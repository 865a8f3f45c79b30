//! The bytes of a struct as a drawing, and an order of its members that takes fewer bytes.

use crate::declarations::{Struct, is_open};
use crate::layouts::{layout_at, stride_of};
use layout_drawing::{DrawingText, Order, OrderText, Slot, pieces_of, smaller_order};
use shader_ir::proc::{Layouter, TypeLayout};
use shader_ir::{Module, StructMember};
use std::alloc::{AllocError, Global};

/// Returns the bytes of the member at an index, given its layout.
fn slot_of<'a>(index: usize, member: &'a StructMember, layout: TypeLayout) -> Slot<'a> {
    let name = match &member.name {
        Some(name) => name.as_str(),
        None => "",
    };
    Slot {
        member: index,
        name,
        offset: member.offset,
        size: layout.size,
        alignment: layout.alignment.get(),
    }
}

/// Returns the bytes of the members, if the types of all have layouts. An array without a fixed length takes what is left of the struct.
fn slots_of<'a>(
    alloc: Global,
    module: &Module,
    layouts: &Layouter,
    found: &Struct<'a>,
) -> Result<Option<Vec<Slot<'a>>>, AllocError> {
    let mut slots = Vec::new(alloc);
    for (index, member) in found.members.iter().enumerate() {
        let Some(layout) = layout_at(layouts, member.ty) else {
            return Ok(None);
        };
        let mut slot = slot_of(index, member, layout);
        if stride_of(module, member.ty).is_some() {
            slot.size = found.span.saturating_sub(slot.offset).max(slot.size);
        }
        slots.push(slot)?;
    }
    Ok(Some(slots))
}

/// Returns the bytes of a struct in rows of 16, or nothing if members share bytes or aren't in the order of their offsets.
fn rows_text(alloc: Global, slots: &[Slot<'_>], span: u32) -> Result<String, AllocError> {
    match pieces_of(alloc, slots, span)? {
        Some(pieces) => {
            let drawing = DrawingText {
                pieces: pieces.as_slice(),
                span,
                indentation: 0,
            };
            format!(in alloc; "{drawing}")
        }
        None => Ok(String::new(alloc)),
    }
}

/// Returns whether layout rules alone place the members: none is an input or output of a shader, or without a fixed length.
fn is_movable(module: &Module, members: &[StructMember]) -> bool {
    !is_open(module, members) && members.iter().all(|member| member.binding.is_none())
}

/// Returns the line on an order of the members.
fn order_line(alloc: Global, order: &Order<'_>, span: u32) -> Result<String, AllocError> {
    let line = OrderText { order, span };
    format!(in alloc; "{line}")
}

/// Returns the line on an order of the members in which they take fewer bytes, if one is found.
fn order_text(alloc: Global, slots: &[Slot<'_>], span: u32) -> Result<String, AllocError> {
    match smaller_order(alloc, slots, span)? {
        Some(order) => order_line(alloc, &order, span),
        None => Ok(String::new(alloc)),
    }
}

/// Returns the bytes of a struct in rows of 16, and an order of its members that takes fewer bytes, if one is found.
pub fn drawing_text(
    alloc: Global,
    module: &Module,
    layouts: &Layouter,
    found: &Struct<'_>,
) -> Result<String, AllocError> {
    let Some(slots) = slots_of(alloc, module, layouts, found)? else {
        return Ok(String::new(alloc));
    };
    let rows = rows_text(alloc, slots.as_slice(), found.span)?;
    if !is_movable(module, found.members) {
        return Ok(rows);
    }
    let order = order_text(alloc, slots.as_slice(), found.span)?;
    format!(in alloc; "{rows}{order}")
}
