//! Global variables as WGSL declares them.
ghost use Rattle.std.specs.Prelude.{◌≡◌, IfOk, string_bytes};
ghost use Rattle.report_names.specs.Declarations.{declaration_text, space_part};

use crate::images::access_word;
use crate::items::{ItemKind, item_text};
use crate::types::{MOST_NESTED, space_word, type_text};
use shader_ir::{AddressSpace, GlobalVariable, Module};
use std::alloc::{AllocError, Global};

/// Returns the address space in brackets. Textures, samplers and the like are declared without one.
fn space_part(alloc: Global, space: AddressSpace) -> Result<String, AllocError>
    ensures { IfOk result (λ text. string_bytes text ≡ space_part space) }
{
    match space {
        AddressSpace::Handle => Ok(String::new(alloc)),
        AddressSpace::Storage { access } => {
            let access = access_word(access);
            format!(in alloc; "<storage, {access}>")
        }
        AddressSpace::Function
        | AddressSpace::Private
        | AddressSpace::WorkGroup
        | AddressSpace::Uniform
        | AddressSpace::Immediate
        | AddressSpace::TaskPayload
        | AddressSpace::RayPayload
        | AddressSpace::IncomingRayPayload => {
            let word = space_word(space);
            format!(in alloc; "<{word}>")
        }
    }
}

/// Returns the declaration of the global variable of a number, without attributes and initial value (WGSL, "Variable Declarations").
pub fn declaration_text(
    alloc: Global,
    module: &Module,
    variable: &GlobalVariable,
    index: usize,
) -> Result<String, AllocError>
    ensures { IfOk result (λ text. string_bytes text ≡ declaration_text «module».now variable.now index) }
{
    let space = space_part(alloc, variable.space)?;
    let name = item_text(alloc, ItemKind::Global, &variable.name, index)?;
    let ty = type_text(alloc, module, variable.ty, MOST_NESTED)?;
    format!(in alloc; "var{space} {name}: {ty}")
}
