//! The bind group of a resource and its number there.
ghost use Rattle.std.specs.Prelude.{Some};
ghost use Rattle.shader_interface.specs.Bound.{attributes};

use std::fmt;

/// The bind group of a resource and its number there, as naga's type of this name.
#[derive(Clone, Copy, Debug, PartialEq, Eq)]
pub struct ResourceBinding {
    pub group: u32,
    pub binding: u32,
}

/// The attributes of a global in WGSL, each followed by a space, or an empty text if the global isn't bound.
#[derive(Clone, Copy)]
pub struct AttributesText(pub Option<ResourceBinding>);

impl fmt::Display for AttributesText {
    ghost output = { λ text. Some (attributes text.0) };

    fn fmt<W: fmt::Write>(&self, f: &mut fmt::Formatter<W>) -> fmt::Result {
        match self.0 {
            Some(bound) => write!(f, "@group({}) @binding({}) ", bound.group, bound.binding),
            None => Ok(()),
        }
    }
}
