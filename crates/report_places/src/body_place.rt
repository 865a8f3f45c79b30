//! Functions, entry points and global expressions of a module.
ghost use Rattle.std.specs.Prelude.{◌≡◌};
ghost use Rattle.report_places.specs.Sites.{place_of_body};
ghost use Rattle.report_places.specs.Tokens.{body_tokens};

use json::Writer;
use report_json::{WriteJson, write_variant};
use shader_uniformity::BodyLocation;
use std::alloc::{AllocError, Global};

/// A function, an entry point or a global expression, by its number among those of its kind.
#[derive(Clone, Copy, Debug, PartialEq, Eq)]
pub enum BodyPlace {
    /// A global expression.
    ConstExpression(usize),
    /// A function that may be called.
    Function(usize),
    /// An entry point.
    EntryPoint(usize),
}

impl WriteJson for BodyPlace {
    ghost tokens = { λ place. body_tokens place };

    #[tactic(auto, unfolding(crate::specs::Tokens::body_tokens))]
    fn write_json(&self, alloc: Global, writer: &mut Writer) -> Result<(), AllocError> {
        match self {
            BodyPlace::ConstExpression(index) => {
                write_variant(alloc, writer, "ConstExpression", index)
            }
            BodyPlace::Function(index) => write_variant(alloc, writer, "Function", index),
            BodyPlace::EntryPoint(index) => write_variant(alloc, writer, "EntryPoint", index),
        }
    }
}

/// Returns a function or an entry point as a place.
pub fn place_of_body(location: BodyLocation) -> BodyPlace
    ensures { result ≡ place_of_body location }
{
    match location {
        BodyLocation::Function(index) => BodyPlace::Function(index),
        BodyLocation::EntryPoint(index) => BodyPlace::EntryPoint(index),
    }
}
