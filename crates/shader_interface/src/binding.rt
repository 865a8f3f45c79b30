//! How an argument, a result or a member is bound.
ghost use Rattle.std.specs.Prelude.{◌≡◌, option_map};
ghost use Rattle.shader_interface.specs.Interface.{blend_source_of, builtin_of, interpolation_of, location_of, location_part};
ghost use Rattle.shader_interface.specs.Interface.{sampling_of, seen};

use crate::values::{integer, member, text, variant};
use json::Value;

/// The JSON of naga's `Option<Binding>`: a location that stages share, a built-in value, or nothing. What it lacks is `None`.
#[derive(Clone, Copy)]
pub struct Binding<'v, 'a>(pub Option<&'v Value<'a>>);

impl<'v, 'a> Binding<'v, 'a> {
    /// Returns the name of the built-in value, as naga's `BuiltIn` has it.
    pub fn builtin(self) -> Option<&'a str>
        ensures { option_map (λ name. name.now) result ≡ builtin_of (seen self.entry.0) }
    {
        variant(member(self.0, "BuiltIn"))
    }

    /// Returns the part of that name of a location.
    fn part(self, name: &str) -> Option<&'v Value<'a>>
        ensures { seen result ≡ location_part name.now (seen self.entry.0) }
    {
        member(member(self.0, "Location"), name)
    }

    /// Returns the location.
    pub fn location(self) -> Option<u32>
        ensures { result ≡ location_of (seen self.entry.0) }
    {
        integer(self.part("location"))
    }

    /// Returns the source of blending with two sources, 0 or 1.
    pub fn blend_source(self) -> Option<u32>
        ensures { result ≡ blend_source_of (seen self.entry.0) }
    {
        integer(self.part("blend_src"))
    }

    /// Returns how a value is interpolated, as naga's `Interpolation` names it.
    pub fn interpolation(self) -> Option<&'a str>
        ensures { option_map (λ name. name.now) result ≡ interpolation_of (seen self.entry.0) }
    {
        text(self.part("interpolation"))
    }

    /// Returns where in a pixel a value is interpolated, as naga's `Sampling` names it.
    pub fn sampling(self) -> Option<&'a str>
        ensures { option_map (λ name. name.now) result ≡ sampling_of (seen self.entry.0) }
    {
        text(self.part("sampling"))
    }
}
