//! The statements of the body whose needs are reported, found once for all of its needs.
ghost use Rattle.std.specs.Prelude.{◌≡◌, IfOk};
ghost use Rattle.report_findings.specs.Bodies.{IsOutlined};

use report_places::{BodyPlace, Outline, outline_at};
use shader_ir::Module;
use std::alloc::{AllocError, Global};

/// A function or an entry point with its statements by their positions.
#[derive(Drop)]
pub struct OutlinedBody<'a> {
    pub place: BodyPlace,
    pub outline: Outline<'a>,
}

impl<'a> OutlinedBody<'a> {
    /// Returns the body at a place.
    ///
    /// # Errors
    ///
    /// `AllocError` if an allocation fails.
    pub fn at(
        alloc: Global,
        module: &'a Module,
        place: BodyPlace,
    ) -> Result<OutlinedBody<'a>, AllocError>
        ensures place { IfOk result (λ body. body.place ≡ place) }
        ensures outlined { IfOk result (λ body. IsOutlined «module».now body) }
    {
        let outline = outline_at(alloc, module, &place)?;
        Ok(OutlinedBody { place, outline })
    }

    /// Returns the body at a place: this one, if it is there.
    ///
    /// # Errors
    ///
    /// `AllocError` if an allocation fails.
    pub fn moved_to(
        self,
        alloc: Global,
        module: &'a Module,
        place: BodyPlace,
    ) -> Result<OutlinedBody<'a>, AllocError>
        requires { IsOutlined «module».now self }
        ensures place { IfOk result (λ body. body.place ≡ place) }
        ensures outlined { IfOk result (λ body. IsOutlined «module».now body) }
    {
        if self.place == place {
            Ok(self)
        } else {
            OutlinedBody::at(alloc, module, place)
        }
    }
}
