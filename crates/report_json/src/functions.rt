//! Infos of functions as JSON.
ghost use Rattle.report_json.specs.Functions.{answer_tokens, pair_tokens, sampling_tokens};

use crate::infos::ResourceKey;
use crate::members::{Member, write_object};
use crate::write_json::WriteJson;
use json::Writer;
use shader_info::FunctionInfo;
use shader_ir::Items;
use std::alloc::{AllocError, Global};

/// The positions of a global image and of a global sampler.
impl WriteJson for (usize, usize) {
    ghost tokens = { λ pair. pair_tokens pair };

    #[tactic(auto, unfolding(crate::specs::Functions::pair_tokens))]
    fn write_json(&self, alloc: Global, writer: &mut Writer) -> Result<(), AllocError> {
        let members = (Member("image", &self.0), Member("sampler", &self.1));
        write_object(alloc, writer, &members)
    }
}

/// An image and a sampler, one of which is an argument.
impl WriteJson for (ResourceKey, ResourceKey) {
    ghost tokens = { λ pair. sampling_tokens pair };

    #[tactic(auto, unfolding(crate::specs::Functions::sampling_tokens))]
    fn write_json(&self, alloc: Global, writer: &mut Writer) -> Result<(), AllocError> {
        let members = (Member("image", &self.0), Member("sampler", &self.1));
        write_object(alloc, writer, &members)
    }
}

/// The info of a function, with its pairs in ascending order.
#[derive(Drop)]
pub struct FunctionAnswer<'a> {
    pub info: &'a FunctionInfo,
    /// The positions of a global image and of a global sampler.
    pub pairs: Items<(usize, usize)>,
    /// An image and a sampler, one of which is an argument.
    pub sampling: Items<(ResourceKey, ResourceKey)>,
}

impl WriteJson for FunctionAnswer<'_> {
    ghost tokens = { λ answer. answer_tokens answer };

    #[tactic(auto, unfolding(crate::specs::Functions::function_tokens))]
    fn write_json(&self, alloc: Global, writer: &mut Writer) -> Result<(), AllocError> {
        let first = (
            Member("available_stages", &self.info.available_stages),
            Member("uniformity", &self.info.uniformity),
            Member("may_kill", &self.info.may_kill),
            Member("sampling_set", &self.pairs),
        );
        let last = (
            Member("global_uses", &self.info.global_uses),
            Member("expressions", &self.info.expressions),
            Member("sampling", &self.sampling),
            Member("dual_source_blending", &self.info.dual_source_blending),
        );
        write_object(alloc, writer, &(first, last))
    }
}
