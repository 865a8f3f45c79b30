//! Bounds as JSON.
ghost use Rattle.std.specs.Prelude.{◌≡◌};
ghost use Rattle.report_json.specs.Tokens.{text_tokens};
ghost use Rattle.shader_report_bounds.specs.Tokens.{bounds_tokens, check_tokens, function_tokens, index_tokens, length_tokens, policy_name};

use crate::accesses::{AccessCheck, AccessIndex};
use crate::function::FunctionBounds;
use crate::module_bounds::ModuleBounds;
use json::Writer;
use report_json::{Member, WriteJson, write_object, write_variant};
use shader_bounds::{BoundsCheckPolicy, IndexableLength};
use std::alloc::{AllocError, Global};

/// Returns naga's name of a policy.
pub(crate) fn policy_name(policy: BoundsCheckPolicy) -> &'static str
    ensures { result.now ≡ policy_name policy }
{
    match policy {
        BoundsCheckPolicy::Restrict => "Restrict",
        BoundsCheckPolicy::ReadZeroSkipWrite => "ReadZeroSkipWrite",
        BoundsCheckPolicy::Unchecked => "Unchecked",
    }
}

/// A policy as JSON.
#[derive(Clone, Copy)]
struct PolicyName(BoundsCheckPolicy);

impl WriteJson for PolicyName {
    ghost tokens = { λ policy. text_tokens (policy_name policy.0) };

    fn write_json(&self, _alloc: Global, writer: &mut Writer) -> Result<(), AllocError> {
        writer.string(policy_name(self.0))
    }
}

impl WriteJson for AccessIndex {
    ghost tokens = { λ index. index_tokens index };

    #[tactic(auto, unfolding(crate::specs::Tokens::index_tokens))]
    fn write_json(&self, alloc: Global, writer: &mut Writer) -> Result<(), AllocError> {
        match self {
            AccessIndex::Known(index) => write_variant(alloc, writer, "Known", index),
            AccessIndex::Computed(index) => write_variant(alloc, writer, "Expression", index),
        }
    }
}

/// A length as JSON.
#[derive(Clone, Copy)]
struct Length(IndexableLength);

impl WriteJson for Length {
    ghost tokens = { λ length. length_tokens length.0 };

    #[tactic(auto, unfolding(crate::specs::Tokens::length_tokens))]
    fn write_json(&self, alloc: Global, writer: &mut Writer) -> Result<(), AllocError> {
        match self.0 {
            IndexableLength::Known(length) => write_variant(alloc, writer, "Known", &length),
            IndexableLength::Dynamic => writer.string("Dynamic"),
        }
    }
}

impl WriteJson for AccessCheck {
    ghost tokens = { λ check. check_tokens check };

    #[tactic(auto, unfolding(crate::specs::Tokens::check_tokens))]
    fn write_json(&self, alloc: Global, writer: &mut Writer) -> Result<(), AllocError> {
        let (length, policy) = (Length(self.length), PolicyName(self.policy));
        let access = (Member("access", &self.access), Member("base", &self.base));
        let check = (
            Member("index", &self.index),
            Member("length", &length),
            Member("policy", &policy),
        );
        write_object(alloc, writer, &(access, check))
    }
}

impl WriteJson for FunctionBounds {
    ghost tokens = { λ bounds. function_tokens bounds };

    #[tactic(auto, unfolding(crate::specs::Tokens::function_tokens))]
    fn write_json(&self, alloc: Global, writer: &mut Writer) -> Result<(), AllocError> {
        let members = (
            Member("accesses", &self.accesses),
            Member("checked_indexes", &self.checked_indexes),
            Member("oob_local_types", &self.local_types),
        );
        write_object(alloc, writer, &members)
    }
}

impl WriteJson for ModuleBounds {
    ghost tokens = { λ bounds. bounds_tokens bounds };

    #[tactic(auto, unfolding(crate::specs::Tokens::bounds_tokens))]
    fn write_json(&self, alloc: Global, writer: &mut Writer) -> Result<(), AllocError> {
        match self {
            ModuleBounds::Unsized(handle) => write_variant(alloc, writer, "override", handle),
            ModuleBounds::Found(functions, entry_points) => {
                let members = (
                    Member("functions", functions),
                    Member("entry_points", entry_points),
                );
                write_object(alloc, writer, &members)
            }
        }
    }
}
