//! Overload sets of either kind: lists and regular sets.
ghost use Rattle.std.specs.Prelude.{◌≡◌};

use crate::{List, OverloadSet, Regular, Rule};
use shader_arena::UniqueArena;
use shader_ir::{GlobalCtx, Type, TypeInner, mark};
use std::alloc::{AllocError, Global};

/// An overload set of either kind.
#[derive(Drop)]
pub enum AnyOverloadSet {
    /// Rules listed one by one.
    List(List),
    /// All combinations of constructors and scalars.
    Regular(Regular),
}

impl From<List> for AnyOverloadSet {
    ghost use Rattle.shader_overloads.specs.declared.any_overload_set.AnyOverloadSet.TheVariants as sets;

    ghost from_gives = { λ list set. set ≡ sets.List list };

    fn from(list: List) -> AnyOverloadSet {
        AnyOverloadSet::List(list)
    }
}

impl From<Regular> for AnyOverloadSet {
    ghost use Rattle.shader_overloads.specs.declared.any_overload_set.AnyOverloadSet.TheVariants as sets;

    ghost from_gives = { λ regular set. set ≡ sets.Regular regular };

    fn from(regular: Regular) -> AnyOverloadSet {
        AnyOverloadSet::Regular(regular)
    }
}

impl OverloadSet for AnyOverloadSet {
    ghost use Rattle.shader_overloads.specs.AnySet.{rules_in, acceptance_in, is_regular};

    ghost rules = { rules_in };

    ghost accepting = { acceptance_in };

    ghost is_free = { is_regular };

    fn copy(&self, alloc: Global) -> Result<AnyOverloadSet, AllocError> {
        match self {
            AnyOverloadSet::List(list) => {
                let set = list.copy(alloc)?;
                Ok(AnyOverloadSet::List(set))
            }
            AnyOverloadSet::Regular(regular) => {
                let set = regular.copy(alloc)?;
                Ok(AnyOverloadSet::Regular(set))
            }
        }
    }

    fn is_empty(&self) -> bool {
        match self {
            AnyOverloadSet::List(list) => list.is_empty(),
            AnyOverloadSet::Regular(regular) => regular.is_empty(),
        }
    }

    fn min_arguments(&self) -> usize {
        match self {
            AnyOverloadSet::List(list) => list.min_arguments(),
            AnyOverloadSet::Regular(regular) => regular.min_arguments(),
        }
    }

    fn max_arguments(&self) -> usize {
        match self {
            AnyOverloadSet::List(list) => list.max_arguments(),
            AnyOverloadSet::Regular(regular) => regular.max_arguments(),
        }
    }

    fn arg(
        &self,
        alloc: Global,
        i: usize,
        ty: &TypeInner,
        types: &UniqueArena<Type, mark::Type>,
    ) -> Result<AnyOverloadSet, AllocError> {
        match self {
            AnyOverloadSet::List(list) => {
                let set = list.arg(alloc, i, ty, types)?;
                Ok(AnyOverloadSet::List(set))
            }
            AnyOverloadSet::Regular(regular) => {
                let set = regular.arg(alloc, i, ty, types)?;
                Ok(AnyOverloadSet::Regular(set))
            }
        }
    }

    fn concrete_only(self, types: &UniqueArena<Type, mark::Type>) -> AnyOverloadSet {
        match self {
            AnyOverloadSet::List(list) => AnyOverloadSet::List(list.concrete_only(types)),
            AnyOverloadSet::Regular(regular) => {
                let set = regular.concrete_only(types);
                AnyOverloadSet::Regular(set)
            }
        }
    }

    fn most_preferred(&self, alloc: Global) -> Result<Rule, AllocError> {
        match self {
            AnyOverloadSet::List(list) => list.most_preferred(alloc),
            AnyOverloadSet::Regular(regular) => regular.most_preferred(alloc),
        }
    }

    fn overload_list(&self, alloc: Global, gctx: GlobalCtx<'_>) -> Result<Vec<Rule>, AllocError> {
        match self {
            AnyOverloadSet::List(list) => list.overload_list(alloc, gctx),
            AnyOverloadSet::Regular(regular) => regular.overload_list(alloc, gctx),
        }
    }
}
