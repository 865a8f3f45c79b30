//! Results of the analysis for a function and its expressions.
ghost use Rattle.std.specs.Prelude.{◌≡◌, ◌↔◌, length, IsOk, IsTrue, IfErr, IfOk};
ghost use Rattle.std.specs.List.{list_all, zip};
ghost use Rattle.shader_info.specs.Uses.{includes};
ghost use Rattle.shader_ir.specs.Key.{HoldsNoMembers};

use crate::{GlobalUse, UniformityRequirements};
use bitflags::Flags;
use shader_arena::{Handle, Range};
use shader_ir::proc::TypeResolution;
use shader_ir::{Items, ShaderStages, TryCopy, mark};
use std::alloc::{AllocError, Global};
use std::collections::{BTreeSet, HashSet};
use std::ops::Index;

/// An expression that makes a value differ among invocations, or `None` if no source is recorded.
///
/// After the result of a call it may be an expression of the callee. Where none is recorded the value may differ all the same: a function
/// that returns early for some invocations records none for its constant results.
pub type NonUniformResult = Option<Handle<mark::Expression>>;

/// The uniformity of a value, and the requirements of its computation on control flow.
#[derive(Clone, Copy, Debug)]
pub struct Uniformity {
    pub non_uniform_result: NonUniformResult,
    pub requirements: UniformityRequirements,
}

/// The resource of an image or a sampler: a global variable or an argument.
#[derive(Clone, Copy, Debug, PartialEq, Eq, Hash)]
pub enum GlobalOrArgument {
    /// A global variable.
    Global(Handle<mark::GlobalVariable>),
    /// The position among the function's arguments.
    Argument(u32),
}

/// A global image and a global sampler with which it is sampled.
#[derive(Clone, Copy, Debug, PartialEq, Eq, Hash)]
pub struct SamplingKey {
    pub image: Handle<mark::GlobalVariable>,
    pub sampler: Handle<mark::GlobalVariable>,
}

/// An image and a sampler with which it is sampled, at least one of which is an argument.
#[derive(Clone, Copy, Debug, PartialEq, Eq, Hash)]
pub struct Sampling {
    pub image: GlobalOrArgument,
    pub sampler: GlobalOrArgument,
}

/// The analysis result for an expression.
#[derive(Debug, Drop)]
pub struct ExpressionInfo {
    pub uniformity: Uniformity,
    /// The number of times that it is an operand, in expressions, statements and initial values of local variables.
    pub ref_count: usize,
    pub ty: TypeResolution,
}

impl ExpressionInfo {
    /// Returns an equal info. A type allocates only if it is a struct outside the arena, and the analysis records none.
    ///
    /// # Errors
    ///
    /// `AllocError` if allocating the members of a struct outside the arena fails.
    pub fn copy(&self, alloc: Global) -> Result<ExpressionInfo, AllocError>
        ensures copy { IfOk result (λ copy. copy ≡ self.now) }
        ensures ok { HoldsNoMembers self.now.ty → IsOk result }
    {
        Ok(ExpressionInfo {
            uniformity: self.uniformity,
            ref_count: self.ref_count,
            ty: self.ty.copy(alloc)?,
        })
    }
}

impl TryCopy for ExpressionInfo {
    fn try_copy(&self, alloc: Global) -> Result<ExpressionInfo, AllocError> {
        self.copy(alloc)
    }
}

impl TryCopy for GlobalUse {
    fn try_copy(&self, _alloc: Global) -> Result<GlobalUse, AllocError> {
        Ok(*self)
    }
}

/// The analysis result for a function, including its callees.
#[derive(Drop)]
pub struct FunctionInfo {
    /// All stages, always.
    pub available_stages: ShaderStages,
    /// The uniformity of the function's result, and the requirements of its body.
    pub uniformity: Uniformity,
    /// True if the function may end an invocation in control flow that others of its group don't take.
    pub may_kill: bool,
    /// The pairs of an image and a sampler that are both global variables.
    pub sampling_set: HashSet<SamplingKey>,
    /// The uses of each global variable, by its position.
    pub global_uses: Items<GlobalUse>,
    /// The result for each expression, by its position.
    pub expressions: Items<ExpressionInfo>,
    /// The pairs of an image and a sampler of which at least one is an argument.
    pub sampling: HashSet<Sampling>,
    /// False, always.
    pub dual_source_blending: bool,
}

/// Returns whether at each position of both lists the first one's uses contain the second one's.
fn dominates(uses: &[GlobalUse], others: &[GlobalUse]) -> bool
    ensures { result ≡ list_all (λ pair. includes pair.0 pair.1) (zip uses.now others.now) }
{
    uses.iter()
        .zip(others.iter())
        .all(|(uses, other)| uses.contains(*other))
}

impl FunctionInfo {
    ghost use Rattle.std.specs.Prelude.{min};
    ghost use Rattle.shader_arena.specs.Positions.{most_items};
    ghost use Rattle.shader_info.specs.Recorded.{ArePairsOf, AreUsed, Dominates, IsAnyUsed, IsSampled, IsSampledKey, SameInfo, is_used_for};

    /// Returns the number of the module's global variables.
    pub fn global_variable_count(&self) -> usize
        ensures { result ≡ length self.now.global_uses }
    {
        self.global_uses.len()
    }

    /// Returns the number of the function's expressions.
    pub fn expression_count(&self) -> usize
        ensures { result ≡ length self.now.expressions }
    {
        self.expressions.len()
    }

    /// Returns the positions of the global variables that a handle may have.
    fn global_range(&self) -> Range<mark::GlobalVariable>
        ensures { result ≡ (0, min (length self.now.global_uses) most_items) }
    {
        let count = self.global_variable_count().min(u32::MAX as usize) as u32;
        Range::new(Handle::from_index(0), Handle::from_index(count))
    }

    /// Returns whether the recorded uses of a global variable contain all of the given ones.
    fn is_used_for(&self, global: Handle<mark::GlobalVariable>, uses: GlobalUse) -> bool
        ensures { result ≡ is_used_for self.now uses global }
    {
        match self.global_uses.as_slice().get(global.index()) {
            Some(at) => at.contains(uses),
            None => false,
        }
    }

    /// Returns the global variables whose recorded uses contain all of the given ones, in ascending order: with `GlobalUse::WRITE` those
    /// that the function writes, by itself or in a function that it calls. No arena has more than `u32::MAX` of them, and none beyond is
    /// returned.
    ///
    /// # Errors
    ///
    /// `AllocError` if memory for the handles is refused. None is taken if no global is used so.
    pub fn globals_used(
        &self,
        alloc: Global,
        uses: GlobalUse,
    ) -> Result<Vec<Handle<mark::GlobalVariable>>, AllocError>
        ensures used { IfOk result (λ globals. AreUsed self.now uses globals.items) }
        ensures memory { IfErr result (λ _. IsAnyUsed self.now uses) }
    {
        let mut globals = Vec::new(alloc);
        for global in self.global_range().iter() {
            if self.is_used_for(global, uses) {
                globals.push(global)?;
            }
        }
        Ok(globals)
    }

    /// Returns whether this function uses each global variable that both infos have in all ways in which the other function does.
    pub fn dominates_global_use(&self, other: &FunctionInfo) -> bool
        ensures { IsTrue result ↔ Dominates self.now.global_uses other.now.global_uses }
    {
        dominates(self.global_uses.as_slice(), other.global_uses.as_slice())
    }

    /// Returns whether the pair is in `sampling`, where the analysis records those with an argument. `sampling_set` has the pairs of two
    /// global variables.
    pub fn has_sampling(&self, image: GlobalOrArgument, sampler: GlobalOrArgument) -> bool
        ensures { IsTrue result ↔ IsSampled self.now image sampler }
    {
        self.sampling.contains(&Sampling { image, sampler })
    }

    /// Checks whether `sampling_set` has the pair of a global image and a global sampler. `has_sampling` looks in `sampling`.
    pub fn has_sampling_key(
        &self,
        image: Handle<mark::GlobalVariable>,
        sampler: Handle<mark::GlobalVariable>,
    ) -> bool
        ensures { IsTrue result ↔ IsSampledKey self.now image sampler }
    {
        self.sampling_set.contains(&SamplingKey { image, sampler })
    }

    /// Returns the pairs of `sampling_set` by the indices of image and sampler, in ascending order.
    ///
    /// # Errors
    ///
    /// `AllocError` if memory for the pairs is refused.
    pub fn sorted_pairs(&self, alloc: Global) -> Result<Items<(usize, usize)>, AllocError>
        ensures { IfOk result (ArePairsOf self.now) }
    {
        let pairs: BTreeSet<(usize, usize)> = self
            .sampling_set
            .iter()
            .map(|key| (key.image.index(), key.sampler.index()))
            .collect(alloc)?;
        let pairs: Vec<(usize, usize)> = pairs.into_iter().collect(alloc)?;
        Ok(Items::from(pairs))
    }

    /// Returns an equal info.
    ///
    /// # Errors
    ///
    /// `AllocError` if allocating a table or a set fails.
    pub fn copy(&self, alloc: Global) -> Result<FunctionInfo, AllocError>
        ensures { IfOk result (λ copy. SameInfo self.now copy) }
    {
        Ok(FunctionInfo {
            available_stages: self.available_stages,
            uniformity: self.uniformity,
            may_kill: self.may_kill,
            sampling_set: self.sampling_set.clone()?,
            global_uses: self.global_uses.copy(alloc)?,
            expressions: self.expressions.copy(alloc)?,
            sampling: self.sampling.clone()?,
            dual_source_blending: self.dual_source_blending,
        })
    }
}

impl Index<Handle<mark::GlobalVariable>> for FunctionInfo {
    ghost use Rattle.std.specs.Prelude.{◌≡◌, ◌<◌, length, slice_get, Some};

    type Output = GlobalUse;

    ghost can_index = { λ info handle. handle < length info.global_uses };

    ghost index_gives = { λ info handle uses. slice_get info.global_uses handle ≡ Some uses };

    fn index(&self, handle: Handle<mark::GlobalVariable>) -> &GlobalUse {
        &self.global_uses.as_slice()[handle.index()]
    }
}

impl Index<Handle<mark::Expression>> for FunctionInfo {
    ghost use Rattle.std.specs.Prelude.{◌≡◌, ◌<◌, length, slice_get, Some};

    type Output = ExpressionInfo;

    ghost can_index = { λ info handle. handle < length info.expressions };

    ghost index_gives = { λ info handle expression. slice_get info.expressions handle ≡ Some expression };

    fn index(&self, handle: Handle<mark::Expression>) -> &ExpressionInfo {
        &self.expressions.as_slice()[handle.index()]
    }
}
