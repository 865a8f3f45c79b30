//! Policies for indexes that may be out of bounds.
ghost use Rattle.std.specs.Prelude.{◌≡◌, ◌↔◌, IsTrue};
ghost use Rattle.shader_ir.specs.Key.{inner_of};
ghost use Rattle.shader_bounds.specs.Policies.{IsAmong, policy_for, policy_in, policy_of};
ghost use Rattle.shader_bounds.specs.Typed.{inner_at, type_at};

use crate::typed::type_of;
use shader_arena::{Handle, UniqueArena};
use shader_info::FunctionInfo;
use shader_ir::proc::TypeResolution;
use shader_ir::{AddressSpace, Type, TypeInner, mark};

/// The treatment of an index that may be out of bounds.
#[derive(Clone, Copy, Debug, PartialEq, Eq, Hash)]
pub enum BoundsCheckPolicy {
    /// Replacement by some index within bounds.
    Restrict,
    /// A read is zero, and a write is dropped.
    ReadZeroSkipWrite,
    /// No check: the code uses the index as it is.
    Unchecked,
}

/// The policies for each kind of access.
#[derive(Clone, Copy, Debug, PartialEq, Eq, Hash)]
pub struct BoundsCheckPolicies {
    /// The policy for arrays, vectors and matrices, if no other policy applies.
    pub index: BoundsCheckPolicy,
    /// The policy for accesses to uniform and storage buffers, whose bounds a device may check itself.
    pub buffer: BoundsCheckPolicy,
    /// The policy for the coordinates, the array index, the sample and the level of an `ImageLoad`.
    pub image_load: BoundsCheckPolicy,
    /// The policy for arrays of resources.
    pub binding_array: BoundsCheckPolicy,
}

/// The default is to use all indexes as they are.
impl Default for BoundsCheckPolicy {
    ghost use Rattle.std.specs.Prelude.{◌≡◌};
    ghost use Rattle.shader_bounds.specs.declared.policies.BoundsCheckPolicy.TheVariants.{Unchecked};

    ghost is_default = { λ policy. policy ≡ Unchecked };

    fn default() -> BoundsCheckPolicy {
        BoundsCheckPolicy::Unchecked
    }
}

/// The default is to check no access.
impl Default for BoundsCheckPolicies {
    ghost use Rattle.std.specs.Prelude.{◌≡◌};
    ghost use Rattle.shader_bounds.specs.Policies.{unchecked};

    ghost is_default = { λ policies. policies ≡ unchecked };

    fn default() -> BoundsCheckPolicies {
        BoundsCheckPolicies {
            index: BoundsCheckPolicy::Unchecked,
            buffer: BoundsCheckPolicy::Unchecked,
            image_load: BoundsCheckPolicy::Unchecked,
            binding_array: BoundsCheckPolicy::Unchecked,
        }
    }
}

impl BoundsCheckPolicies {
    /// Returns the policy for an access to the base: a pointer to the indexed value, or the indexed value itself.
    ///
    /// Assumes nothing of handles: a base whose type is out of range has the policy `index`.
    pub fn choose_policy(
        &self,
        base: Handle<mark::Expression>,
        types: &UniqueArena<Type, mark::Type>,
        info: &FunctionInfo,
    ) -> BoundsCheckPolicy
        ensures { result ≡ policy_of self.now (inner_at types.now (type_at info.now base)) }
    {
        match type_of(info, base) {
            Some(ty) => self.policy_of(ty, types),
            None => self.index,
        }
    }

    /// Returns the policy for an access whose base is of this type.
    pub(crate) fn policy_of(
        &self,
        base: &TypeResolution,
        types: &UniqueArena<Type, mark::Type>,
    ) -> BoundsCheckPolicy
        ensures { result ≡ policy_of self.now (inner_of types.now base.now) }
    {
        match base {
            TypeResolution::Handle(handle) => {
                if types.contains_handle(*handle) {
                    self.policy_for(&types[*handle].inner)
                } else {
                    self.index
                }
            }
            TypeResolution::Value(inner) => self.policy_for(inner),
        }
    }

    /// Returns the policy for an access whose base is of this shape.
    fn policy_for(&self, base: &TypeInner) -> BoundsCheckPolicy
        ensures { result ≡ policy_for self.now base.now }
    {
        match base {
            TypeInner::BindingArray { .. } => self.binding_array,
            _ => match base.pointer_space() {
                Some(space) => self.policy_in(space),
                None => self.index,
            },
        }
    }

    /// Returns the policy for an access through a pointer into the space.
    fn policy_in(&self, space: AddressSpace) -> BoundsCheckPolicy
        ensures { result ≡ policy_in self.now space }
    {
        match space {
            AddressSpace::Storage { .. } => self.buffer,
            AddressSpace::Uniform => self.buffer,
            AddressSpace::Function
            | AddressSpace::Private
            | AddressSpace::WorkGroup
            | AddressSpace::Handle
            | AddressSpace::Immediate
            | AddressSpace::TaskPayload
            | AddressSpace::RayPayload
            | AddressSpace::IncomingRayPayload => self.index,
        }
    }

    /// Returns whether one of the four policies is this one.
    pub fn contains(&self, policy: BoundsCheckPolicy) -> bool
        ensures { IsTrue result ↔ IsAmong self.now policy }
    {
        self.index == policy
            || self.buffer == policy
            || self.image_load == policy
            || self.binding_array == policy
    }
}
