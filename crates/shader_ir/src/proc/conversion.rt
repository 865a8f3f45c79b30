//! Automatic conversions between types.
ghost use Rattle.std.specs.Prelude.{◌≡◌, length, Some};
ghost use Rattle.shader_ir.specs.Conversion.{conversion, same_array_size, scalar_conversion};
ghost use Rattle.shader_ir.specs.TypeTree.{IsBackward, PointsBelow, Node, NoTree, tree_of};

use crate::{ArraySize, Scalar, ScalarKind, Type, TypeInner, mark};
use shader_arena::UniqueArena;

impl Scalar {
    /// Returns both scalars if the first converts to the second.
    #[inline(always)]
    fn pair_with(self, goal: Scalar) -> Option<(Scalar, Scalar)>
        ensures { result ≡ scalar_conversion (Some self) (Some goal) }
    {
        let converts = match (self.kind, goal.kind) {
            (ScalarKind::AbstractFloat, ScalarKind::Float) => true,
            (
                ScalarKind::AbstractInt,
                ScalarKind::Sint | ScalarKind::Uint | ScalarKind::AbstractFloat | ScalarKind::Float,
            ) => true,
            _ => self == goal,
        };
        if converts { Some((self, goal)) } else { None }
    }
}

impl ArraySize {
    /// Returns whether both are the same number or the same override, or both are runtime-sized.
    #[inline]
    fn is_equal_size(self, other: ArraySize) -> bool
        ensures { result ≡ same_array_size self other }
    {
        self == other
    }
}

impl TypeInner {
    /// Returns the leaf scalars of this type and of `goal` if a value of this type converts to `goal` by WGSL's automatic conversions: the
    /// types differ at most in their scalars and in the strides of arrays, and the scalars are equal or the first is abstract and its kind
    /// converts to the second's. Widths don't matter, and equal types give their own scalar twice.
    pub fn automatically_converts_to(
        &self,
        goal: &TypeInner,
        types: &UniqueArena<Type, mark::Type>,
    ) -> Option<(Scalar, Scalar)>
        requires backward { IsBackward types.now }
        requires self_in { PointsBelow (length types.now) self.now }
        requires goal_in { PointsBelow (length types.now) goal.now }
        ensures { result ≡ conversion (tree_of types.now self.now) (tree_of types.now goal.now) }
    {
        match self {
            TypeInner::Array { base, size, .. } => match goal {
                TypeInner::Array {
                    base: goal_base,
                    size: goal_size,
                    ..
                } => {
                    if !size.is_equal_size(*goal_size) {
                        return None;
                    }
                    types[*base]
                        .inner
                        .automatically_converts_to(&types[*goal_base].inner, types)
                }
                _ => None,
            },
            _ => self.leaf_converts_to(goal),
        }
    }

    /// Returns the leaf scalars as `automatically_converts_to` does, for types that aren't arrays.
    #[inline(always)]
    fn leaf_converts_to(&self, goal: &TypeInner) -> Option<(Scalar, Scalar)>
        ensures { result ≡ conversion (Node self.now NoTree) (Node goal.now NoTree) }
    {
        match (self, goal) {
            (TypeInner::Scalar(scalar), TypeInner::Scalar(goal_scalar)) => {
                scalar.pair_with(*goal_scalar)
            }
            (
                TypeInner::Vector { size, scalar },
                TypeInner::Vector {
                    size: goal_size,
                    scalar: goal_scalar,
                },
            ) if size == goal_size => scalar.pair_with(*goal_scalar),
            (
                TypeInner::Matrix {
                    columns,
                    rows,
                    scalar,
                },
                TypeInner::Matrix {
                    columns: goal_columns,
                    rows: goal_rows,
                    scalar: goal_scalar,
                },
            ) if columns == goal_columns && rows == goal_rows => scalar.pair_with(*goal_scalar),
            _ => None,
        }
    }
}
