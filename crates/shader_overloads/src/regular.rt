//! Overload sets with a rule for each combination of some constructors and some scalars.
ghost use Rattle.std.specs.Prelude.{◌≡◌, ◌⊎◌, ◌<◌, ◌/◌, ◌%◌, ◌&&◌, ℕ, [], IsOk, IsTrue, IfOk, Some, filter, replicate, slice_get};
ghost use Rattle.std.specs.List.{list_all};
ghost use Rattle.shader_ir.specs.declared.proc.type_resolution.TypeResolution.TheVariants as resolutions;
ghost use Rattle.shader_ir.specs.Scalars.{is_convertible, named_scalars};
ghost use Rattle.shader_ir.specs.declared.scalar.Scalar.{Scalar};
ghost use Rattle.shader_overloads.specs.declared.constructor_set.ConstructorSize.{ConstructorSize};
ghost use Rattle.shader_overloads.specs.Constructors.{all_constructors, constructors_in, same_constructor, to_inner};
ghost use Rattle.shader_overloads.specs.Masks.{has_position};
ghost use Rattle.shader_overloads.specs.Regular.{all_rules};
ghost use Rattle.shader_overloads.specs.Rules.{regular_rules, rule_for, conclusion_of, can_conclude};
ghost use Rattle.shader_overloads.specs.ScalarSets.{scalars_in};

use crate::constructor_set::{position_of, size_at};
use crate::mask::Mask;
use crate::masked::{Masked, Table};
use crate::rule::vector_size;
use crate::scalar_set::scalar_at;
use crate::{Conclusion, ConstructorSet, ConstructorSize, OverloadSet, Rule, ScalarSet};
use bitflags::Flags;
use shader_arena::UniqueArena;
use shader_ir::proc::TypeResolution;
use shader_ir::{GlobalCtx, Items, PredeclaredType, Scalar, Type, TypeInner, VectorSize, mark};
use std::alloc::{AllocError, Global};
use std::marker::Model;

/// An overload set of rules whose arguments all have one type, which contracts see as the list of its rules.
///
/// There is one rule for each combination of a constructor and a scalar, ordered by constructor and then by scalar, both in the order of
/// their bits.
#[derive(Drop)]
pub struct Regular {
    set: Masked<RegularTable>,
}

impl Model for Regular {
    ghost use Rattle.std.specs.Prelude.{List};
    ghost use Rattle.shader_overloads.specs.declared.rule.Rule.{Rule};

    ghost Value = { List Rule };

    ghost use Rattle.shader_overloads.specs.Regular.{rules_inside, IsRegular};

    ghost view = { rules_inside };

    ghost invariant = { IsRegular };
}

impl Regular {
    ghost use Rattle.std.specs.Prelude.{List};
    ghost use Rattle.shader_ir.specs.declared.types.«Type».{«Type»};
    ghost use Rattle.shader_overloads.specs.Remaining.{RulesFit};

    /// The set without rules.
    pub const EMPTY: Regular = Regular {
        set: Masked {
            mask: Mask::EMPTY,
            table: RegularTable {
                arity: 0,
                conclude: ConclusionRule::ArgumentType,
            },
        },
    };

    /// Returns the set of the rules with `arity` arguments each.
    pub fn new(
        arity: usize,
        constructors: ConstructorSet,
        scalars: ScalarSet,
        conclude: ConclusionRule,
    ) -> Regular
        requires arity { (0 < arity) ⊎ ((constructors_in constructors ≡ []) ⊎ (scalars_in scalars ≡ [])) }
        requires conclude { IsTrue (list_all (can_conclude conclude) (constructors_in constructors)) }
        ensures rules { result ≡ regular_rules arity conclude (constructors_in constructors) (scalars_in scalars) }
        ensures fits { (types : List «Type») → RulesFit types result }
    {
        let mask = Mask::pairs(constructors.bits(), scalars.bits());
        let table = RegularTable { arity, conclude };
        Regular {
            set: Masked { mask, table },
        }
    }
}

impl OverloadSet for Regular {
    ghost use Rattle.std.specs.Prelude.{List, ℕ, Bool, true};
    ghost use Rattle.shader_ir.specs.declared.types.«Type».{«Type»};
    ghost use Rattle.shader_ir.specs.declared.types.TypeInner.{TypeInner};
    ghost use Rattle.shader_overloads.specs.declared.rule.Rule.{Rule};
    ghost use Rattle.shader_overloads.specs.Remaining.{RulesFit, accepts, has_concrete_arguments};

    ghost rules = { λ set. set };

    ghost accepting = { λ _. accepts };

    ghost is_free = { λ _. true };

    /// Allocates nothing.
    fn copy(&self, _alloc: Global) -> Result<Regular, AllocError>
        ensures found { IsOk result }
        ensures rules { IfOk result (λ set. set ≡ self.now) }
        ensures kind { IfOk result (λ _. ◌≡◌ {A = List «Type» → ℕ → TypeInner → Rule → Bool} accepts accepts) }
    {
        let set = self.set.copy()?;
        Ok(Regular { set })
    }

    fn is_empty(&self) -> bool {
        self.set.is_empty()
    }

    fn min_arguments(&self) -> usize {
        self.set.table.arity
    }

    fn max_arguments(&self) -> usize {
        self.set.table.arity
    }

    /// Allocates nothing.
    fn arg(
        &self,
        _alloc: Global,
        i: usize,
        ty: &TypeInner,
        types: &UniqueArena<Type, mark::Type>,
    ) -> Result<Regular, AllocError>
        ensures found { IsOk result }
        ensures rules { IfOk result (λ set. set ≡ filter (accepts types.now i ty.now) self.now) }
        ensures kind { IfOk result (λ _. ◌≡◌ {A = List «Type» → ℕ → TypeInner → Rule → Bool} accepts accepts) }
        ensures fits { IfOk result (λ set. RulesFit types.now set) }
    {
        let set = self.set.arg(i, ty, types)?;
        Ok(Regular { set })
    }

    fn concrete_only(self, types: &UniqueArena<Type, mark::Type>) -> Regular
        ensures rules { result ≡ filter (has_concrete_arguments types.now) self }
        ensures kind { ◌≡◌ {A = List «Type» → ℕ → TypeInner → Rule → Bool} accepts accepts }
        ensures fits { RulesFit types.now result }
    {
        let Regular { set } = self;
        let set = set.concrete_only(types);
        Regular { set }
    }

    fn most_preferred(&self, alloc: Global) -> Result<Rule, AllocError> {
        self.set.most_preferred(alloc)
    }

    fn overload_list(&self, alloc: Global, _gctx: GlobalCtx<'_>) -> Result<Vec<Rule>, AllocError> {
        self.set.overload_list(alloc)
    }
}

/// The rules of all constructors and scalars: that of the constructor at position `i` and the scalar at position `j` has the number `12 * i
/// + j`.
#[derive(Clone, Copy)]
pub struct RegularTable {
    // First, over the pointer of a list, so that a set of either kind is moved by whole words.
    conclude: ConclusionRule,
    arity: usize,
}

impl RegularTable {
    ghost use Rattle.std.specs.Prelude.{List, ℕ};
    ghost use Rattle.shader_ir.specs.declared.types.«Type».{«Type»};
    ghost use Rattle.shader_overloads.specs.declared.rule.Rule.{Rule};
    ghost use Rattle.shader_overloads.specs.Remaining.{accepts, has_concrete_arguments};

    /// Returns the numbers of the rules that accept a value of the type as argument `i`.
    fn accepted_numbers(self, i: usize, ty: &TypeInner) -> Mask
        ensures { (types : List «Type») (number : ℕ) (rule : Rule) → slice_get (all_rules self) number ≡ Some rule →
            has_position result number ≡ accepts types i ty.now rule }
    {
        if i >= self.arity {
            return Mask::empty();
        }
        match ty {
            TypeInner::Scalar(scalar) => accepting_numbers(ConstructorSize::Scalar, *scalar),
            TypeInner::Vector { size, scalar } => {
                accepting_numbers(ConstructorSize::Vector(*size), *scalar)
            }
            TypeInner::Matrix {
                columns,
                rows,
                scalar,
            } => {
                let size = ConstructorSize::Matrix {
                    columns: *columns,
                    rows: *rows,
                };
                accepting_numbers(size, *scalar)
            }
            _ => Mask::empty(),
        }
    }

    /// Returns the numbers of the rules without abstract arguments.
    fn concrete_numbers(self) -> Mask
        ensures { (types : List «Type») (number : ℕ) (rule : Rule) → slice_get (all_rules self) number ≡ Some rule →
            has_position result number ≡ has_concrete_arguments types rule }
    {
        if self.arity == 0 {
            return Mask::pairs(u16::MAX, u16::MAX);
        }
        Mask::pairs(u16::MAX, ScalarSet::concrete().bits())
    }
}

impl Table for RegularTable {
    ghost use Rattle.std.specs.Prelude.{true, false};
    ghost use Rattle.shader_overloads.specs.Remaining.{accepts};

    ghost table_rules = { all_rules };

    ghost accepting = { λ _. accepts };

    ghost is_free = { true };

    ghost reads_types = { false };

    fn copy(&self) -> Result<RegularTable, AllocError> {
        Ok(*self)
    }

    fn rule_count(&self) -> usize {
        156
    }

    fn rule(&self, alloc: Global, number: usize) -> Result<Rule, AllocError> {
        let size = size_at(number / 12);
        let scalar = scalar_at(number % 12);
        build_rule(alloc, self.arity, size, scalar, self.conclude)
    }

    fn accepted(
        &self,
        mask: Mask,
        i: usize,
        ty: &TypeInner,
        _types: &UniqueArena<Type, mark::Type>,
    ) -> Mask {
        mask & self.accepted_numbers(i, ty)
    }

    fn concrete(&self, mask: Mask, _types: &UniqueArena<Type, mark::Type>) -> Mask {
        mask & self.concrete_numbers()
    }
}

/// Returns the numbers of the rules with the constructor and a scalar to which this one converts.
#[inline(always)]
fn accepting_numbers(size: ConstructorSize, scalar: Scalar) -> Mask
    ensures { (number : ℕ) (other : ConstructorSize) (to : Scalar) → slice_get all_constructors (number / 12) ≡ Some other →
        slice_get named_scalars (number % 12) ≡ Some to →
        has_position result number ≡ (same_constructor size other && is_convertible scalar to) }
{
    let scalars = ScalarSet::convertible_from(scalar);
    Mask::group(position_of(size), scalars.bits())
}

/// Returns the rule of one constructor and one scalar.
fn build_rule(
    alloc: Global,
    arity: usize,
    size: ConstructorSize,
    scalar: Scalar,
    conclude: ConclusionRule,
) -> Result<Rule, AllocError>
    ensures { IfOk result (λ rule. rule ≡ rule_for arity conclude size scalar) }
{
    let arguments = repeat_argument(alloc, arity, size, scalar)?;
    Ok(Rule {
        arguments,
        conclusion: conclude.conclude(size, scalar),
    })
}

/// Returns `arity` arguments, each of the type of the constructor and the scalar.
fn repeat_argument(
    alloc: Global,
    arity: usize,
    size: ConstructorSize,
    scalar: Scalar,
) -> Result<Items<TypeResolution>, AllocError>
    ensures { IfOk result (λ arguments. arguments ≡ replicate arity (resolutions.Value (to_inner size scalar))) }
{
    let mut arguments = Vec::new(alloc);
    for _count in 0..arity {
        arguments.push(TypeResolution::Value(size.to_inner(scalar)))?;
    }
    Ok(Items::from(arguments))
}

/// The result type of the rules of a regular set, as a function of the type of their arguments.
#[derive(Clone, Copy, Debug)]
pub enum ConclusionRule {
    /// The type of the argument.
    ArgumentType,
    /// The leaf scalar of the argument's type.
    Scalar,
    /// The result type that the module declares for `frexp` of the argument's type.
    Frexp,
    /// The result type that the module declares for `modf` of the argument's type.
    Modf,
    /// `u32`.
    U32,
    /// `i32`.
    I32,
    /// `vec2<f32>`.
    Vec2F,
    /// `vec4<f32>`.
    Vec4F,
    /// `vec4<i32>`.
    Vec4I,
    /// `vec4<u32>`.
    Vec4U,
}

impl ConclusionRule {
    /// Returns the conclusion for an argument of this constructor and scalar. No rule that concludes `Frexp` or `Modf` of a matrix ever
    /// remains.
    fn conclude(self, size: ConstructorSize, scalar: Scalar) -> Conclusion
        ensures { result ≡ conclusion_of self size scalar }
    {
        match self {
            ConclusionRule::ArgumentType => Conclusion::Value(size.to_inner(scalar)),
            ConclusionRule::Scalar => Conclusion::Value(TypeInner::Scalar(scalar)),
            ConclusionRule::Frexp => Conclusion::Predeclared(PredeclaredType::FrexpResult {
                size: vector_size(size),
                scalar,
            }),
            ConclusionRule::Modf => Conclusion::Predeclared(PredeclaredType::ModfResult {
                size: vector_size(size),
                scalar,
            }),
            ConclusionRule::U32 => Conclusion::Value(TypeInner::Scalar(Scalar::U32)),
            ConclusionRule::I32 => Conclusion::Value(TypeInner::Scalar(Scalar::I32)),
            ConclusionRule::Vec2F => vector(VectorSize::Bi, Scalar::F32),
            ConclusionRule::Vec4F => vector(VectorSize::Quad, Scalar::F32),
            ConclusionRule::Vec4I => vector(VectorSize::Quad, Scalar::I32),
            ConclusionRule::Vec4U => vector(VectorSize::Quad, Scalar::U32),
        }
    }
}

/// Returns the conclusion that is a vector type.
fn vector(size: VectorSize, scalar: Scalar) -> Conclusion
    ensures { result ≡ Conclusion.Value (TypeInner.Vector size scalar) }
{
    Conclusion::Value(TypeInner::Vector { size, scalar })
}
