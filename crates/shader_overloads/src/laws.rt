//! Laws about rules, overload sets and the sets that they are built from. Each law is the contract of a function that does nothing, or that
//! returns a constant.
ghost use Rattle.std.specs.Prelude.{◌≡◌, ◌∷◌, ◌++◌, ◌↔◌, [], IsTrue};
ghost use Rattle.shader_ir.specs.declared.types.TypeInner.{TypeInner};
ghost use Rattle.shader_ir.specs.Scalars.{abstract_float, abstract_int, floats, integers, scalar};
ghost use Rattle.shader_overloads.specs.AcceptanceLaws.{AcceptancesAgree, AcceptsByKey, AcceptsCanonicalForms};
ghost use Rattle.shader_overloads.specs.BitLaws.{OneBitsAddUp, OneBitsArePowers, OneBitsGrow};
ghost use Rattle.shader_overloads.specs.Builtins.{scalars_and_vectors, square_matrices, vectors};
ghost use Rattle.shader_overloads.specs.Constructors.{constructors_in};
ghost use Rattle.shader_overloads.specs.NarrowLaws.{CallsCommute, CallsRepeat};
ghost use Rattle.shader_overloads.specs.Remaining.{accepts, list_accepts};
ghost use Rattle.shader_overloads.specs.SameType.{same_type};
ghost use Rattle.shader_overloads.specs.ScalarSets.{scalars_in};

use crate::{ConstructorSet, ConstructorSize, Regular, ScalarSet};
use shader_ir::{ScalarKind, VectorSize};

/// States that each named set of scalars contains exactly the scalars that its name says.
#[tactic(auto, unfolding(shader_ir::specs::Scalars::named_scalars))]
pub fn scalar_sets_are_named()
    ensures empty { scalars_in ScalarSet.EMPTY ≡ [] }
    ensures abstract_int { scalars_in ScalarSet.ABSTRACT_INT ≡ abstract_int ∷ [] }
    ensures abstract_float { scalars_in ScalarSet.ABSTRACT_FLOAT ≡ abstract_float ∷ [] }
    ensures i16 { scalars_in ScalarSet.I16 ≡ scalar ScalarKind.Sint 2 ∷ [] }
    ensures i32 { scalars_in ScalarSet.I32 ≡ scalar ScalarKind.Sint 4 ∷ [] }
    ensures i64 { scalars_in ScalarSet.I64 ≡ scalar ScalarKind.Sint 8 ∷ [] }
    ensures u16 { scalars_in ScalarSet.U16 ≡ scalar ScalarKind.Uint 2 ∷ [] }
    ensures u32 { scalars_in ScalarSet.U32 ≡ scalar ScalarKind.Uint 4 ∷ [] }
    ensures u64 { scalars_in ScalarSet.U64 ≡ scalar ScalarKind.Uint 8 ∷ [] }
    ensures f16 { scalars_in ScalarSet.F16 ≡ scalar ScalarKind.Float 2 ∷ [] }
    ensures f32 { scalars_in ScalarSet.F32 ≡ scalar ScalarKind.Float 4 ∷ [] }
    ensures f64 { scalars_in ScalarSet.F64 ≡ scalar ScalarKind.Float 8 ∷ [] }
    ensures bool { scalars_in ScalarSet.BOOL ≡ scalar ScalarKind.Bool 1 ∷ [] }
    ensures abstract_ones { scalars_in ScalarSet.ABSTRACT ≡ abstract_int ∷ abstract_float ∷ [] }
    ensures integer { scalars_in ScalarSet.INTEGER ≡ abstract_int ∷ integers }
    ensures concrete_integer { scalars_in ScalarSet.CONCRETE_INTEGER ≡ integers }
    ensures float { scalars_in ScalarSet.FLOAT ≡ abstract_float ∷ floats }
    ensures concrete_float { scalars_in ScalarSet.CONCRETE_FLOAT ≡ floats }
    ensures unimplemented { scalars_in ScalarSet.FLOAT_ABSTRACT_UNIMPLEMENTED ≡ floats }
    ensures numeric { scalars_in ScalarSet.NUMERIC ≡ abstract_int ∷ abstract_float ∷ (integers ++ floats) }
    ensures concrete { scalars_in ScalarSet.CONCRETE ≡ integers ++ floats ++ scalar ScalarKind.Bool 1 ∷ [] }
{}

/// States that each named set of constructors contains exactly the constructors that its name says.
#[tactic(auto, unfolding(crate::specs::Constructors::all_constructors))]
pub fn constructor_sets_are_named()
    ensures empty { constructors_in ConstructorSet.EMPTY ≡ [] }
    ensures scalar { constructors_in ConstructorSet.SCALAR ≡ ConstructorSize.Scalar ∷ [] }
    ensures vec2 { constructors_in ConstructorSet.VEC2 ≡ ConstructorSize.Vector VectorSize.Bi ∷ [] }
    ensures vec3 { constructors_in ConstructorSet.VEC3 ≡ ConstructorSize.Vector VectorSize.Tri ∷ [] }
    ensures vec4 { constructors_in ConstructorSet.VEC4 ≡ ConstructorSize.Vector VectorSize.Quad ∷ [] }
    ensures mat2x2 { constructors_in ConstructorSet.MAT2X2 ≡ ConstructorSize.Matrix VectorSize.Bi VectorSize.Bi ∷ [] }
    ensures mat2x3 { constructors_in ConstructorSet.MAT2X3 ≡ ConstructorSize.Matrix VectorSize.Bi VectorSize.Tri ∷ [] }
    ensures mat2x4 { constructors_in ConstructorSet.MAT2X4 ≡ ConstructorSize.Matrix VectorSize.Bi VectorSize.Quad ∷ [] }
    ensures mat3x2 { constructors_in ConstructorSet.MAT3X2 ≡ ConstructorSize.Matrix VectorSize.Tri VectorSize.Bi ∷ [] }
    ensures mat3x3 { constructors_in ConstructorSet.MAT3X3 ≡ ConstructorSize.Matrix VectorSize.Tri VectorSize.Tri ∷ [] }
    ensures mat3x4 { constructors_in ConstructorSet.MAT3X4 ≡ ConstructorSize.Matrix VectorSize.Tri VectorSize.Quad ∷ [] }
    ensures mat4x2 { constructors_in ConstructorSet.MAT4X2 ≡ ConstructorSize.Matrix VectorSize.Quad VectorSize.Bi ∷ [] }
    ensures mat4x3 { constructors_in ConstructorSet.MAT4X3 ≡ ConstructorSize.Matrix VectorSize.Quad VectorSize.Tri ∷ [] }
    ensures mat4x4 { constructors_in ConstructorSet.MAT4X4 ≡ ConstructorSize.Matrix VectorSize.Quad VectorSize.Quad ∷ [] }
    ensures vecn { constructors_in ConstructorSet.VECN ≡ vectors }
    ensures scalar_or_vecn { constructors_in ConstructorSet.SCALAR_OR_VECN ≡ scalars_and_vectors }
    ensures square_matrices { constructors_in ConstructorSet.SQUARE_MATRICES ≡ square_matrices }
{}

/// States that `Regular::EMPTY` has no rules. Returns that set, as no clause can name a constant of a type that contracts see as a list.
pub fn empty_set_has_no_rules() -> Regular
    ensures { result ≡ [] }
{
    Regular::EMPTY
}

/// States that the items of `OneBitsIter`, which contracts see as the list of a number's set bits, are strictly increasing powers of two
/// that add up to the number.
pub fn one_bits_add_up()
    ensures powers { OneBitsArePowers }
    ensures growing { OneBitsGrow }
    ensures sum { OneBitsAddUp }
{}

/// States that the comparison of types by codes, by which a list accepts a type as the same, is equality.
pub fn same_types_are_equal()
    ensures { (left right : TypeInner) → IsTrue (same_type left right) ↔ (left ≡ right) }
{}

/// States that whether a rule accepts a type depends on the type's key alone, both in regular sets and in lists.
///
/// A pointer to a scalar or a vector is therefore accepted exactly if its value pointer is.
pub fn acceptance_is_by_key()
    ensures canonical { AcceptsCanonicalForms accepts }
    ensures canonical_in_lists { AcceptsCanonicalForms list_accepts }
    ensures key { AcceptsByKey accepts }
    ensures key_in_lists { AcceptsByKey list_accepts }
{}

/// States that the order of the calls that narrow a set doesn't matter, and that repeating a call changes nothing.
pub fn calls_commute()
    ensures commute { CallsCommute }
    ensures repeat { CallsRepeat }
{}

/// States that both kinds of sets accept the same types on all rules of the built-in functions, if the type's leaf scalar is a named one.
///
/// They differ elsewhere, as a regular set knows only the twelve named scalars.
pub fn acceptances_agree()
    ensures { AcceptancesAgree }
{}
