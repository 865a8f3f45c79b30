//! Laws of preference among the overloads of built-in functions, and the conversion ranks that they refer to. Each law is the contract of a
//! function that does nothing.
#![tactic(auto)]

mod ranks;

ghost use Rattle.std.specs.Prelude.{◌≡◌, ◌∷◌, ◌++◌, [], None, Some, map};
ghost use Rattle.shader_ir.specs.declared.scalar.ScalarKind.TheVariants.{Bool};
ghost use Rattle.shader_ir.specs.Scalars.{abstract_float, abstract_int, floats, integers, named_scalars, scalar};
ghost use Rattle.shader_overloads.specs.Builtins.{all_floats, numeric};
ghost use Rattle.shader_overloads.specs.Rank.{conversion_rank};
ghost use Rattle.shader_overloads_laws.specs.Optimality.{ConversionsHaveRanks, EquallyRankedRulesAreEqual, PreferredIsUnbeaten};
ghost use Rattle.shader_overloads_laws.specs.ScalarSets.{FirstRulesAreBest, MixedSetsHaveAbstractInts, RegularScalarsArise};
ghost use Rattle.shader_overloads_laws.specs.ScalarSets.{RegularSetsStayRegular, ScalarSetsArise, TargetsNest, targets};

pub use ranks::conversion_rank;

/// States that the preferred rule is optimal: whatever calls narrow the rules of a built-in function, no remaining rule beats the first
/// one.
///
/// `narrow` returns these rules and `most_preferred` the first of them, so a call of a built-in function has the overload that WGSL prefers
/// (section "Overload resolution").
pub fn preferred_is_unbeaten()
    ensures { PreferredIsUnbeaten }
{}

/// States that ties are harmless: once all arguments are supplied, a remaining rule with the same rank as the first one at each argument
/// has the same arguments and the same conclusion.
pub fn equally_ranked_rules_are_equal()
    ensures { EquallyRankedRulesAreEqual }
{}

/// States that exactly the automatic conversions have a rank, and that the ranks are these, in the order of the named scalars.
#[tactic(auto, unfolding(shader_ir::specs::Scalars::named_scalars))]
pub fn ranks_are_of_conversions()
    ensures conversions { ConversionsHaveRanks }
    ensures from_abstract_int { map (conversion_rank abstract_int) named_scalars ≡ Some 0 ∷ Some 10 ∷ Some 4 ∷ Some 6 ∷ Some 8 ∷ Some 5
        ∷ Some 7 ∷ Some 9 ∷ Some 11 ∷ Some 12 ∷ Some 13 ∷ None ∷ [] }
    ensures from_abstract_float { map (conversion_rank abstract_float) named_scalars ≡ None ∷ Some 0 ∷ None ∷ None ∷ None ∷ None ∷ None
        ∷ None ∷ Some 1 ∷ Some 2 ∷ Some 3 ∷ None ∷ [] }
{}

/// States which scalars a scalar converts to: an abstract integer to all numbers, an abstract float to all floats, a concrete scalar to
/// itself alone. Of two such sets one contains the other, or they have nothing in common.
#[tactic(auto, unfolding(shader_ir::specs::Scalars::named_scalars))]
pub fn targets_nest()
    ensures written { map targets named_scalars
        ≡ numeric ∷ all_floats ∷ map (λ s. s ∷ []) (integers ++ floats ++ scalar Bool 1 ∷ []) }
    ensures nested { TargetsNest }
{}

/// States what calls leave of a regular set: a regular set again, of fewer constructors and fewer scalars. Its scalars are those of the
/// base set to which each supplied argument converts, the concrete ones after `ConcreteOnly`, and so one of few sets.
pub fn scalar_sets_of_regular_sets()
    ensures regular { RegularSetsStayRegular }
    ensures scalars { RegularScalarsArise }
{}

/// States what calls leave of a built-in function, whether its set is regular or a list: the rules of the shapes that fit the arguments,
/// with the scalars of one of these sets, the same one for each shape. The scalar of a rule is the leaf scalar of its first argument.
pub fn scalar_sets_of_functions()
    ensures { ScalarSetsArise }
{}

/// States why the preferred rule is never beaten: of the rules of some shapes with the scalars of such a set, none has a smaller rank at
/// an argument than the first.
///
/// Of other sets this is wrong: from an abstract integer `I32` has a smaller rank than the abstract float, which stands before it. But such
/// a set that has both has the abstract integer too, which stands before both.
pub fn first_rules_are_best()
    ensures best { FirstRulesAreBest }
    ensures mixed { MixedSetsHaveAbstractInts }
{}
