//! Laws about well-formed modules and typing rules. Each law is the contract of a function that does nothing.
ghost use Rattle.shader_resolve.specs.QueriedLaws.{QueriedAreOperands};
ghost use Rattle.shader_resolve.specs.CongruenceLaws.{KeysRestOnKeys, ResultsHaveEqualKeys, RulesRespectKeys};
ghost use Rattle.shader_resolve.specs.ContextLaws.{WellFormedContextsFit};
ghost use Rattle.shader_resolve.specs.PointerLaws.{AccessesAreLifted, AccessesAreComponents, LoadsArePointed};

use crate::ResolveError;
use shader_arena::Handle;
use shader_ir::mark;
use shader_ir::proc::TypeResolution;

/// States that a well-formed module meets the preconditions of type resolution: everything named by the context of a function, of an entry
/// point or of the global expressions is in range, and so is everything that their expressions name besides operands; and the operands that
/// an expression queries are earlier.
///
/// Hence the preconditions of `ResolveContext::resolve` on the context and on the expression hold in each of them, those of
/// `Layouter::update` hold in the module's context, and the known number of each global expression and override may be queried.
pub fn contexts_of_well_formed_modules_fit()
    ensures { WellFormedContextsFit }
{}

/// States that the queried operands are operands: if all operands of an expression are below a bound, so are those that
/// `ResolveContext::resolve` queries.
pub fn queried_are_operands()
    ensures { QueriedAreOperands }
{}

/// States the typing rules of pointers on keys. A load has the pointee's type, or its scalar if it is an atomic, whether the pointer names
/// its base or is a value pointer. An access through a pointer is a pointer in the same space to the component of the pointee that an
/// access of the pointee itself would give.
pub fn pointers_are_followed()
    ensures loads { LoadsArePointed }
    ensures accesses { AccessesAreLifted }
    ensures parts { AccessesAreComponents }
{}

/// States that types depend only on keys: equal keys of the queried operands give an expression an equal key, or none in both cases; and
/// each typing rule respects keys.
pub fn equal_keys_give_equal_keys()
    ensures keys { KeysRestOnKeys }
    ensures rows { RulesRespectKeys }
{}

/// States that `ResolveContext::resolve` respects `compare_types`: if two closures return, for each queried operand, types that are equal
/// by `compare_types` or both an error, then the two results are equal by it or both errors. If the expression's rule allocates, or gives
/// a copy of a struct outside the arena, one of them alone may be out of memory.
///
/// The premises are the postconditions of the calls: that the result of `resolve` derives by the expression's typing rule, and that
/// `compare_types` decides equality of keys.
pub fn equal_operand_types_give_equal_types<'a, F, G>(_past: &F, _other: &G)
where
    F: Fn(Handle<mark::Expression>) -> Result<&'a TypeResolution, ResolveError>,
    G: Fn(Handle<mark::Expression>) -> Result<&'a TypeResolution, ResolveError>,
    ensures { ResultsHaveEqualKeys (F.post _past.now) (G.post _other.now) }
{}
