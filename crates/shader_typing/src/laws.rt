//! Laws, which a proof cites: each is the contract of a function that does nothing. Those of the crates below stand in modules of their
//! names here, those of the IR at `ir::laws`, and those of overload sets at `proc::overloads::laws`.
ghost use Rattle.shader_typing.specs.Contexts.{ExpressionsFit, FunctionsFit, PositionsAreOfFunctions};
ghost use Rattle.shader_typing.specs.Divergence.{AcceptedWalksAgree, AlikeWalksPassAlike, OriginsAreDecided};
ghost use Rattle.shader_analysis.specs.Growth.{EntryCanBeProcessed, InfosGrow, NextCanBeProcessed, NoneAreStored};
ghost use Rattle.shader_typing.specs.InfoAnswers.{ExactRecordsAnswer};
ghost use Rattle.shader_typing.specs.LaidOut.{FaultlessTypesAreLaidOut};

pub use shader_analysis_spec::laws as analysis_spec;
pub use shader_bounds::laws as bounds;
pub use shader_overloads_laws as overloads;
pub use shader_resolve::laws as resolve;
pub use shader_typifier::laws as typifier;
pub use shader_uniformity::laws as uniformity;
pub use shader_uniformity_trace::laws as uniformity_trace;

/// States that each expression of a function or an entry point of a well-formed module has an origin or has none. The logic has no excluded
/// middle, but operands are earlier expressions, and callees earlier functions.
pub fn origins_are_decided()
    ensures { OriginsAreDecided }
{}

/// States noninterference of control flow: two walks through a body without Loop, Break and Continue that choose alike wherever the choice
/// is uniform pass the same path points where flow isn't disrupted, and so the same undisrupted `Emit`s, whether the function is accepted
/// or not.
///
/// A walk is a path through one body. It ends in a call only where the called function kills some of those who call it. That invocations
/// choose alike where no origin is defined isn't shown.
pub fn alike_walks_pass_alike()
    ensures { AlikeWalksPassAlike }
{}

/// States what the absence of a fault, which `analyze_module` establishes of each function and entry point, means for such walks: where
/// flow is checked and the function's filter says Error, they pass the same `Emit`s of expressions that need uniform flow.
pub fn accepted_walks_agree()
    ensures { AcceptedWalksAgree }
{}

/// States that an exact record, which `analyze_module` returns, has an info of each function and entry point, and that each field of an
/// info answers by the definition over all call paths. The stages and the blending are the same for all infos.
pub fn exact_records_answer()
    ensures { ExactRecordsAnswer }
{}

/// States that the function at a position of a well-formed module meets the preconditions of `ResolveContext::resolve` on its context.
pub fn function_fits()
    ensures { FunctionsFit }
{}

/// States that an expression of a function of a well-formed module meets the preconditions of `type_of`: what it names is in range, and its
/// operands are before it.
pub fn expression_fits()
    ensures { ExpressionsFit }
{}

/// States that the function at a position of a module's list is the module's, as `find_checked_indexes` and `oob_local_types` require, and
/// so is that of the entry point at one.
pub fn positions_are_of_functions()
    ensures { PositionsAreOfFunctions }
{}

/// States that a `Layouter` refuses no type of an arena whose types have no layout error when they are gone through in order: where the
/// types are written out, that none has one is computed.
pub fn faultless_types_are_laid_out()
    ensures { FaultlessTypesAreLaidOut }
{}

/// States that the next function may be given to `ModuleInfo::process_function` once the infos of those before it are stored.
pub fn next_can_be_processed()
    ensures { NextCanBeProcessed }
{}

/// States that an entry point may be given to `ModuleInfo::process_function` once the infos of all functions are stored.
pub fn entry_can_be_processed()
    ensures { EntryCanBeProcessed }
{}

/// States that stored infos with one that fits the next function are stored infos, as `ModuleInfo::add_function` leaves them, and that none
/// are.
pub fn infos_grow()
    ensures none { NoneAreStored }
    ensures more { InfosGrow }
{}
