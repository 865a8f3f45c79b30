//! The remaining rules of a built-in function, and their description.

ghost use Rattle.std.specs.Prelude.{◌≡◌, ◌≢◌, [], All, IfOk};
ghost use Rattle.shader_overloads.specs.AnySet.{rules_in};
ghost use Rattle.shader_overloads.specs.Builtins.{acceptance_of, rules_of};
ghost use Rattle.shader_overloads.specs.Remaining.{CallFits, remaining};
ghost use Rattle.shader_type_text.specs.Insertions.{AreFlat};

use crate::ranks::describe_ranks;
use shader_arena::{Arena, UniqueArena};
use shader_ir::{GlobalCtx, MathFunction, Type, mark};
use shader_overloads::{AnyOverloadSet, MathOverloads, OverloadSet, SetCall, narrow};
use shader_type_text::{ArgumentsText, RulesText};
use std::alloc::{AllocError, Global};

/// The question of a line about the rules that remain.
#[derive(Clone, Copy)]
pub enum Question {
    /// The rules, and the types of their arguments.
    Rules,
    /// The rank of each rule at each supplied argument.
    Ranks,
}

impl Question {
    /// Returns the question with which a line begins.
    pub fn from_word(word: &[u8]) -> Option<Question> {
        match word {
            b"narrow" => Some(Question::Rules),
            b"ranks" => Some(Question::Ranks),
            _ => None,
        }
    }
}

/// Returns the rules of the built-in function that pass every call.
pub fn rules_left(
    alloc: Global,
    function: MathFunction,
    calls: &[SetCall],
    types: &UniqueArena<Type, mark::Type>,
) -> Result<AnyOverloadSet, AllocError>
    requires flat { AreFlat types.now }
    requires fit { All (CallFits types.now) calls.now }
    ensures { IfOk result (λ left. rules_in left ≡ remaining (acceptance_of function) types.now calls.now (rules_of function)) }
{
    let set = function.overloads(alloc)?;
    narrow(alloc, set, calls, types)
}

/// Returns the rules, their counts of arguments, and the types of each argument, or their ranks, or `refused` if no rule remains.
pub fn describe(
    alloc: Global,
    question: Question,
    left: &AnyOverloadSet,
    calls: &[SetCall],
    types: &UniqueArena<Type, mark::Type>,
) -> Result<String, AllocError> {
    if left.is_empty() {
        return "refused".to_string(alloc);
    }
    let constants = Arena::new(alloc);
    let overrides = Arena::new(alloc);
    let global_expressions = Arena::new(alloc);
    let ctx = GlobalCtx {
        types,
        constants: &constants,
        overrides: &overrides,
        global_expressions: &global_expressions,
    };
    match question {
        Question::Rules => describe_rules(alloc, left, ctx),
        Question::Ranks => {
            let rules = left.overload_list(alloc, ctx)?;
            describe_ranks(alloc, rules.as_slice(), calls)
        }
    }
}

/// Returns the rules of a set that isn't empty, with the counts and the types of their arguments.
fn describe_rules(
    alloc: Global,
    left: &AnyOverloadSet,
    ctx: GlobalCtx<'_>,
) -> Result<String, AllocError>
    requires { rules_in left.now ≢ [] }
{
    let mut text = String::new(alloc);
    add_rules(alloc, &mut text, left, ctx)?;
    for i in 0..=left.max_arguments() {
        add_allowed(alloc, &mut text, left, i, ctx)?;
    }
    Ok(text)
}

/// Adds the rules of a set that isn't empty, and the counts of their arguments.
fn add_rules(
    alloc: Global,
    text: &mut String,
    left: &AnyOverloadSet,
    ctx: GlobalCtx<'_>,
) -> Result<(), AllocError>
    requires { rules_in left.now ≢ [] }
{
    let least = left.min_arguments();
    let greatest = left.max_arguments();
    let rules = left.overload_list(alloc, ctx)?;
    write!(
        text,
        "{} | {least}..{greatest}",
        RulesText(rules.as_slice())
    )
}

/// Adds the types that the rules of a set allow at an argument.
fn add_allowed(
    alloc: Global,
    text: &mut String,
    left: &AnyOverloadSet,
    i: usize,
    ctx: GlobalCtx<'_>,
) -> Result<(), AllocError> {
    let allowed = left.allowed_args(alloc, i, ctx)?;
    if allowed.is_empty() {
        return write!(text, " |");
    }
    write!(text, " | {}", ArgumentsText(allowed.as_slice()))
}
