//! Steps of narrowing: the words that spell them and the calls on a set that they stand for.

ghost use Rattle.std.specs.Prelude.{◌≡◌, ◌<◌, length, All, IfOk, IfSome, IsTrue, OnOk};
ghost use Rattle.std.specs.List.{AllZip, list_any};
ghost use Rattle.shader_arena.specs.Positions.{most_items};
ghost use Rattle.shader_overloads.specs.Remaining.{CallFits};
ghost use Rattle.shader_type_text.specs.Insertions.{AreFlat, PreservesTypes};
ghost use Rattle.test_narrow.specs.Steps.{IsCallOf, Denotes, argument_of, has_no_step, step_of_word};

use shader_arena::UniqueArena;
use shader_ir::{Type, mark};
use shader_overloads::SetCall;
use shader_type_text::{Pieces, SpelledType, index_of, insert_type, number_from_word};
use std::alloc::{AllocError, Global};

/// A step of narrowing.
#[derive(Clone, Copy)]
pub enum Step {
    /// An argument with this position and type is supplied.
    Argument(u32, SpelledType),
    /// Some argument is known only at run time, so none may be abstract.
    ConcreteOnly,
}

impl Step {
    /// Returns the argument that `I=TYPE` supplies.
    fn argument_from_word(word: &[u8]) -> Option<Step>
        ensures { result ≡ argument_of word.now }
    {
        let at = index_of(word, b'=')?;
        let position = number_from_word(&word[..at])?;
        let spelled = SpelledType::from_word(&word[at + 1..])?;
        Some(Step::Argument(position, spelled))
    }

    /// Returns the step that the word spells.
    pub fn from_word(word: &[u8]) -> Option<Step>
        ensures { result ≡ step_of_word word.now }
    {
        match word {
            b"concrete" => Some(Step::ConcreteOnly),
            _ => Step::argument_from_word(word),
        }
    }

    /// Returns the step as a call on a set. The base of an array is inserted into the arena.
    pub fn to_call(self, types: &mut UniqueArena<Type, mark::Type>) -> Result<SetCall, AllocError>
        requires room { length types.old < most_items }
        requires flat { AreFlat types.old }
        ensures flat { IfOk result (λ _. AreFlat types.new) }
        ensures retained { IfOk result (λ _. PreservesTypes types.old types.new) }
        ensures fits { IfOk result (CallFits types.new) }
        ensures call { IfOk result (IsCallOf types.new self) }
    {
        match self {
            Step::Argument(i, spelled) => {
                let inner = insert_type(types, spelled)?;
                Ok(SetCall::Arg(i as usize, inner))
            }
            Step::ConcreteOnly => Ok(SetCall::ConcreteOnly),
        }
    }
}

/// Returns the calls that the words stand for, if each stands for one. Their types are inserted
/// into the arena.
///
/// # Errors
///
/// `AllocError` if allocation fails or the arena is full.
pub fn calls_from_words(
    alloc: Global,
    words: Pieces<'_>,
    types: &mut UniqueArena<Type, mark::Type>,
) -> Result<Option<Vec<SetCall>>, AllocError>
    requires { AreFlat types.old }
    ensures flat { OnOk result (AreFlat types.new) }
    ensures fit { IfOk result (λ calls. IfSome calls (λ built. All (CallFits types.new) built.items)) }
    ensures calls { IfOk result (λ calls. IfSome calls (λ built. AllZip (Denotes types.new) words.entry built.items)) }
    ensures none { IfOk result (λ calls. calls ≡ None → IsTrue (list_any has_no_step words.entry)) }
{
    let mut calls = Vec::new(alloc);
    for word in words {
        let Some(step) = Step::from_word(word) else {
            return Ok(None);
        };
        if types.is_full() {
            return Err(AllocError);
        }
        calls.push(step.to_call(types)?)?;
    }
    Ok(Some(calls))
}
