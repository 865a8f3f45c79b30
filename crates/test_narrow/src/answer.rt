//! The answer to all lines of an input.

ghost use Rattle.std.specs.Prelude.{All};
ghost use Rattle.shader_overloads.specs.Remaining.{CallFits};
ghost use Rattle.shader_type_text.specs.Insertions.{AreFlat};

use crate::narrowing::{Question, describe, rules_left};
use crate::step::calls_from_words;
use shader_arena::UniqueArena;
use shader_ir::{MathFunction, Type, mark};
use shader_overloads::SetCall;
use shader_type_text::{Pieces, builtin_from_word};
use std::alloc::{AllocError, Global};

/// Returns the reply to a line, if it narrows the rules of a built-in function.
fn reply_to(alloc: Global, line: &[u8]) -> Result<Option<String>, AllocError> {
    let mut words = Pieces::new(line, b' ');
    let Some(question) = words.next().and_then(|word| Question::from_word(word)) else {
        return Ok(None);
    };
    let Some(function) = words.next().and_then(|name| builtin_from_word(name)) else {
        return Ok(None);
    };
    narrowed(alloc, question, function, words)
}

/// Returns what is asked of the function's rules that remain after the calls.
fn told_after(
    alloc: Global,
    question: Question,
    function: MathFunction,
    calls: &[SetCall],
    types: &UniqueArena<Type, mark::Type>,
) -> Result<String, AllocError>
    requires flat { AreFlat types.now }
    requires fit { All (CallFits types.now) calls.now }
{
    let left = rules_left(alloc, function, calls, types)?;
    let told = describe(alloc, question, &left, calls, types);
    drop(left);
    told
}

/// Returns what is asked after the calls given by the words, if each word gives one. Their types are inserted into the arena.
fn narrowed_with(
    alloc: Global,
    question: Question,
    function: MathFunction,
    words: Pieces<'_>,
    types: &mut UniqueArena<Type, mark::Type>,
) -> Result<Option<String>, AllocError>
    requires { AreFlat types.old }
{
    let Some(calls) = calls_from_words(alloc, words, types)? else {
        return Ok(None);
    };
    Ok(Some(told_after(alloc, question, function, calls.as_slice(), types)?))
}

/// Returns what is asked of the function's rules that remain after the calls given by the words, if each word gives one.
fn narrowed(
    alloc: Global,
    question: Question,
    function: MathFunction,
    words: Pieces<'_>,
) -> Result<Option<String>, AllocError> {
    let mut types = UniqueArena::new(alloc);
    let reply = narrowed_with(alloc, question, function, words, &mut types);
    drop(types);
    reply
}

/// Adds the reply to a line, and ends it.
fn add_reply(alloc: Global, text: &mut String, line: &[u8]) -> Result<(), AllocError> {
    match reply_to(alloc, line)? {
        Some(reply) => writeln!(text, "{reply}"),
        None => writeln!(text, "bad line"),
    }
}

/// Returns the replies to the lines of the input, one per line.
pub fn answer(alloc: Global, input: &[u8]) -> Result<String, AllocError> {
    let mut text = String::new(alloc);
    for line in input.split_inclusive(|b| *b == b'\n') {
        add_reply(alloc, &mut text, line.strip_suffix(b"\n").unwrap_or(line))?;
    }
    Ok(text)
}
