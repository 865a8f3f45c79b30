//! Requests in lines of an input.

ghost use Rattle.std.specs.Prelude.{◌≡◌, IfOk};
ghost use Rattle.std.specs.Option.{option_map};
ghost use Rattle.typer_answers.specs.Requests.{call_from, convert_from, request_kind, layout_from, module_from};
ghost use Rattle.typer_answers.specs.Requests.{named_from, request_of, rules_from, types_of};

use shader_ir::{Items, MathFunction};
use shader_samples::Sample;
use shader_type_text::{Pieces, SpelledType, builtin_from_word};
use std::alloc::{AllocError, Global};

/// The kind of a request, by its keyword.
#[derive(Clone, Copy, Debug, PartialEq, Eq)]
pub enum Kind {
    /// `call`: the type of a call.
    Call,
    /// `rules`: the remaining rules.
    Rules,
    /// `layout`: the size, the alignment and the stride of a type.
    Layout,
    /// `convert`: the scalars of a conversion.
    Convert,
    /// `module`: the report of a sample.
    Module,
}

/// A request in a line of an input.
#[derive(Drop)]
pub enum Request {
    /// The type of a call with these arguments, of which there is at least one.
    Call(MathFunction, Items<SpelledType>),
    /// The rules of a built-in function that accept these arguments.
    Rules(MathFunction, Items<SpelledType>),
    /// The size, the alignment and the stride of a type.
    Layout(SpelledType),
    /// The scalars by which a value of the first type is converted to the second.
    Convert(SpelledType, SpelledType),
    /// The analysis results for a sample module.
    Module(Sample),
}

impl Kind {
    ghost use Rattle.typer_answers.specs.Requests.{request_kind_text};

    const ALL: [Kind; 5] = [
        Kind::Call,
        Kind::Rules,
        Kind::Layout,
        Kind::Convert,
        Kind::Module,
    ];

    fn word(self) -> &'static str
        ensures { result.now ≡ request_kind_text self }
    {
        match self {
            Kind::Call => "call",
            Kind::Rules => "rules",
            Kind::Layout => "layout",
            Kind::Convert => "convert",
            Kind::Module => "module",
        }
    }

    /// Returns the kind with this keyword.
    fn from_word(word: &[u8]) -> Option<Kind>
        ensures { result ≡ request_kind word.now }
    {
        Kind::ALL
            .iter()
            .copied()
            .find(|kind| kind.word().as_bytes() == word)
    }
}

/// Returns the request for a layout, if the rest of the line spells one type.
fn parse_layout(mut words: Pieces<'_>) -> Option<Request>
    ensures { result ≡ layout_from words.entry }
{
    let word = words.next()?;
    if words.next().is_some() {
        return None;
    }
    SpelledType::from_word(word).map(Request::Layout)
}

/// Returns the request for a conversion, if the rest of the line spells two types.
fn parse_convert(mut words: Pieces<'_>) -> Option<Request>
    ensures { result ≡ convert_from words.entry }
{
    let from = words.next()?;
    let to = words.next()?;
    if words.next().is_some() {
        return None;
    }
    let from = SpelledType::from_word(from)?;
    let to = SpelledType::from_word(to)?;
    Some(Request::Convert(from, to))
}

/// Returns the request for the report on a sample, if the rest of the line is its name.
fn parse_module(mut words: Pieces<'_>) -> Option<Request>
    ensures { result ≡ module_from words.entry }
{
    let name = words.next()?;
    if words.next().is_some() {
        return None;
    }
    Sample::from_name(name).map(Request::Module)
}

/// Returns the types that the rest of the line spells, if each part spells one.
fn parse_types(alloc: Global, words: Pieces<'_>) -> Result<Option<Vec<SpelledType>>, AllocError>
    ensures { IfOk result (λ types. option_map (λ v. v.items) types ≡ types_of words.entry) }
{
    let mut types = Vec::new(alloc);
    for word in words {
        let Some(next) = SpelledType::from_word(word) else {
            return Ok(None);
        };
        types.push(next)?;
    }
    Ok(Some(types))
}

/// Returns the built-in function that the next part names, and the types that the other parts spell.
fn parse_arguments(
    alloc: Global,
    mut words: Pieces<'_>,
) -> Result<Option<(MathFunction, Vec<SpelledType>)>, AllocError>
    ensures { IfOk result (λ named. option_map (λ n. (n.0, n.1.items)) named ≡ named_from words.entry) }
{
    let Some(function) = words.next().and_then(|name| builtin_from_word(name)) else {
        return Ok(None);
    };
    match parse_types(alloc, words)? {
        Some(types) => Ok(Some((function, types))),
        None => Ok(None),
    }
}

/// Returns the request for the type of a call, if the rest of the line is a built-in function and at least one type.
fn parse_call(alloc: Global, words: Pieces<'_>) -> Result<Option<Request>, AllocError>
    ensures { IfOk result (λ request. request ≡ call_from words.entry) }
{
    let Some((function, arguments)) = parse_arguments(alloc, words)? else {
        return Ok(None);
    };
    if arguments.is_empty() {
        return Ok(None);
    }
    Ok(Some(Request::Call(function, Items::from(arguments))))
}

/// Returns the request for rules, if the rest of the line is a built-in function and types.
fn parse_rules(alloc: Global, words: Pieces<'_>) -> Result<Option<Request>, AllocError>
    ensures { IfOk result (λ request. request ≡ rules_from words.entry) }
{
    let Some((function, arguments)) = parse_arguments(alloc, words)? else {
        return Ok(None);
    };
    Ok(Some(Request::Rules(function, Items::from(arguments))))
}

/// Returns the request in a line, if there is one.
pub fn parse_request(alloc: Global, line: &[u8]) -> Result<Option<Request>, AllocError>
    ensures { IfOk result (λ request. request ≡ request_of line.now) }
{
    let mut words = Pieces::new(line, b' ');
    let Some(kind) = words.next().and_then(Kind::from_word) else {
        return Ok(None);
    };
    match kind {
        Kind::Call => parse_call(alloc, words),
        Kind::Rules => parse_rules(alloc, words),
        Kind::Layout => Ok(parse_layout(words)),
        Kind::Convert => Ok(parse_convert(words)),
        Kind::Module => Ok(parse_module(words)),
    }
}
