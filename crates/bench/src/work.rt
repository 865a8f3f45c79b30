//! The calls that are measured, by their names.

use crate::calls::{build_sets, calls_of, resolve_calls};
use crate::expressions::resolve_all;
use crate::modules::{analyze, check, nest};
use crate::types::{compare, convert, lay_out};
use shader_ir::Module;
use shader_json_module::read_module;
use shader_type_text::{Pieces, index_of, number_from_word};
use std::alloc::{AllocError, Global};

/// Returns the number that a word spells, or 0 if it spells none.
fn number(word: Option<&[u8]>) -> usize {
    match word {
        Some(word) => number_from_word(word).unwrap_or(0) as usize,
        None => 0,
    }
}

/// Makes the call on a module `rounds` times, and returns a number to which all rounds contribute.
fn work_on_module(
    alloc: Global,
    call: &[u8],
    module: &Module,
    rounds: usize,
) -> Result<usize, AllocError> {
    match call {
        b"check_module" => Ok(check(module, rounds)),
        b"analyze_module" => Ok(analyze(alloc, module, rounds)),
        b"resolve" => resolve_all(alloc, module, rounds),
        b"update" => lay_out(alloc, module, rounds),
        b"compare_types" => compare(alloc, &module.types, rounds),
        b"automatically_converts_to" => convert(alloc, &module.types, rounds),
        _ => Ok(0),
    }
}

/// Makes the call on the module given by a text, after its first function was nested to this depth.
fn work_on_text(
    alloc: Global,
    call: &[u8],
    text: &[u8],
    rounds: usize,
    levels: usize,
) -> Result<usize, AllocError> {
    let Ok(mut module) = read_module(alloc, text) else {
        return Ok(0);
    };
    let nested = nest(alloc, &mut module, levels);
    let done = work_on_module(alloc, call, &module, rounds);
    drop(module);
    nested?;
    done
}

/// Performs the work that the first line of the input requests on the lines after it.
pub fn work(alloc: Global, input: &[u8]) -> Result<usize, AllocError> {
    let Some(end) = index_of(input, b'\n') else {
        return Ok(0);
    };
    let mut words = Pieces::new(&input[..end], b' ');
    let call = words.next().unwrap_or(b"");
    let rounds = number(words.next());
    let text = &input[end + 1..];
    match call {
        b"arg" => resolve_calls(alloc, calls_of(alloc, text)?.as_slice(), rounds, true),
        b"narrow" => resolve_calls(alloc, calls_of(alloc, text)?.as_slice(), rounds, false),
        b"overloads" => build_sets(alloc, calls_of(alloc, text)?.as_slice(), rounds),
        _ => work_on_text(alloc, call, text, rounds, number(words.next())),
    }
}
