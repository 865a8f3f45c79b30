//! The answer to each line of an input.
use crate::told::Told;
use crate::words::Words;
use crate::{bounds, flow, layouts, lengths, parts, resolve, types, typifier};
use shader_ir::Module;
use shader_json_module::{ReadError, read_module};
use std::alloc::{AllocError, Global};

/// Tells what a question asks of a module.
fn tell(told: &mut Told, alloc: Global, question: &str, module: &Module) {
    let mut words = Words { rest: question };
    match words.next_word() {
        "bounds" => bounds::tell(told, alloc, words, module),
        "component" => types::tell_component(told, words, module),
        "fault" => flow::tell_fault(told, module),
        "layouts" => layouts::tell(told, alloc, words, module),
        "length" => lengths::tell(told, words, module),
        "literals" => parts::tell_literals(told, module),
        "nests" => flow::tell_nesting(told, words, module),
        "origins" => flow::tell_origins(told, alloc, words, module),
        "part" => parts::tell(told, words, module),
        "refusal" => flow::tell_refusal(told, alloc, module),
        "resolve" => resolve::tell(told, alloc, words, module),
        "type" => types::tell(told, words, module),
        "typifier" => typifier::tell(told, alloc, words, module),
        _ => {}
    }
}

/// Tells what a question asks of a module, or of a copy of it if the first word is `copied`.
fn tell_copied(told: &mut Told, alloc: Global, question: &str, module: &Module) {
    match question.strip_prefix("copied ") {
        Some(question) => match module.copy(alloc) {
            Ok(copy) => {
                tell(told, alloc, question, &copy);
                drop(copy);
            }
            Err(AllocError) => told.fail(),
        },
        None => tell(told, alloc, question, module),
    }
}

/// Tells what a question asks of the module that a text is.
fn tell_read(told: &mut Told, alloc: Global, question: &str, text: &str) {
    match read_module(alloc, text.as_bytes()) {
        Ok(module) => {
            tell_copied(told, alloc, question, &module);
            drop(module);
        }
        Err(ReadError::OutOfMemory) => told.fail(),
        Err(error) => {
            told.say("unread", &error);
            drop(error);
        }
    }
}

/// Answers a line: a question, a tab and a module.
fn answer_line(told: &mut Told, alloc: Global, line: &[u8]) {
    if let Ok(text) = str::from_utf8(line) {
        if let Some((question, module)) = text.split_once('\t') {
            tell_read(told, alloc, question, module);
        }
    }
    told.end_line();
}

/// Returns the answers to the lines of the input, one per line.
pub fn answer(alloc: Global, input: &[u8]) -> Result<String, AllocError> {
    let mut told = Told::new(alloc);
    for line in input.split_inclusive(|b| *b == b'\n') {
        answer_line(&mut told, alloc, line.strip_suffix(b"\n").unwrap_or(line));
    }
    told.into_text()
}
