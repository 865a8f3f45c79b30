//! What is said of a call of a built-in function that no overload accepts.

use crate::overloads::{AtFault, fault_of, has_shape, wanted_type};
use crate::phrases::with_article;
use crate::typed::Typed;
use crate::wording::Wording;
use report_diagnostics::{FactValue, Text};
use report_names::{MOST_NESTED, math_word, type_text, unlisted_text};
use shader_arena::Handle;
use shader_ir::proc::TypeResolution;
use shader_ir::{Expression, MathFunction, Module, PredeclaredType, Scalar, TypeInner, mark};
use shader_overloads::{Conclusion, Rule};
use std::alloc::{AllocError, Global};

/// A call of a built-in function, with the types of its arguments.
#[derive(Drop)]
struct Call {
    function: MathFunction,
    arguments: Vec<Handle<mark::Expression>>,
    types: Vec<TypeInner>,
    texts: Vec<String>,
}

/// Returns the built-in function that an expression calls, with its arguments.
fn called(
    alloc: Global,
    expression: &Expression,
) -> Result<Option<(MathFunction, Vec<Handle<mark::Expression>>)>, AllocError> {
    let Expression::Math {
        fun,
        arg,
        arg1,
        arg2,
        arg3,
    } = expression
    else {
        return Ok(None);
    };
    let mut arguments = Vec::new(alloc);
    for argument in [Some(*arg), *arg1, *arg2, *arg3] {
        if let Some(argument) = argument {
            arguments.push(argument)?;
        }
    }
    Ok(Some((*fun, arguments)))
}

/// Returns the refused call, if the types of its arguments are known.
fn call_of(alloc: Global, typed: &Typed<'_>) -> Result<Option<Call>, AllocError> {
    let Some(expression) = typed.expression() else {
        return Ok(None);
    };
    let Some((function, arguments)) = called(alloc, expression)? else {
        return Ok(None);
    };
    let mut types = Vec::new(alloc);
    let mut texts = Vec::new(alloc);
    for argument in &arguments {
        let (Some(inner), Some(text)) = (typed.inner(*argument), typed.type_text(alloc, *argument)?)
        else {
            return Ok(None);
        };
        types.push(inner.copy(alloc)?)?;
        texts.push(text)?;
    }
    Ok(Some(Call {
        function,
        arguments,
        types,
        texts,
    }))
}

/// Returns texts with commas between them.
fn listed(alloc: Global, texts: &[String]) -> Result<String, AllocError> {
    let mut list = String::new(alloc);
    for (index, text) in texts.iter().enumerate() {
        if index > 0 {
            list.push_str(", ")?;
        }
        list.push_str(text.as_str())?;
    }
    Ok(list)
}

/// Returns the type of an argument of an overload.
fn resolution_text(
    alloc: Global,
    module: &Module,
    resolution: &TypeResolution,
) -> Result<String, AllocError> {
    match resolution {
        TypeResolution::Handle(ty) => type_text(alloc, module, *ty, MOST_NESTED),
        TypeResolution::Value(inner) => unlisted_text(alloc, module, inner, MOST_NESTED),
    }
}

/// Returns the struct that the module declares for a built-in function.
fn predeclared_text(
    alloc: Global,
    module: &Module,
    predeclared: PredeclaredType,
) -> Result<String, AllocError> {
    match module.special_types.predeclared_types.get(&predeclared) {
        Some(ty) => type_text(alloc, module, *ty, MOST_NESTED),
        None => "struct".to_string(alloc),
    }
}

/// Returns the type that an overload returns.
fn conclusion_text(
    alloc: Global,
    module: &Module,
    conclusion: &Conclusion,
) -> Result<String, AllocError> {
    match conclusion {
        Conclusion::Value(inner) => unlisted_text(alloc, module, inner, MOST_NESTED),
        Conclusion::Predeclared(predeclared) => predeclared_text(alloc, module, *predeclared),
    }
}

/// Returns the types of the arguments of an overload.
fn wanted_texts(alloc: Global, module: &Module, rule: &Rule) -> Result<Vec<String>, AllocError> {
    let mut wanted = Vec::new(alloc);
    for argument in rule.arguments.as_slice() {
        wanted.push(resolution_text(alloc, module, argument)?)?;
    }
    Ok(wanted)
}

/// Returns an overload, as `acos(f32) -> f32`.
fn rule_text(
    alloc: Global,
    module: &Module,
    name: &str,
    rule: &Rule,
) -> Result<String, AllocError> {
    let wanted = wanted_texts(alloc, module, rule)?;
    let list = listed(alloc, wanted.as_slice())?;
    let conclusion = conclusion_text(alloc, module, &rule.conclusion)?;
    format!(in alloc; "{name}({list}) -> {conclusion}")
}

/// Adds the closest overloads as notes, and as facts.
fn add_closest(
    alloc: Global,
    module: &Module,
    wording: &mut Wording,
    name: &str,
    fault: &AtFault,
) -> Result<(), AllocError> {
    let number = fault.index.saturating_add(1);
    let mut candidates = Vec::new(alloc);
    for rule in &fault.closest {
        let overload = rule_text(alloc, module, name, rule)?;
        if let Some(wanted) = rule.arguments.as_slice().get(fault.index) {
            let wanted = resolution_text(alloc, module, wanted)?;
            wording.note(format!(in alloc;
                "closest: {overload}, which wants `{wanted}` as argument {number}"
            )?)?;
        }
        candidates.push(Text::from(overload))?;
    }
    if fault.closest.len() < fault.left {
        wording.note(format!(in alloc; "{} overloads in all", fault.all)?)?;
    }
    let name = Text::from("candidates".to_string(alloc)?);
    wording.data.add(name, FactValue::Words(candidates))
}

/// Checks whether a scalar is one to which a call converts.
fn is_common(scalar: Scalar) -> bool {
    matches!(scalar, Scalar::F32 | Scalar::I32 | Scalar::U32)
}

/// Checks whether a value of a type can be converted to another one: a scalar to a scalar, or a vector to one of the same size.
fn is_convertible(given: &TypeInner, wanted: &TypeInner) -> bool {
    let scalars = match given {
        TypeInner::Scalar(from) => match wanted {
            TypeInner::Scalar(to) => Some((*from, *to)),
            _ => None,
        },
        TypeInner::Vector { scalar: from, .. } => match wanted {
            TypeInner::Vector { scalar: to, .. } => Some((*from, *to)),
            _ => None,
        },
        _ => None,
    };
    match scalars {
        Some((from, to)) => has_shape(given, wanted) && is_common(from) && is_common(to),
        None => false,
    }
}

/// Returns an argument as the overload wants it, converted if needed, and whether it is. `None` if no conversion is known.
fn converted(
    alloc: Global,
    typed: &Typed<'_>,
    call: &Call,
    rule: &Rule,
    index: usize,
) -> Result<Option<(String, bool)>, AllocError> {
    let (Some(argument), Some(given)) = (
        call.arguments.as_slice().get(index),
        call.types.as_slice().get(index),
    ) else {
        return Ok(None);
    };
    let Some(wanted) = wanted_type(typed.module, rule, index) else {
        return Ok(None);
    };
    let text = typed.operand_text(alloc, *argument)?;
    if given == wanted {
        return Ok(Some((text, false)));
    }
    if !is_convertible(given, wanted) {
        return Ok(None);
    }
    let ty = unlisted_text(alloc, typed.module, wanted, MOST_NESTED)?;
    Ok(Some((format!(in alloc; "{ty}({text})")?, true)))
}

/// Adds the call with conversions as help, if these make it one of the closest overload.
fn add_conversion(
    alloc: Global,
    typed: &Typed<'_>,
    wording: &mut Wording,
    call: &Call,
    rule: &Rule,
) -> Result<(), AllocError> {
    if rule.arguments.len() != call.arguments.len() {
        return Ok(());
    }
    let mut texts = Vec::new(alloc);
    let mut count = 0usize;
    for index in 0..call.arguments.len() {
        let Some((text, is_converted)) = converted(alloc, typed, call, rule, index)? else {
            return Ok(());
        };
        if is_converted {
            count = count.saturating_add(1);
        }
        texts.push(text)?;
    }
    let list = listed(alloc, texts.as_slice())?;
    // Three dots stand for what is left out of a text.
    if list.as_str().contains("...") {
        return Ok(());
    }
    let name = math_word(call.function);
    let words = if count == 1 { "argument" } else { "arguments" };
    wording.help(format!(in alloc; "convert the {words}: `{name}({list})`")?)
}

/// Returns what is said of the argument at fault.
fn argument_label(alloc: Global, call: &Call, index: usize) -> Result<String, AllocError> {
    let given = match call.texts.as_slice().get(index) {
        Some(text) => with_article(alloc, text.as_str())?,
        None => "a value".to_string(alloc)?,
    };
    let number = index.saturating_add(1);
    let mut before = Vec::new(alloc);
    for text in call.texts.as_slice().iter().take(index) {
        before.push(text.to_string(alloc)?)?;
    }
    if before.is_empty() {
        return format!(in alloc; "no overload takes {given} as argument {number}");
    }
    let list = listed(alloc, before.as_slice())?;
    format!(in alloc; "no overload takes {given} as argument {number} after ({list})")
}

/// Adds which call is refused as facts.
fn add_facts(
    alloc: Global,
    wording: &mut Wording,
    name: &str,
    call: &Call,
    index: usize,
) -> Result<(), AllocError> {
    wording.word(alloc, "function", name)?;
    let mut arguments = Vec::new(alloc);
    for text in &call.texts {
        arguments.push(Text::from(text.to_string(alloc)?))?;
    }
    let key = Text::from("arguments".to_string(alloc)?);
    wording.data.add(key, FactValue::Words(arguments))?;
    wording.number(alloc, "argument", index)
}

/// Returns what is said of a call of which an argument is at fault.
fn fault_wording(
    alloc: Global,
    typed: &Typed<'_>,
    call: &Call,
    fault: &AtFault,
) -> Result<Wording, AllocError> {
    let name = math_word(call.function);
    let list = listed(alloc, call.texts.as_slice())?;
    let message = format!(in alloc; "no overload of `{name}` takes ({list})")?;
    let label = argument_label(alloc, call, fault.index)?;
    let operand = match call.arguments.as_slice().get(fault.index) {
        Some(argument) => Some(*argument),
        None => None,
    };
    let mut wording = Wording::of(alloc, message).labelled(operand, label);
    add_facts(alloc, &mut wording, name, call, fault.index)?;
    add_closest(alloc, typed.module, &mut wording, name, fault)?;
    if let Some(rule) = fault.closest.as_slice().first() {
        add_conversion(alloc, typed, &mut wording, call, rule)?;
    }
    Ok(wording)
}

/// Returns what is said of a call that no overload accepts, if the types of its arguments are known.
pub fn overload_wording(alloc: Global, typed: &Typed<'_>) -> Result<Option<Wording>, AllocError> {
    let Some(call) = call_of(alloc, typed)? else {
        return Ok(None);
    };
    let found = fault_of(alloc, typed.module, call.function, call.types.as_slice())?;
    match found {
        Some(fault) => Ok(Some(fault_wording(alloc, typed, &call, &fault)?)),
        None => Ok(None),
    }
}
