//! The fields of statements in the JSON of a module, by the index that they have.

use crate::expression_fields::position_of;
use crate::lists::{ListKind, Named};
use shader_arena::Handle;
use shader_ir::{AtomicFunction, RayPipelineFunction, RayQueryFunction, Statement, mark};
use std::alloc::{AllocError, Global};

/// Returns the name of the first of two fields if it has the index, and else the other name.
fn first_of(
    index: usize,
    one: Handle<mark::Expression>,
    first: &'static str,
    other: &'static str,
) -> &'static str {
    if one.index() == index { first } else { other }
}

/// Returns the field of an atomic operation.
fn atomic_field(index: usize, statement: &Statement) -> &'static str {
    match statement {
        Statement::Atomic {
            pointer,
            fun,
            value,
            ..
        } => {
            let compare = match fun {
                AtomicFunction::Exchange {
                    compare: Some(compare),
                } => compare.index() == index,
                _ => false,
            };
            if pointer.index() == index {
                "Atomic.pointer"
            } else if compare {
                "Atomic.fun.Exchange.compare"
            } else {
                first_of(index, *value, "Atomic.value", "Atomic.result")
            }
        }
        _ => "Atomic",
    }
}

/// Returns the field of a statement that writes a texel.
fn texel_field(index: usize, statement: &Statement) -> &'static str {
    match statement {
        Statement::ImageStore {
            image,
            coordinate,
            value,
            ..
        } => {
            if image.index() == index {
                "ImageStore.image"
            } else if coordinate.index() == index {
                "ImageStore.coordinate"
            } else {
                first_of(index, *value, "ImageStore.value", "ImageStore.array_index")
            }
        }
        Statement::ImageAtomic {
            image,
            coordinate,
            value,
            ..
        } => {
            if image.index() == index {
                "ImageAtomic.image"
            } else if coordinate.index() == index {
                "ImageAtomic.coordinate"
            } else {
                first_of(
                    index,
                    *value,
                    "ImageAtomic.value",
                    "ImageAtomic.array_index",
                )
            }
        }
        _ => "",
    }
}

/// Returns the field of a statement on rays.
fn ray_field(index: usize, statement: &Statement) -> &'static str {
    match statement {
        Statement::RayQuery { query, fun } => {
            if query.index() == index {
                return "RayQuery.query";
            }
            match fun {
                RayQueryFunction::Initialize { descriptor, .. } => first_of(
                    index,
                    *descriptor,
                    "RayQuery.fun.Initialize.descriptor",
                    "RayQuery.fun.Initialize.acceleration_structure",
                ),
                RayQueryFunction::Proceed { .. } => "RayQuery.fun.Proceed.result",
                _ => "RayQuery.fun.GenerateIntersection.hit_t",
            }
        }
        Statement::RayPipelineFunction(
            RayPipelineFunction::TraceRay {
                descriptor,
                payload,
                ..
            },
        ) => {
            if descriptor.index() == index {
                "RayPipelineFunction.TraceRay.descriptor"
            } else {
                first_of(
                    index,
                    *payload,
                    "RayPipelineFunction.TraceRay.payload",
                    "RayPipelineFunction.TraceRay.acceleration_structure",
                )
            }
        }
        _ => "",
    }
}

/// Returns the field of a statement on a cooperative matrix.
fn matrix_field(index: usize, statement: &Statement) -> &'static str {
    match statement {
        Statement::CooperativeStore { target, tile } => {
            if target.index() == index {
                "CooperativeStore.target"
            } else {
                first_of(
                    index,
                    tile.pointer,
                    "CooperativeStore.data.pointer",
                    "CooperativeStore.data.stride",
                )
            }
        }
        _ => "",
    }
}

/// Returns the field of a statement on a subgroup or on a cooperative matrix.
fn group_field(index: usize, statement: &Statement) -> &'static str {
    match statement {
        Statement::SubgroupBallot { result, .. } => {
            first_of(
                index,
                *result,
                "SubgroupBallot.result",
                "SubgroupBallot.predicate",
            )
        }
        Statement::SubgroupGather {
            argument,
            result,
            ..
        } => {
            if result.index() == index {
                "SubgroupGather.result"
            } else {
                first_of(
                    index,
                    *argument,
                    "SubgroupGather.argument",
                    "SubgroupGather.mode",
                )
            }
        }
        Statement::SubgroupCollectiveOperation { argument, .. } => first_of(
            index,
            *argument,
            "SubgroupCollectiveOperation.argument",
            "SubgroupCollectiveOperation.result",
        ),
        _ => matrix_field(index, statement),
    }
}

/// Returns the field of a statement that isn't a call and that has the index of an expression.
fn operand_field(index: usize, statement: &Statement) -> &'static str {
    match statement {
        Statement::If { .. } => "If.condition",
        Statement::Switch { .. } => "Switch.selector",
        Statement::Loop { .. } => "Loop.break_if",
        Statement::Return { .. } => "Return.value",
        Statement::Store { pointer, .. } => {
            first_of(index, *pointer, "Store.pointer", "Store.value")
        }
        Statement::WorkGroupUniformLoad { pointer, .. } => first_of(
            index,
            *pointer,
            "WorkGroupUniformLoad.pointer",
            "WorkGroupUniformLoad.result",
        ),
        Statement::Atomic { .. } => atomic_field(index, statement),
        Statement::ImageStore { .. } | Statement::ImageAtomic { .. } => {
            texel_field(index, statement)
        }
        Statement::RayQuery { .. } | Statement::RayPipelineFunction(_) => {
            ray_field(index, statement)
        }
        _ => group_field(index, statement),
    }
}

/// Returns the way from a call to the field that names an item.
fn call_field(
    alloc: Global,
    arguments: &[Handle<mark::Expression>],
    named: Named,
) -> Result<String, AllocError> {
    if matches!(named.list, ListKind::Functions) {
        return ".Call.function".to_string(alloc);
    }
    let position = position_of(named.index, arguments);
    match arguments.get(position) {
        Some(argument) if argument.index() == named.index => {
            format!(in alloc; ".Call.arguments[{position}]")
        }
        _ => ".Call.result".to_string(alloc),
    }
}

/// Returns the way from a statement to the field that names an item, as `.Call.function`.
pub fn statement_field(
    alloc: Global,
    statement: &Statement,
    named: Named,
) -> Result<String, AllocError> {
    match statement {
        Statement::Call { arguments, .. } => call_field(alloc, arguments.as_slice(), named),
        Statement::Emit(_) => ".Emit.end".to_string(alloc),
        _ => {
            let field = operand_field(named.index, statement);
            format!(in alloc; ".{field}")
        }
    }
}
