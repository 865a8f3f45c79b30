//! The arguments of calls, in WGSL's order.

use crate::operands::Parent;
use shader_ir::{AtomicFunction, Expression, SampleLevel, Statement, SwizzleComponent};
use std::alloc::{AllocError, Global};

/// The most arguments of a call that are shown.
pub const MOST_ARGUMENTS: usize = 8;

/// An argument of a call.
#[derive(Clone, Copy)]
pub enum Argument {
    /// The operand at a position.
    Operand(usize),
    /// A text that stands for no operand.
    Fixed(&'static str),
}

/// Returns the number of a component, by which `textureGather` chooses it.
fn component_number(component: SwizzleComponent) -> &'static str {
    match component {
        SwizzleComponent::X => "0",
        SwizzleComponent::Y => "1",
        SwizzleComponent::Z => "2",
        SwizzleComponent::W => "3",
    }
}

/// The parts of a sample on which the order of its arguments depends.
#[derive(Clone, Copy)]
struct Sample {
    /// The component that is gathered, of a texture that isn't compared with a depth.
    gathered: Option<SwizzleComponent>,
    /// How many operands stand behind the coordinates: an array index and a depth.
    behind: usize,
    has_offset: bool,
    /// How many operands the level has.
    level: usize,
    /// Whether the level is the base level, and is written.
    has_zero: bool,
}

/// Returns the arguments of a sample. Of its operands the offset stands before the level, in WGSL behind it.
fn sample_arguments(alloc: Global, sample: Sample) -> Result<Vec<Argument>, AllocError> {
    let mut arguments = Vec::new(alloc);
    if let Some(component) = sample.gathered {
        arguments.push(Argument::Fixed(component_number(component)))?;
    }
    let first = sample.behind.min(2) + 3;
    for position in 0..first {
        arguments.push(Argument::Operand(position))?;
    }
    let level = if sample.has_offset { first + 1 } else { first };
    for position in level..level + sample.level.min(2) {
        arguments.push(Argument::Operand(position))?;
    }
    if sample.has_zero {
        arguments.push(Argument::Fixed("0.0"))?;
    }
    if sample.has_offset {
        arguments.push(Argument::Operand(first))?;
    }
    Ok(arguments)
}

/// Returns how many operands a level has.
fn level_operands(level: SampleLevel) -> usize {
    match level {
        SampleLevel::Auto | SampleLevel::Zero => 0,
        SampleLevel::Exact(_) | SampleLevel::Bias(_) => 1,
        SampleLevel::Gradient { .. } => 2,
    }
}

/// Returns the arguments of a call whose operands are in WGSL's order.
fn plain_arguments(alloc: Global, parent: &Parent) -> Result<Vec<Argument>, AllocError> {
    let mut arguments = Vec::new(alloc);
    for position in 0..MOST_ARGUMENTS {
        if parent.operand(position).is_none() {
            return Ok(arguments);
        }
        arguments.push(Argument::Operand(position))?;
    }
    if parent.operand(MOST_ARGUMENTS).is_some() {
        arguments.push(Argument::Fixed("..."))?;
    }
    Ok(arguments)
}

/// Returns the operands at three positions.
fn three_arguments(
    alloc: Global,
    first: usize,
    second: usize,
    third: usize,
) -> Result<Vec<Argument>, AllocError> {
    let mut arguments = Vec::new(alloc);
    arguments.push(Argument::Operand(first))?;
    arguments.push(Argument::Operand(second))?;
    arguments.push(Argument::Operand(third))?;
    Ok(arguments)
}

/// Returns the arguments of the call that an expression is, or of a statement that makes one.
pub fn arguments_of(alloc: Global, parent: &Parent) -> Result<Vec<Argument>, AllocError> {
    match parent {
        Parent::Expression(Expression::Select { .. }) => three_arguments(alloc, 2, 1, 0),
        Parent::Expression(
            Expression::ImageSample {
                gather,
                clamp_to_edge,
                array_index,
                offset,
                level,
                depth_ref,
                ..
            },
        ) => {
            let is_compared = depth_ref.is_some();
            let is_zero = matches!(level, SampleLevel::Zero);
            let sample = Sample {
                gathered: if is_compared { None } else { *gather },
                behind: array_index.is_some() as usize + is_compared as usize,
                has_offset: offset.is_some(),
                level: level_operands(*level),
                has_zero: is_zero && !is_compared && !*clamp_to_edge && gather.is_none(),
            };
            sample_arguments(alloc, sample)
        }
        Parent::Statement(
            Statement::Atomic {
                fun: AtomicFunction::Exchange { compare: Some(_) },
                ..
            },
        ) => three_arguments(alloc, 0, 2, 1),
        _ => plain_arguments(alloc, parent),
    }
}
