//! The ranks of rules at the arguments that are supplied.

ghost use Rattle.std.specs.Prelude.{◌≡◌, Some, slice_get};
ghost use Rattle.shader_ir.specs.Queries.{scalar_of};
ghost use Rattle.shader_ir.specs.declared.proc.type_resolution.TypeResolution.TheVariants.{Value};
ghost use Rattle.shader_ir.specs.declared.types.TypeInner.{TypeInner};
ghost use Rattle.shader_overloads.specs.Rank.{leaf_rank};

use shader_ir::TypeInner;
use shader_ir::proc::TypeResolution;
use shader_overloads::{Rule, SetCall};
use shader_overloads_laws::conversion_rank;
use std::alloc::{AllocError, Global};

/// Returns the rank of a rule where this type is supplied as argument `i`: that of the conversion between the scalars of both.
fn rank_at(rule: &Rule, i: usize, ty: &TypeInner) -> Option<u32>
    ensures { (argument : TypeInner) → slice_get rule.now.arguments i ≡ Some (Value argument) →
        result ≡ leaf_rank (scalar_of ty.now) (scalar_of argument) }
{
    match rule.arguments.as_slice().get(i)? {
        TypeResolution::Value(argument) => conversion_rank(ty.scalar()?, argument.scalar()?),
        TypeResolution::Handle(_) => None,
    }
}

/// Adds the rank of a rule at each supplied argument, after commas.
fn add_ranks(rule: &Rule, calls: &[SetCall], text: &mut String) -> Result<(), AllocError> {
    let mut separator = "";
    for call in calls {
        if let SetCall::Arg(i, ty) = call {
            match rank_at(rule, *i, ty) {
                Some(rank) => write!(text, "{separator}{rank}")?,
                None => write!(text, "{separator}none")?,
            }
            separator = ",";
        }
    }
    Ok(())
}

/// Returns for each rule its ranks at the supplied arguments.
pub fn describe_ranks(
    alloc: Global,
    rules: &[Rule],
    calls: &[SetCall],
) -> Result<String, AllocError> {
    let mut text = String::new(alloc);
    let mut separator = "";
    for rule in rules {
        write!(text, "{separator}")?;
        add_ranks(rule, calls, &mut text)?;
        separator = "; ";
    }
    Ok(text)
}
