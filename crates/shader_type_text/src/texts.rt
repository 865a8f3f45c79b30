//! Types and rules in printed form.

ghost use Rattle.std.specs.Prelude.{Some, codes};
ghost use Rattle.std.specs.List.{join_by};
ghost use Rattle.shader_type_text.specs.Texts.{conclusion_text, inner_text, predeclared_text, resolution_text, rule_text, sized_text};

use crate::scalars::ScalarText;
use shader_ir::proc::{TypeResolution, vector_size_str};
use shader_ir::{PredeclaredType, Scalar, TypeInner, VectorSize};
use shader_overloads::{Conclusion, Rule};
use std::fmt;

/// A scalar, a vector or a matrix in printed form. Other types, which no built-in function has,
/// print nothing.
#[derive(Clone, Copy)]
struct InnerText<'a>(pub &'a TypeInner);

impl fmt::Display for InnerText<'_> {
    ghost output = { λ text. Some (inner_text text.0.now) };

    fn fmt<W: fmt::Write>(&self, f: &mut fmt::Formatter<W>) -> fmt::Result {
        match self.0 {
            TypeInner::Scalar(scalar) => write!(f, "{}", ScalarText(*scalar)),
            TypeInner::Vector { size, scalar } => {
                write!(f, "vec{}<{}>", vector_size_str(*size), ScalarText(*scalar))
            }
            TypeInner::Matrix {
                columns,
                rows,
                scalar,
            } => {
                let columns = vector_size_str(*columns);
                let rows = vector_size_str(*rows);
                write!(f, "mat{columns}x{rows}<{}>", ScalarText(*scalar))
            }
            _ => Ok(()),
        }
    }
}

/// A scalar, or a vector of it if there is a size.
#[derive(Clone, Copy)]
struct SizedText(Option<VectorSize>, Scalar);

impl fmt::Display for SizedText {
    ghost output = { λ text. Some (sized_text text.0 text.1) };

    fn fmt<W: fmt::Write>(&self, f: &mut fmt::Formatter<W>) -> fmt::Result {
        match self.0 {
            Some(size) => write!(f, "vec{}<{}>", vector_size_str(size), ScalarText(self.1)),
            None => write!(f, "{}", ScalarText(self.1)),
        }
    }
}

/// The result type of a built-in function.
#[derive(Clone, Copy)]
pub struct ConclusionText<'a>(pub &'a Conclusion);

impl fmt::Display for ConclusionText<'_> {
    ghost output = { λ text. Some (conclusion_text text.0.now) };

    fn fmt<W: fmt::Write>(&self, f: &mut fmt::Formatter<W>) -> fmt::Result {
        match self.0 {
            Conclusion::Value(inner) => write!(f, "{}", InnerText(inner)),
            Conclusion::Predeclared(predeclared) => {
                write!(f, "{}", PredeclaredText(*predeclared))
            }
        }
    }
}

/// The result type that a module declares for a built-in function.
#[derive(Clone, Copy)]
struct PredeclaredText(PredeclaredType);

impl fmt::Display for PredeclaredText {
    ghost output = { λ text. Some (predeclared_text text.0) };

    fn fmt<W: fmt::Write>(&self, f: &mut fmt::Formatter<W>) -> fmt::Result {
        match self.0 {
            PredeclaredType::FrexpResult { size, scalar } => {
                write!(f, "frexp_result<{}>", SizedText(size, scalar))
            }
            PredeclaredType::ModfResult { size, scalar } => {
                write!(f, "modf_result<{}>", SizedText(size, scalar))
            }
        }
    }
}

/// An argument of a rule. A handle, which no rule of a built-in function has, prints nothing.
#[derive(Clone, Copy)]
struct ArgumentText<'a>(&'a TypeResolution);

impl fmt::Display for ArgumentText<'_> {
    ghost output = { λ text. Some (resolution_text text.0.now) };

    fn fmt<W: fmt::Write>(&self, f: &mut fmt::Formatter<W>) -> fmt::Result {
        match self.0 {
            TypeResolution::Value(inner) => write!(f, "{}", InnerText(inner)),
            TypeResolution::Handle(_) => Ok(()),
        }
    }
}

/// Arguments of rules, separated by commas.
#[derive(Clone, Copy)]
pub struct ArgumentsText<'a>(pub &'a [TypeResolution]);

impl fmt::Display for ArgumentsText<'_> {
    ghost output = { λ text. Some (join_by resolution_text (codes ", ") text.0.now) };

    fn fmt<W: fmt::Write>(&self, f: &mut fmt::Formatter<W>) -> fmt::Result {
        let Some((first, others)) = self.0.split_first() else {
            return Ok(());
        };
        write!(f, "{}", ArgumentText(first))?;
        for other in others {
            write!(f, ", {}", ArgumentText(other))?;
        }
        Ok(())
    }
}

/// A rule: its arguments and its conclusion.
#[derive(Clone, Copy)]
struct RuleText<'a>(&'a Rule);

impl fmt::Display for RuleText<'_> {
    ghost output = { λ text. Some (rule_text text.0.now) };

    fn fmt<W: fmt::Write>(&self, f: &mut fmt::Formatter<W>) -> fmt::Result {
        let arguments = ArgumentsText(self.0.arguments.as_slice());
        write!(f, "({arguments}) -> {}", ConclusionText(&self.0.conclusion))
    }
}

/// Rules, separated by semicolons.
#[derive(Clone, Copy)]
pub struct RulesText<'a>(pub &'a [Rule]);

impl fmt::Display for RulesText<'_> {
    ghost output = { λ text. Some (join_by rule_text (codes "; ") text.0.now) };

    fn fmt<W: fmt::Write>(&self, f: &mut fmt::Formatter<W>) -> fmt::Result {
        let Some((first, others)) = self.0.split_first() else {
            return Ok(());
        };
        write!(f, "{}", RuleText(first))?;
        for other in others {
            write!(f, "; {}", RuleText(other))?;
        }
        Ok(())
    }
}
