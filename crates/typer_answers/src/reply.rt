//! Replies to single lines.

use crate::call::{conclusion, remaining_rules};
use crate::conversion::conversion;
use crate::layout::layout;
use crate::request::{Request, parse_request};
use crate::samples::sample_report;
use sample_reports::ModuleReport;
use shader_ir::proc::{Alignment, TypeLayout};
use shader_ir::{Items, Scalar};
use shader_overloads::{Conclusion, Rule};
use shader_type_text::{ConclusionText, RulesText, ScalarText};
use std::alloc::{AllocError, Global};
use std::fmt;

/// The reply to a request.
#[derive(Drop)]
pub enum Reply {
    /// The type of a call.
    Conclusion(Conclusion),
    /// The remaining rules, at least one.
    Rules(Items<Rule>),
    /// The size and the alignment of a type and the stride of an array of it, in bytes.
    Layout {
        size: u32,
        alignment: Alignment,
        stride: u32,
    },
    /// The leaf scalars of a conversion, from and to.
    Conversion(Scalar, Scalar),
    /// The analysis results for a module, or the location of its violation.
    Module(ModuleReport),
    /// No rule accepts the arguments, or there is no conversion or no layout.
    Refused,
}

impl fmt::Display for Reply {
    ghost use Rattle.std.specs.Prelude.{Some};
    ghost use Rattle.typer_answers.specs.Answers.{reply_text};

    ghost output = { λ r. Some (reply_text r) };

    fn fmt<W: fmt::Write>(&self, f: &mut fmt::Formatter<W>) -> fmt::Result {
        match self {
            Reply::Conclusion(conclusion) => write!(f, "{}", ConclusionText(conclusion)),
            Reply::Rules(rules) => write!(f, "{}", RulesText(rules.as_slice())),
            Reply::Layout {
                size,
                alignment,
                stride,
            } => write!(f, "size {size} align {alignment} stride {stride}"),
            Reply::Conversion(from, to) => {
                write!(f, "{} to {}", ScalarText(*from), ScalarText(*to))
            }
            Reply::Module(report) => write!(f, "{report}"),
            Reply::Refused => f.write_str("refused"),
        }
    }
}

impl Reply {
    ghost use Rattle.std.specs.Prelude.{◌≡◌, IfOk, IfSome};
    ghost use Rattle.shader_ir.specs.Layout.{HasStride};
    ghost use Rattle.typer_answers.specs.Answers.{IsReply, IsReplyTo, conclusion_reply, converted, laid_out, rules_reply};

    fn from_conversion(scalars: Option<(Scalar, Scalar)>) -> Reply
        ensures { result ≡ converted scalars }
    {
        match scalars {
            Some((from, to)) => Reply::Conversion(from, to),
            None => Reply::Refused,
        }
    }

    fn from_layout(layout: Option<TypeLayout>) -> Reply
        requires { IfSome layout HasStride }
        ensures { result ≡ laid_out layout }
    {
        match layout {
            Some(layout) => Reply::Layout {
                size: layout.size,
                alignment: layout.alignment,
                stride: layout.to_stride(),
            },
            None => Reply::Refused,
        }
    }

    fn from_conclusion(found: Option<Conclusion>) -> Reply
        ensures { result ≡ conclusion_reply found }
    {
        match found {
            Some(found) => Reply::Conclusion(found),
            None => Reply::Refused,
        }
    }

    fn from_rules(rules: Items<Rule>) -> Reply
        ensures { result ≡ rules_reply rules }
    {
        if rules.len() == 0 {
            return Reply::Refused;
        }
        Reply::Rules(rules)
    }

    /// Returns the reply to a request.
    fn to_request(alloc: Global, request: Request) -> Result<Reply, AllocError>
        ensures { IfOk result (IsReply request) }
    {
        match request {
            Request::Call(function, arguments) => {
                let found = conclusion(alloc, function, arguments.as_slice())?;
                Ok(Reply::from_conclusion(found))
            }
            Request::Rules(function, arguments) => {
                let rules = remaining_rules(alloc, function, arguments.as_slice())?;
                Ok(Reply::from_rules(rules))
            }
            Request::Layout(spelled) => Ok(Reply::from_layout(layout(alloc, spelled)?)),
            Request::Convert(from, to) => {
                let scalars = conversion(alloc, from, to)?;
                Ok(Reply::from_conversion(scalars))
            }
            Request::Module(sample) => Ok(Reply::Module(sample_report(alloc, sample)?)),
        }
    }

    /// Returns the reply to a line, if it is a request.
    pub fn to(alloc: Global, line: &[u8]) -> Result<Option<Reply>, AllocError>
        ensures { IfOk result (IsReplyTo line.now) }
    {
        let Some(request) = parse_request(alloc, line)? else {
            return Ok(None);
        };
        Ok(Some(Reply::to_request(alloc, request)?))
    }
}
