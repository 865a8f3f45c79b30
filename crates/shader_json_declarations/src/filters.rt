//! Reads diagnostic filters.
ghost use Rattle.shader_json_declarations.specs.Filters.{IsFilter, IsFilterNode, IsRule, IsSeverity, IsStandardRule, IsUserRule};
ghost use Rattle.shader_json_declarations.specs.Names.{severity_name};

use crate::fields::{Fields, Variant};
use crate::names::{Spelled, named};
use crate::values::Read;
use json::Value;
use shader_ir::{DiagnosticFilterNode, DiagnosticRule, Name, Severity};
use shader_json_reader::{Context, Failure, within};

impl Spelled for Severity {
    ghost spelling = { λ item. severity_name item };
}

impl Read for Severity {
    ghost reads = { λ j severity. IsSeverity j severity };

    fn read(context: Context, value: &Value<'_>) -> Result<Severity, Failure> {
        let table = [
            ("Off", Severity::Off),
            ("Info", Severity::Info),
            ("Warning", Severity::Warning),
            ("Error", Severity::Error),
        ];
        let wanted = "`Off`, `Info`, `Warning` or `Error`";
        named(context, value, &table, wanted)
    }
}

/// A rule that the language defines.
struct StandardRule(DiagnosticRule);

impl Read for StandardRule {
    ghost reads = { λ j rule. IsStandardRule j rule.0 };

    fn read(context: Context, value: &Value<'_>) -> Result<StandardRule, Failure> {
        match value.as_str() {
            Some("DerivativeUniformity") => {
                Ok(StandardRule(DiagnosticRule::DerivativeUniformity))
            }
            _ => Err(context.refused("`DerivativeUniformity`")),
        }
    }
}

/// A rule that the language doesn't define, given by two names.
struct UserRule;

impl Read for UserRule {
    ghost reads = { λ j _. IsUserRule j };

    fn read(context: Context, value: &Value<'_>) -> Result<UserRule, Failure> {
        let wanted = "an array of 2 strings";
        let Value::Array(items) = value else {
            return Err(context.refused(wanted));
        };
        match items.as_slice() {
            [first, second] => {
                let _first = within(0, Name::read(context, first))?;
                let _second = within(1, Name::read(context, second))?;
                Ok(UserRule)
            }
            _ => Err(context.refused(wanted)),
        }
    }
}

impl Read for DiagnosticRule {
    ghost reads = { λ j rule. IsRule j rule };

    fn read(context: Context, value: &Value<'_>) -> Result<DiagnosticRule, Failure> {
        let Variant { name, payload } = Variant::of(context, value)?;
        match (name, payload) {
            ("Standard", Some(payload)) => {
                let StandardRule(rule) = payload.read(context)?;
                Ok(rule)
            }
            ("Unknown", Some(payload)) => {
                let _name: Name = payload.read(context)?;
                Ok(DiagnosticRule::Other)
            }
            ("User", Some(payload)) => {
                let UserRule = payload.read(context)?;
                Ok(DiagnosticRule::Other)
            }
            _ => Err(context.refused("`Standard`, `Unknown` or `User`")),
        }
    }
}

/// A diagnostic filter without its parent.
struct Filter {
    severity: Severity,
    rule: DiagnosticRule,
}

impl Read for Filter {
    ghost reads = { λ j filter. IsFilter j filter.severity filter.rule };

    fn read(context: Context, value: &Value<'_>) -> Result<Filter, Failure> {
        let fields = Fields::of(context, value)?;
        let (severity, rule) = fields.pair(context, "new_severity", "triggering_rule")?;
        Ok(Filter { severity, rule })
    }
}

impl Read for DiagnosticFilterNode {
    ghost reads = { λ j node. IsFilterNode j node };

    fn read(context: Context, value: &Value<'_>) -> Result<DiagnosticFilterNode, Failure> {
        let fields = Fields::of(context, value)?;
        let Filter { severity, rule } = fields.needed(context, "inner")?;
        Ok(DiagnosticFilterNode {
            severity,
            rule,
            parent: fields.optional(context, "parent")?,
        })
    }
}
