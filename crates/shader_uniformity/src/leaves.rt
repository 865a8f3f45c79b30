//! The implications of jumps that exit blocks.
ghost use Rattle.std.specs.Prelude.{◌≡◌, ◌++◌, OnOk};
ghost use Rattle.shader_ir.specs.BodyOf.{cases_of, step_of};
ghost use Rattle.shader_uniformity.specs.Leaves.{all_pass_rules, block_escapes, case_rules, cases_escape, part_rules, pass_rules};
ghost use Rattle.shader_uniformity.specs.Leaves.{step_escapes};

use crate::facts::{Fact, Jump, Rule};
use crate::rules::add_rule;
use shader_ir::{Block, Statement, SwitchCase};
use std::alloc::AllocError;

/// Adds that a jump that exits `inner` also exits `outer`, and that control flow diverges after it, at `behind`.
pub fn add_pass(
    rules: &mut Vec<Rule>,
    inner: u32,
    outer: u32,
    behind: u32,
    jump: Jump,
) -> Result<(), AllocError>
    ensures { OnOk result (rules.new.items ≡ rules.old.items ++ pass_rules inner outer behind jump) }
{
    add_rule(rules, Fact::Leaves(jump, inner), Fact::Leaves(jump, outer))?;
    add_rule(rules, Fact::Leaves(jump, inner), Fact::Apart(behind))
}

/// Adds the same for each kind of jump.
pub fn add_all_passes(
    rules: &mut Vec<Rule>,
    inner: u32,
    outer: u32,
    behind: u32,
) -> Result<(), AllocError>
    ensures { OnOk result (rules.new.items ≡ rules.old.items ++ all_pass_rules inner outer behind) }
{
    add_pass(rules, inner, outer, behind, Jump::Break)?;
    add_pass(rules, inner, outer, behind, Jump::Continue)?;
    add_pass(rules, inner, outer, behind, Jump::Return)
}

/// Adds that control flow diverges at `behind` if only some invocations exit `inner`, by any jump.
pub fn add_parts(rules: &mut Vec<Rule>, inner: u32, behind: u32) -> Result<(), AllocError>
    ensures { OnOk result (rules.new.items ≡ rules.old.items ++ part_rules inner behind) }
{
    add_rule(rules, Fact::Leaves(Jump::Break, inner), Fact::Apart(behind))?;
    add_rule(
        rules,
        Fact::Leaves(Jump::Continue, inner),
        Fact::Apart(behind),
    )?;
    add_rule(
        rules,
        Fact::Leaves(Jump::Return, inner),
        Fact::Apart(behind),
    )
}

/// Adds that each jump that exits a case exits the cases together.
pub fn add_case_jumps(rules: &mut Vec<Rule>, inner: u32, cases: u32) -> Result<(), AllocError>
    ensures { OnOk result (rules.new.items ≡ rules.old.items ++ case_rules inner cases) }
{
    add_rule(
        rules,
        Fact::Leaves(Jump::Break, inner),
        Fact::Leaves(Jump::Break, cases),
    )?;
    add_rule(
        rules,
        Fact::Leaves(Jump::Continue, inner),
        Fact::Leaves(Jump::Continue, cases),
    )?;
    add_rule(
        rules,
        Fact::Leaves(Jump::Return, inner),
        Fact::Leaves(Jump::Return, cases),
    )
}

/// Checks whether a `Return` exits a block, or a `Continue` if `continues` is true.
#[cycle(escapes)]
pub fn block_escapes(continues: bool, block: &Block) -> bool
    ensures { result ≡ block_escapes continues block.now }
{
    for statement in &block.statements {
        if statement_escapes(continues, statement) {
            return true;
        }
    }
    false
}

#[cycle(escapes)]
fn statement_escapes(continues: bool, statement: &Statement) -> bool
    ensures { result ≡ step_escapes continues (step_of statement.now) }
{
    match statement {
        Statement::Continue => continues,
        Statement::Return { .. } => true,
        Statement::Block(block) => block_escapes(continues, block),
        Statement::If { accept, reject, .. } => {
            block_escapes(continues, accept) || block_escapes(continues, reject)
        }
        Statement::Switch { cases, .. } => cases_escape(continues, cases),
        Statement::Loop {
            body,
            continuing,
            ..
        } => block_escapes(false, body) || block_escapes(false, continuing),
        _ => false,
    }
}

/// Checks whether such a jump exits a case.
#[cycle(escapes)]
pub fn cases_escape(continues: bool, cases: &[SwitchCase]) -> bool
    ensures { result ≡ cases_escape continues (cases_of cases.now) }
{
    for case in cases {
        if block_escapes(continues, &case.body) {
            return true;
        }
    }
    false
}
