//! The nesting depth of a module's blocks, for a check before any recursion.
ghost use Rattle.std.specs.Prelude.{◌≡◌, ◌↔◌, IsTrue, nat_le};
ghost use Rattle.std.specs.List.{list_all};
ghost use Rattle.shader_ir.specs.BodyOf.{step_of};
ghost use Rattle.shader_resolve.specs.ModuleTests.{every};
ghost use Rattle.shader_resolve.specs.Nesting.{NestsWithin, depth, step_depth};

use shader_ir::{Block, EntryPoint, Module, Statement};

/// A nesting depth that `check_module`, the analysis and the drop of a module can handle with room to spare.
///
/// They use at most about 340 bytes of stack per level: at this depth a sixth of a stack of 8 MB, and less than one of 2 MB.
pub const MOST_LEVELS: usize = 4_000;

/// Returns whether the blocks of each body nest at most `levels` deep, where the body itself is the first level.
///
/// `check_module`, the analysis and the drop of a module recurse over its blocks. So does this function, but never deeper than `levels`,
/// whatever the module is. For a module from an untrusted source, call it first, with `MOST_LEVELS`.
pub fn nests_within(module: &Module, levels: usize) -> bool
    ensures { IsTrue result ↔ NestsWithin levels «module».now }
{
    functions_nest_within(module, levels)
        && entry_points_nest_within(module.entry_points.as_slice(), levels)
}

fn functions_nest_within(module: &Module, levels: usize) -> bool
    ensures { result ≡ every (λ position function. nat_le (depth function.body) levels) «module».now.functions }
{
    for (_, function) in module.functions.iter() {
        if !block_nests_within(&function.body, levels) {
            return false;
        }
    }
    true
}

fn entry_points_nest_within(entry_points: &[EntryPoint], levels: usize) -> bool
    ensures { result ≡ list_all (λ entry. nat_le (depth entry.function.body) levels) entry_points.now }
{
    for entry in entry_points {
        if !block_nests_within(&entry.function.body, levels) {
            return false;
        }
    }
    true
}

#[cycle(nesting)]
fn block_nests_within(block: &Block, levels: usize) -> bool
    ensures { result ≡ nat_le (depth block.now) levels }
{
    let Some(inner_levels) = levels.checked_sub(1) else {
        return false;
    };
    for statement in &block.statements {
        if !statement_nests_within(statement, inner_levels) {
            return false;
        }
    }
    true
}

#[cycle(nesting)]
fn statement_nests_within(statement: &Statement, levels: usize) -> bool
    ensures { result ≡ nat_le (step_depth (step_of statement.now)) levels }
{
    match statement {
        Statement::Block(block) => block_nests_within(block, levels),
        Statement::If { accept, reject, .. } => {
            block_nests_within(accept, levels) && block_nests_within(reject, levels)
        }
        Statement::Switch { cases, .. } => {
            for case in cases {
                if !block_nests_within(&case.body, levels) {
                    return false;
                }
            }
            true
        }
        Statement::Loop {
            body,
            continuing,
            ..
        } => block_nests_within(body, levels) && block_nests_within(continuing, levels),
        _ => true,
    }
}
