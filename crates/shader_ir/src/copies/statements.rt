//! Copies of statements, blocks and cases.
ghost use Rattle.std.specs.Prelude.{◌≡◌, IfOk, IsOk};
ghost use Rattle.shader_ir.specs.BodyOf.{step_of};
ghost use Rattle.shader_ir.specs.ExpressionKinds.{AccessesMemory, HoldsNoBlock, HoldsNoBlockOrList, SharesInSubgroup, SteersFlow};
ghost use Rattle.shader_ir.specs.Operands.{WritesTexel};

use crate::{Block, Statement, SwitchCase};
use std::alloc::{AllocError, Global};

impl Block {
    /// Returns an equal block.
    ///
    /// # Errors
    ///
    /// `AllocError` if allocation fails.
    #[cycle(copy)]
    pub fn copy(&self, alloc: Global) -> Result<Block, AllocError>
        ensures { IfOk result (λ copy. copy ≡ self.now) }
    {
        let mut statements = Vec::with_capacity(alloc, self.statements.len())?;
        for statement in &self.statements {
            statements.push(statement.copy(alloc)?)?;
        }
        Ok(Block { statements })
    }
}

impl SwitchCase {
    /// Returns an equal case.
    ///
    /// # Errors
    ///
    /// `AllocError` if allocating the body fails.
    #[cycle(copy)]
    pub fn copy(&self, alloc: Global) -> Result<SwitchCase, AllocError>
        ensures { IfOk result (λ copy. copy ≡ self.now) }
    {
        Ok(SwitchCase {
            value: self.value,
            body: self.body.copy(alloc)?,
            fall_through: self.fall_through,
        })
    }
}

impl Statement {
    /// Returns an equal statement: contracts see the same step in the tree of a block.
    ///
    /// # Errors
    ///
    /// `AllocError` if allocating blocks, cases or the arguments of a call fails.
    #[cycle(copy)]
    pub fn copy(&self, alloc: Global) -> Result<Statement, AllocError>
        ensures copy { IfOk result (λ copy. step_of copy ≡ step_of self.now) }
        ensures ok { HoldsNoBlockOrList (step_of self.now) → IsOk result }
    {
        match self {
            Statement::Block(block) => Ok(Statement::Block(block.copy(alloc)?)),
            Statement::If {
                condition,
                accept,
                reject,
            } => Ok(Statement::If {
                condition: *condition,
                accept: accept.copy(alloc)?,
                reject: reject.copy(alloc)?,
            }),
            Statement::Switch { selector, cases } => {
                let mut copies = Vec::with_capacity(alloc, cases.len())?;
                for case in cases {
                    copies.push(case.copy(alloc)?)?;
                }
                Ok(Statement::Switch {
                    selector: *selector,
                    cases: copies,
                })
            }
            Statement::Loop {
                body,
                continuing,
                break_if,
            } => Ok(Statement::Loop {
                body: body.copy(alloc)?,
                continuing: continuing.copy(alloc)?,
                break_if: *break_if,
            }),
            _ => self.copy_of_leaf(alloc),
        }
    }

    /// Copies a statement that contains no block.
    fn copy_of_leaf(&self, alloc: Global) -> Result<Statement, AllocError>
        requires { HoldsNoBlock (step_of self.now) }
        ensures copy { IfOk result (λ copy. step_of copy ≡ step_of self.now) }
        ensures ok { HoldsNoBlockOrList (step_of self.now) → IsOk result }
    {
        match self {
            Statement::Call {
                function,
                arguments,
                result,
            } => Ok(Statement::Call {
                function: *function,
                arguments: arguments.copy(alloc)?,
                result: *result,
            }),
            Statement::Emit(_)
            | Statement::Break
            | Statement::Continue
            | Statement::Return { .. }
            | Statement::Kill
            | Statement::ControlBarrier(_)
            | Statement::MemoryBarrier(_) => Ok(self.copy_of_flow()),
            Statement::Store { .. }
            | Statement::Atomic { .. }
            | Statement::WorkGroupUniformLoad { .. }
            | Statement::CooperativeStore { .. }
            | Statement::RayQuery { .. }
            | Statement::RayPipelineFunction(_) => Ok(self.copy_of_access()),
            Statement::ImageStore { .. } | Statement::ImageAtomic { .. } => Ok(
                self.copy_of_texel(),
            ),
            Statement::SubgroupBallot { .. }
            | Statement::SubgroupGather { .. }
            | Statement::SubgroupCollectiveOperation { .. } => Ok(self.copy_of_subgroup()),
            _ => unreachable!(),
        }
    }

    /// Copies a statement that controls the flow or emits expressions.
    fn copy_of_flow(&self) -> Statement
        requires { SteersFlow (step_of self.now) }
        ensures { step_of result ≡ step_of self.now }
    {
        match self {
            Statement::Emit(range) => Statement::Emit(*range),
            Statement::Break => Statement::Break,
            Statement::Continue => Statement::Continue,
            Statement::Return { value } => Statement::Return { value: *value },
            Statement::Kill => Statement::Kill,
            Statement::ControlBarrier(flags) => Statement::ControlBarrier(*flags),
            Statement::MemoryBarrier(flags) => Statement::MemoryBarrier(*flags),
            _ => unreachable!(),
        }
    }

    /// Copies a statement that accesses memory or works on a ray.
    fn copy_of_access(&self) -> Statement
        requires { AccessesMemory (step_of self.now) }
        ensures { step_of result ≡ step_of self.now }
    {
        match self {
            Statement::Store { pointer, value } => Statement::Store {
                pointer: *pointer,
                value: *value,
            },
            Statement::Atomic {
                pointer,
                fun,
                value,
                result,
            } => Statement::Atomic {
                pointer: *pointer,
                fun: *fun,
                value: *value,
                result: *result,
            },
            Statement::WorkGroupUniformLoad { pointer, result } => Statement::WorkGroupUniformLoad {
                pointer: *pointer,
                result: *result,
            },
            Statement::CooperativeStore { target, tile } => Statement::CooperativeStore {
                target: *target,
                tile: *tile,
            },
            Statement::RayQuery { query, fun } => Statement::RayQuery {
                query: *query,
                fun: *fun,
            },
            Statement::RayPipelineFunction(fun) => Statement::RayPipelineFunction(*fun),
            _ => unreachable!(),
        }
    }

    /// Copies a statement that writes a texel.
    fn copy_of_texel(&self) -> Statement
        requires { WritesTexel (step_of self.now) }
        ensures { step_of result ≡ step_of self.now }
    {
        match self {
            Statement::ImageStore {
                image,
                coordinate,
                array_index,
                value,
            } => Statement::ImageStore {
                image: *image,
                coordinate: *coordinate,
                array_index: *array_index,
                value: *value,
            },
            Statement::ImageAtomic {
                image,
                coordinate,
                array_index,
                fun,
                value,
            } => Statement::ImageAtomic {
                image: *image,
                coordinate: *coordinate,
                array_index: *array_index,
                fun: *fun,
                value: *value,
            },
            _ => unreachable!(),
        }
    }

    /// Copies a statement in which the invocations of a subgroup share values.
    fn copy_of_subgroup(&self) -> Statement
        requires { SharesInSubgroup (step_of self.now) }
        ensures { step_of result ≡ step_of self.now }
    {
        match self {
            Statement::SubgroupBallot { result, predicate } => Statement::SubgroupBallot {
                result: *result,
                predicate: *predicate,
            },
            Statement::SubgroupGather {
                mode,
                argument,
                result,
            } => Statement::SubgroupGather {
                mode: *mode,
                argument: *argument,
                result: *result,
            },
            Statement::SubgroupCollectiveOperation {
                op,
                collective_op,
                argument,
                result,
            } => Statement::SubgroupCollectiveOperation {
                op: *op,
                collective_op: *collective_op,
                argument: *argument,
                result: *result,
            },
            _ => unreachable!(),
        }
    }
}
