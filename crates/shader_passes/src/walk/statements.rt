//! The walk over the statements of a function. Each adds to the reference counts, to the uses of globals, to the function's result and to
//! what the function needs of the flow, and it may disrupt the flow for those after it.
ghost use Rattle.std.specs.Prelude.{◌≡◌, ◌∷◌, ◌||◌, bit_or, false, fold, length, true, None};
ghost use Rattle.std.specs.List.{list_any};
ghost use Rattle.std.specs.Option.{option_or};
ghost use Rattle.shader_arena.specs.Positions.{positions_between};
ghost use Rattle.shader_ir.specs.BodyOf.{cases_of, step_of};
ghost use Rattle.shader_ir.specs.Occurs.{case_statements, statements, statements_within};
ghost use Rattle.shader_ir.specs.Operands.{statement_operands};
ghost use Rattle.shader_passes.specs.Calling.{is_call};
ghost use Rattle.shader_passes.specs.CalleeUses.{recorded_uses, result_origin_after, with_needs_in, with_needs_of};
ghost use Rattle.shader_passes.specs.Counting.{state_after, state_of, with_state};
ghost use Rattle.shader_passes.specs.Ends.{block_ends, block_fault, cases_end, cases_fault, first_requiring, flow_violation, is_killing};
ghost use Rattle.shader_passes.specs.Ends.{own_ends, own_fault, step_ends, step_fault};
ghost use Rattle.shader_passes.specs.Facts.{origin_at, result_needs, result_origin_at};
ghost use Rattle.shader_passes.specs.NewWalk.{IsNew};
ghost use Rattle.shader_passes.specs.Walking.{facts_by, joined, step_state, whole_state};

use crate::callees::{emitted_needs, join_uses, recorded_uses};
use crate::counting::Counting;
use crate::facts::{Facts, function_requirements, operands_origin, result_origin};
use crate::flow::{
    Exits, FlowViolation, STAYS, disruptor_after, either, may_kill, on_branch, violation_in,
};
use crate::walk::Found;
use bitflags::Flags;
use shader_arena::{Handle, Range};
use shader_info::{
    FunctionInfo, NonUniformResult, Uniformity, UniformityDisruptor, UniformityRequirements,
};
use shader_ir::proc::visit_statement;
use shader_ir::{Block, Function, Statement, SwitchCase, mark};

/// What the walk has found so far.
#[derive(Drop)]
pub struct Walk {
    /// The first non-uniform control flow violation.
    pub(crate) first: Option<FlowViolation>,
    /// The first origin of the function's result.
    pub(crate) origin: NonUniformResult,
    /// What the statements need of the flow.
    pub(crate) requirements: UniformityRequirements,
    /// Whether a statement calls a function.
    pub(crate) calls: bool,
}

impl Walk {
    /// Returns what was found of a function whose body may end an invocation while others go on, or may not.
    #[inline(always)]
    fn found(&self, counting: &Counting<'_>, may_kill: bool) -> Found
        ensures { result ≡ record {
          full = counting.now.full;
          first = self.now.first;
          may_kill = may_kill;
          calls = self.now.calls;
          uniformity = record { non_uniform_result = self.now.origin; requirements = self.now.requirements };
        } }
    {
        Found {
            full: counting.full,
            first: self.first,
            may_kill,
            calls: self.calls,
            uniformity: Uniformity {
                non_uniform_result: self.origin,
                requirements: self.requirements,
            },
        }
    }

    /// Adds what the expressions of a range need of the flow, and records the first violation by one of them.
    fn emit(
        &mut self,
        counting: &Counting<'_>,
        disruptor: &Option<UniformityDisruptor>,
        range: &Range<mark::Expression>,
    )
        requires { length counting.now.records.now ≡ length counting.now.roots.now }
        ensures first { self.new.first ≡ option_or self.old.first (flow_violation (facts_by counting.now) disruptor.now
            (first_requiring (facts_by counting.now) (positions_between range.now.0 range.now.1))) }
        ensures needs { self.new.requirements.0 ≡ bit_or self.old.requirements.0
            (with_needs_in (facts_by counting.now) 0 (positions_between range.now.0 range.now.1)) }
        ensures rest { self.new ≡ record self.old { first = self.new.first; requirements = self.new.requirements } }
    {
        let facts = counting.facts();
        let requirements = emitted_needs(&facts, range);
        let found = violation_in(&facts, disruptor, range);
        self.requirements = self.requirements | requirements;
        self.record_first(found);
    }

    /// Records a violation, unless there is an earlier one.
    #[inline(always)]
    fn record_first(&mut self, found: Option<FlowViolation>)
        ensures first { self.new.first ≡ option_or self.old.first found }
        ensures rest { self.new ≡ record self.old { first = self.new.first } }
    {
        match self.first {
            Some(_) => {}
            None => self.first = found,
        }
    }

    /// Adds what the info of a callee records, and returns how the call may leave the block.
    fn call(
        &mut self,
        infos: &[FunctionInfo],
        counting: &mut Counting<'_>,
        function: Handle<mark::Function>,
    ) -> Exits
        ensures exits { result ≡ record { returns = false; kills = is_killing infos.now function } }
        ensures origin { self.new.origin ≡ option_or self.old.origin (result_origin_at infos.now function) }
        ensures needs { self.new.requirements.0 ≡ bit_or self.old.requirements.0 (result_needs infos.now function) }
        ensures calls { self.new.calls ≡ true }
        ensures counting { counting.new ≡ record counting.old {
          uses = record counting.old.uses {
            now = joined counting.old.uses.now (recorded_uses infos.now function);
          };
        } }
        ensures first { self.new.first ≡ self.old.first }
    {
        join_uses(counting.uses, recorded_uses(infos, function));
        self.origin = self.origin.or(result_origin(infos, function));
        self.requirements = self.requirements | function_requirements(infos, function);
        self.calls = true;
        Exits {
            returns: false,
            kills: may_kill(infos, function),
        }
    }

    /// Handles a statement without blocks inside.
    #[inline(never)]
    #[tactic(auto, using(crate::proofs::WalkLemmas::walks))]
    fn walk_leaf(
        &mut self,
        infos: &[FunctionInfo],
        counting: &mut Counting<'_>,
        disruptor: &Option<UniformityDisruptor>,
        statement: &Statement,
    ) -> Exits
        requires { length counting.old.records.now ≡ length counting.old.roots.now }
        ensures exits { result ≡ own_ends (is_killing infos.now) disruptor.now (step_of statement.now) }
        ensures first { self.new.first ≡ option_or self.old.first
            (own_fault (facts_by counting.old) disruptor.now (step_of statement.now)) }
        ensures origin { self.new.origin
            ≡ result_origin_after infos.now (facts_by counting.old) self.old.origin (step_of statement.now) }
        ensures needs { self.new.requirements.0
            ≡ with_needs_of infos.now (facts_by counting.old) self.old.requirements.0 (step_of statement.now) }
        ensures calls { self.new.calls ≡ (self.old.calls || is_call (step_of statement.now)) }
        ensures counted { counting.new ≡ with_state counting.old
            (step_state infos.now counting.old.roots.now (state_of counting.old) (step_of statement.now)) }
        ensures facts { facts_by counting.new ≡ facts_by counting.old }
        ensures long { length counting.new.records.now ≡ length counting.new.roots.now }
    {
        counting.count_statement(statement);
        match statement {
            Statement::Emit(range) => {
                self.emit(counting, disruptor, range);
                STAYS
            }
            Statement::Return { .. } => {
                self.origin = self
                    .origin
                    .or(operands_origin(&counting.facts(), statement));
                Exits {
                    returns: disruptor.is_some(),
                    kills: false,
                }
            }
            Statement::Kill => Exits {
                returns: false,
                kills: disruptor.is_some(),
            },
            Statement::Call { function, .. } => self.call(infos, counting, *function),
            Statement::ControlBarrier(_)
            | Statement::MemoryBarrier(_)
            | Statement::WorkGroupUniformLoad { .. } => {
                self.requirements = self.requirements | UniformityRequirements::WORK_GROUP_BARRIER;
                STAYS
            }
            Statement::CooperativeStore { .. } => {
                self.origin = self
                    .origin
                    .or(operands_origin(&counting.facts(), statement));
                self.requirements = self.requirements | UniformityRequirements::COOP_OPS;
                STAYS
            }
            _ => STAYS,
        }
    }

    /// Walks a block, and returns how some of the invocations may leave it early.
    #[cycle(walk)]
    #[tactic(auto, using(crate::proofs::WalkLemmas::walks))]
    fn walk_block(
        &mut self,
        infos: &[FunctionInfo],
        counting: &mut Counting<'_>,
        disruptor: &Option<UniformityDisruptor>,
        block: &Block,
    ) -> Exits
        requires { length counting.old.records.now ≡ length counting.old.roots.now }
        ensures exits { result ≡ block_ends (origin_at (facts_by counting.old)) (is_killing infos.now) disruptor.now block.now }
        ensures first { self.new.first ≡ option_or self.old.first (block_fault (origin_at (facts_by counting.old)) (is_killing infos.now)
            (facts_by counting.old) disruptor.now block.now) }
        ensures origin { self.new.origin
            ≡ fold (result_origin_after infos.now (facts_by counting.old)) self.old.origin (statements block.now) }
        ensures needs { self.new.requirements.0
            ≡ fold (with_needs_of infos.now (facts_by counting.old)) self.old.requirements.0 (statements block.now) }
        ensures calls { self.new.calls ≡ (self.old.calls || list_any is_call (statements block.now)) }
        ensures counted { counting.new ≡ with_state counting.old
            (fold (step_state infos.now counting.old.roots.now) (state_of counting.old) (statements block.now)) }
        ensures facts { facts_by counting.new ≡ facts_by counting.old }
        ensures long { length counting.new.records.now ≡ length counting.new.roots.now }
        ensures roots { counting.new.roots ≡ counting.old.roots }
    {
        let mut exits = STAYS;
        let mut flow = *disruptor;
        for statement in &block.statements {
            let here = self.walk_statement(infos, counting, &flow, statement);
            flow = disruptor_after(&flow, &here);
            exits = either(&exits, &here);
        }
        exits
    }

    /// Walks a statement and the blocks inside.
    #[cycle(walk)]
    #[tactic(auto, using(crate::proofs::WalkLemmas::walks))]
    fn walk_statement(
        &mut self,
        infos: &[FunctionInfo],
        counting: &mut Counting<'_>,
        disruptor: &Option<UniformityDisruptor>,
        statement: &Statement,
    ) -> Exits
        requires { length counting.old.records.now ≡ length counting.old.roots.now }
        ensures exits { result
            ≡ step_ends (origin_at (facts_by counting.old)) (is_killing infos.now) disruptor.now (step_of statement.now) }
        ensures first { self.new.first ≡ option_or self.old.first (step_fault (origin_at (facts_by counting.old)) (is_killing infos.now)
            (facts_by counting.old) disruptor.now (step_of statement.now)) }
        ensures origin { self.new.origin ≡ fold (result_origin_after infos.now (facts_by counting.old)) self.old.origin
            (step_of statement.now ∷ statements_within (step_of statement.now)) }
        ensures needs { self.new.requirements.0 ≡ fold (with_needs_of infos.now (facts_by counting.old)) self.old.requirements.0
            (step_of statement.now ∷ statements_within (step_of statement.now)) }
        ensures calls { self.new.calls
            ≡ (self.old.calls || list_any is_call (step_of statement.now ∷ statements_within (step_of statement.now))) }
        ensures counted { counting.new ≡ with_state counting.old
            (fold (step_state infos.now counting.old.roots.now) (state_of counting.old)
            (step_of statement.now ∷ statements_within (step_of statement.now))) }
        ensures facts { facts_by counting.new ≡ facts_by counting.old }
        ensures long { length counting.new.records.now ≡ length counting.new.roots.now }
        ensures roots { counting.new.roots ≡ counting.old.roots }
    {
        match statement {
            Statement::Block(block) => self.walk_block(infos, counting, disruptor, block),
            Statement::If {
                condition,
                accept,
                reject,
            } => {
                counting.count_statement(statement);
                let branch = on_branch(&counting.facts(), disruptor, *condition);
                let accepted = self.walk_block(infos, counting, &branch, accept);
                let rejected = self.walk_block(infos, counting, &branch, reject);
                either(&accepted, &rejected)
            }
            Statement::Switch { selector, cases } => {
                counting.count_statement(statement);
                let branch = on_branch(&counting.facts(), disruptor, *selector);
                self.walk_cases(infos, counting, &branch, cases)
            }
            Statement::Loop {
                body,
                continuing,
                ..
            } => {
                counting.count_statement(statement);
                let left = self.walk_block(infos, counting, disruptor, body);
                let flow = disruptor_after(disruptor, &left);
                let again = self.walk_block(infos, counting, &flow, continuing);
                either(&left, &again)
            }
            _ => self.walk_leaf(infos, counting, disruptor, statement),
        }
    }

    /// Walks the cases of a switch. `branch` disrupts each case into which no other falls.
    #[cycle(walk)]
    #[tactic(auto, using(crate::proofs::WalkLemmas::walks))]
    fn walk_cases(
        &mut self,
        infos: &[FunctionInfo],
        counting: &mut Counting<'_>,
        branch: &Option<UniformityDisruptor>,
        cases: &[SwitchCase],
    ) -> Exits
        requires { length counting.old.records.now ≡ length counting.old.roots.now }
        ensures exits { result ≡ cases_end (origin_at (facts_by counting.old)) (is_killing infos.now) branch.now branch.now
            (cases_of cases.now) }
        ensures first { self.new.first ≡ option_or self.old.first (cases_fault (origin_at (facts_by counting.old)) (is_killing infos.now)
            (facts_by counting.old) branch.now branch.now (cases_of cases.now)) }
        ensures origin { self.new.origin ≡ fold (result_origin_after infos.now (facts_by counting.old)) self.old.origin
            (case_statements (cases_of cases.now)) }
        ensures needs { self.new.requirements.0 ≡ fold (with_needs_of infos.now (facts_by counting.old)) self.old.requirements.0
            (case_statements (cases_of cases.now)) }
        ensures calls { self.new.calls ≡ (self.old.calls || list_any is_call (case_statements (cases_of cases.now))) }
        ensures counted { counting.new ≡ with_state counting.old
            (fold (step_state infos.now counting.old.roots.now) (state_of counting.old)
            (case_statements (cases_of cases.now))) }
        ensures facts { facts_by counting.new ≡ facts_by counting.old }
        ensures long { length counting.new.records.now ≡ length counting.new.roots.now }
        ensures roots { counting.new.roots ≡ counting.old.roots }
    {
        let mut entered = *branch;
        let mut exits = STAYS;
        for case in cases {
            let here = self.walk_block(infos, counting, &entered, &case.body);
            entered = if case.fall_through {
                disruptor_after(&entered, &here)
            } else {
                *branch
            };
            exits = either(&exits, &here);
        }
        exits
    }

    /// Counts all operands of a function outside of its statements, and walks its body.
    #[tactic(auto, using(crate::proofs::WalkLemmas::walks))]
    pub(crate) fn walk_function(
        &mut self,
        infos: &[FunctionInfo],
        counting: &mut Counting<'_>,
        function: &Function,
    ) -> Found
        requires long { length counting.old.records.now ≡ length counting.old.roots.now }
        requires new { IsNew self.old }
        ensures counted { counting.new ≡ with_state counting.old
            (whole_state infos.now counting.old.roots.now (state_of counting.old) function.now) }
        ensures full { result.full ≡ counting.new.full }
        ensures first { result.first ≡ block_fault (origin_at (facts_by counting.old)) (is_killing infos.now)
            (facts_by counting.old) None function.now.body }
        ensures may_kill { result.may_kill
            ≡ (block_ends (origin_at (facts_by counting.old)) (is_killing infos.now) None function.now.body).kills }
        ensures calls { result.calls ≡ list_any is_call (statements function.now.body) }
        ensures origin { result.uniformity.non_uniform_result
            ≡ fold (result_origin_after infos.now (facts_by counting.old)) None (statements function.now.body) }
        ensures needs { result.uniformity.requirements.0
            ≡ fold (with_needs_of infos.now (facts_by counting.old)) 0 (statements function.now.body) }
    {
        counting.count_declared(function);
        let exits = self.walk_block(infos, counting, &None, &function.body);
        self.found(counting, exits.kills)
    }
}
