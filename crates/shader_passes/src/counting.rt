//! Reference counts of expressions, and the uses of each global by the function itself.
ghost use Rattle.std.specs.Prelude.{◌≡◌, [], ◌∷◌, fold, length, slice_get};
ghost use Rattle.std.specs.List.{flat_map};
ghost use Rattle.shader_ir.specs.Occurs.{local_operands};
ghost use Rattle.shader_ir.specs.BodyOf.{step_of};
ghost use Rattle.shader_ir.specs.Operands.{expression_operands, statement_operands};
ghost use Rattle.shader_ir.specs.Slots.{retained, read_optional};
ghost use Rattle.shader_passes.specs.CountsAndUses.{bits};
ghost use Rattle.shader_passes.specs.Counting.{counted_once, declared_operands, is_full_at, is_full_record, records_after, state_after};
ghost use Rattle.shader_passes.specs.Counting.{state_of, uses_by, uses_joined, with_state};
ghost use Rattle.shader_passes.specs.Records.{facts_in, root_in};
ghost use Rattle.shader_passes.specs.Walking.{facts_by};

use crate::facts::{Facts, Root, root_in};
use bitflags::Flags;
use shader_arena::{Arena, Handle};
use shader_info::{ExpressionInfo, GlobalUse};
use shader_ir::proc::{Label, Visitor, visit_expression, visit_statement};
use shader_ir::{Expression, Function, LocalVariable, Statement, mark};

/// Returns the use of a global by an operand with this label that points into it.
#[inline(always)]
fn uses_of(label: Label) -> GlobalUse
    ensures { result.0 ≡ bits label }
{
    match label {
        Label::Part => GlobalUse::empty(),
        Label::Read => GlobalUse::READ,
        Label::Write => GlobalUse::WRITE,
        Label::ReadWrite => GlobalUse::READ | GlobalUse::WRITE,
        Label::Query => GlobalUse::QUERY,
        Label::Atomic => GlobalUse::ATOMIC,
    }
}

/// Counts one more occurrence of an expression, and returns whether its count was full.
#[inline(always)]
fn count(counted: &mut ExpressionInfo) -> bool
    ensures counted { counted.new ≡ counted_once counted.old }
    ensures full { result ≡ is_full_record counted.old }
{
    match counted.ref_count.checked_add(1) {
        Some(more) => {
            counted.ref_count = more;
            false
        }
        None => true,
    }
}

/// Counts one more occurrence of an expression in its record, and returns whether its count was full.
#[inline(always)]
fn count_in(records: &mut [ExpressionInfo], operand: Handle<mark::Expression>) -> bool
    ensures counted { records.new ≡ records_after records.old operand (slice_get records.old operand) }
    ensures full { result ≡ is_full_at (slice_get records.old operand) }
{
    let position = operand.index();
    if position < records.len() {
        count(&mut records[position])
    } else {
        false
    }
}

/// Adds a use of a global by an operand with this label.
#[inline(always)]
fn add_use(uses: &mut [GlobalUse], global: Handle<mark::GlobalVariable>, label: Label)
    ensures { uses.new ≡ uses_joined uses.old global (bits label) (slice_get uses.old global) }
{
    let position = global.index();
    if position < uses.len() {
        uses[position].0 = uses[position].0 | uses_of(label).0;
    }
}

/// Adds the use of the global that an operand with this label points into.
#[inline(always)]
fn use_in(uses: &mut [GlobalUse], root: Root, label: Label)
    ensures { uses.new ≡ uses_by uses.old root (bits label) }
{
    match root {
        Some(global) => add_use(uses, global, label),
        None => {}
    }
}

/// Counts operands in the records of expressions, and records the uses of the globals that they point into.
#[derive(Drop)]
pub struct Counting<'a> {
    pub(crate) records: &'a mut [ExpressionInfo],
    pub(crate) roots: &'a [Root],
    pub(crate) uses: &'a mut [GlobalUse],
    /// An expression whose reference count overflows, if any.
    pub(crate) full: Option<Handle<mark::Expression>>,
}

impl<'a> Counting<'a> {
    ghost use Rattle.shader_passes.specs.Counting.{counting_after};

    /// Counts the operands of all expressions.
    #[tactic(auto, using(crate::proofs::RefCountLemmas::folds))]
    fn count_expressions(&mut self, expressions: &Arena<Expression, mark::Expression>)
        ensures { self.new ≡ fold counting_after self.old (flat_map expression_operands expressions.now) }
    {
        for (_, expression) in expressions.iter() {
            visit_expression(expression, self);
        }
    }

    /// Counts an initial value.
    #[inline(always)]
    fn count_initial_value(&mut self, init: Option<Handle<mark::Expression>>)
        ensures { self.new ≡ fold counting_after self.old (retained (read_optional init ∷ [])) }
    {
        if let Some(init) = init {
            self.visit(init, Label::Read);
        }
    }

    /// Counts the initial values of all local variables.
    #[tactic(auto, using(crate::proofs::RefCountLemmas::folds))]
    fn count_locals(&mut self, locals: &Arena<LocalVariable, mark::LocalVariable>)
        ensures { self.new ≡ fold counting_after self.old (flat_map local_operands locals.now) }
    {
        for (_, local) in locals.iter() {
            self.count_initial_value(local.init);
        }
    }

    /// Counts the operands of all expressions, and the initial values of all local variables.
    #[tactic(auto, using(crate::proofs::CountingLemmas::counts_declared))]
    pub(crate) fn count_declared(&mut self, function: &Function)
        requires { length self.old.records.now ≡ length self.old.roots.now }
        ensures counted { self.new ≡ with_state self.old
            (fold (state_after self.old.roots.now) (state_of self.old) (declared_operands function.now)) }
        ensures facts { facts_in self.new.records.now self.new.roots.now ≡ facts_in self.old.records.now self.old.roots.now }
        ensures long { length self.new.records.now ≡ length self.new.roots.now }
        ensures roots { self.new.roots ≡ self.old.roots }
    {
        self.count_expressions(&function.expressions);
        self.count_locals(&function.local_variables);
    }

    /// Returns the facts about the function's expressions.
    #[inline(always)]
    pub(crate) fn facts(&self) -> Facts<'_>
        requires { length self.now.records.now ≡ length self.now.roots.now }
        ensures { result ≡ facts_by self.now }
    {
        Facts::new(self.records, self.roots)
    }

    /// Counts the operands of a statement, without those of the blocks inside.
    #[inline(always)]
    #[tactic(auto, using(crate::proofs::WalkLemmas::walks))]
    pub(crate) fn count_statement(&mut self, statement: &Statement)
        requires { length self.old.records.now ≡ length self.old.roots.now }
        ensures counted { self.new ≡ with_state self.old
            (fold (state_after self.old.roots.now) (state_of self.old) (statement_operands (step_of statement.now))) }
        ensures roots { self.new.roots ≡ self.old.roots }
        ensures facts { facts_by self.new ≡ facts_by self.old }
        ensures long { length self.new.records.now ≡ length self.new.roots.now }
    {
        visit_statement(statement, self);
    }
}

impl<'a> Visitor for Counting<'a> {
    ghost use Rattle.shader_passes.specs.Counting.{counting_after};

    ghost step = { counting_after };

    #[inline(always)]
    fn visit(&mut self, operand: Handle<mark::Expression>, label: Label) {
        let root = root_in(self.roots, operand);
        if count_in(self.records, operand) {
            self.full = Some(operand);
        }
        use_in(self.uses, root, label);
    }
}
