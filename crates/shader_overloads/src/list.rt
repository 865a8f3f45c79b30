//! Overload sets that store their rules one by one.
ghost use Rattle.std.specs.Prelude.{◌≡◌, ◌≢◌, ◌↔◌, ◌≤◌, ◌<◌, [], All, IsTrue, IfOk, Some, filter, length, slice_get};
ghost use Rattle.std.specs.List.{list_all};
ghost use Rattle.std.specs.Rc.{rc_slice_items};
ghost use Rattle.shader_ir.specs.Key.{IsNoStruct, inner_of};
ghost use Rattle.shader_ir.specs.TypeTree.{IsBackward, PointsBelow};
ghost use Rattle.shader_overloads.specs.Counts.{IsGreatestCount, IsLeastCount};
ghost use Rattle.shader_overloads.specs.Masks.{IsBelow, rules_at};
ghost use Rattle.shader_overloads.specs.Remaining.{ArgumentFits, RuleFits, RulesFit, has_concrete_arguments, has_no_struct};
ghost use Rattle.shader_overloads.specs.Remaining.{is_concrete, is_free_struct, list_accepts, some_list_takes};

use crate::mask::Mask;
use crate::masked::{Masked, Table};
use crate::{OverloadSet, Rule};
use shader_arena::UniqueArena;
use shader_ir::proc::TypeResolution;
use shader_ir::{GlobalCtx, Type, TypeInner, mark};
use std::alloc::{AllocError, Global};
use std::marker::Model;
use std::rc::RcSlice;

/// A list of rules, some of which may be ruled out; contracts see the remaining rules.
///
/// Copies share the rules, so that a copy costs the same for any number of them; no clause promises that. The caller puts the rules in
/// order of preference; no function requires it.
#[derive(Drop)]
pub struct List {
    set: Masked<ListTable>,
}

impl Model for List {
    ghost use Rattle.std.specs.Prelude.{List};
    ghost use Rattle.shader_overloads.specs.declared.rule.Rule.{Rule};

    ghost Value = { List Rule };

    ghost use Rattle.shader_overloads.specs.ListSet.{member_rules, IsListSet};

    ghost view = { member_rules };

    ghost invariant = { IsListSet };
}

impl List {
    /// The most rules that a list can hold.
    pub const MAX_RULES: usize = 63;

    /// Returns whether a list can hold the rules.
    pub fn can_hold(rules: &[Rule]) -> bool
        ensures { IsTrue result ↔ ((length rules.now ≤ 63) × IsTrue (list_all has_no_struct rules.now)) }
    {
        if rules.len() > Self::MAX_RULES {
            return false;
        }
        have_no_struct(rules)
    }

    /// Returns the set of all of the rules, in their order.
    pub fn from_rules(_alloc: Global, rules: Vec<Rule>) -> Result<List, AllocError>
        requires count { length rules.items ≤ 63 }
        requires no_struct { IsTrue (list_all has_no_struct rules.items) }
        ensures { IfOk result (λ set. set ≡ rules.items) }
    {
        let table = ListTable::new(rules)?;
        Ok(List {
            set: Masked::all(table),
        })
    }
}

/// Returns whether no argument of the rules is a struct outside the arena.
fn have_no_struct(rules: &[Rule]) -> bool
    ensures { result ≡ list_all has_no_struct rules.now }
{
    rules.iter().all(|rule| has_no_struct(rule))
}

/// Returns whether no argument of the rule is a struct outside the arena.
fn has_no_struct(rule: &Rule) -> bool
    ensures { result ≡ has_no_struct rule.now }
{
    rule.arguments
        .as_slice()
        .iter()
        .all(|argument| !is_free_struct(argument))
}

fn is_free_struct(argument: &TypeResolution) -> bool
    ensures { result ≡ is_free_struct argument.now }
{
    match argument {
        TypeResolution::Handle(_) => false,
        TypeResolution::Value(inner) => matches!(inner, TypeInner::Struct { .. }),
    }
}

/// Returns whether rules fit an arena of types: each handle of their arguments is in range, and no argument is a struct outside the arena.
///
/// Sets require this before they read the arena. `MathOverloads::overloads` and [`crate::Regular::new`] guarantee it for their rules.
pub fn rules_fit(rules: &[Rule], types: &UniqueArena<Type, mark::Type>) -> bool
    ensures { IsTrue result ↔ RulesFit types.now rules.now }
{
    all_fit(rules, types)
}

fn all_fit(rules: &[Rule], types: &UniqueArena<Type, mark::Type>) -> bool
    ensures { IsTrue result ↔ All (RuleFits types.now) rules.now }
{
    rules.iter().all(|rule| rule_fits(rule, types))
}

fn rule_fits(rule: &Rule, types: &UniqueArena<Type, mark::Type>) -> bool
    ensures { IsTrue result ↔ RuleFits types.now rule.now }
{
    rule.arguments
        .as_slice()
        .iter()
        .all(|argument| argument_fits(argument, types))
}

fn argument_fits(argument: &TypeResolution, types: &UniqueArena<Type, mark::Type>) -> bool
    ensures { IsTrue result ↔ ArgumentFits types.now argument.now }
{
    if !argument.fits(types) {
        return false;
    }
    is_no_struct(argument.inner_with(types))
}

fn is_no_struct(inner: &TypeInner) -> bool
    ensures { IsTrue result ↔ IsNoStruct inner.now }
{
    !matches!(inner, TypeInner::Struct { .. })
}

impl OverloadSet for List {
    ghost use Rattle.std.specs.Prelude.{false};
    ghost use Rattle.shader_overloads.specs.Remaining.{list_accepts};

    ghost rules = { λ set. set };

    ghost accepting = { λ _. list_accepts };

    ghost is_free = { λ _. false };

    fn copy(&self, _alloc: Global) -> Result<List, AllocError> {
        let set = self.set.copy()?;
        Ok(List { set })
    }

    fn is_empty(&self) -> bool {
        self.set.is_empty()
    }

    fn min_arguments(&self) -> usize {
        least_count(self.set.table.rules.as_slice(), self.set.mask)
    }

    fn max_arguments(&self) -> usize {
        greatest_count(self.set.table.rules.as_slice(), self.set.mask)
    }

    // Out of line, so that narrowing a regular set saves no registers for it.
    #[inline(never)]
    fn arg(
        &self,
        _alloc: Global,
        i: usize,
        ty: &TypeInner,
        types: &UniqueArena<Type, mark::Type>,
    ) -> Result<List, AllocError> {
        let set = self.set.arg(i, ty, types)?;
        Ok(List { set })
    }

    fn concrete_only(self, types: &UniqueArena<Type, mark::Type>) -> List {
        let List { set } = self;
        let set = set.concrete_only(types);
        List { set }
    }

    fn most_preferred(&self, alloc: Global) -> Result<Rule, AllocError> {
        self.set.most_preferred(alloc)
    }

    fn overload_list(&self, alloc: Global, _gctx: GlobalCtx<'_>) -> Result<Vec<Rule>, AllocError> {
        self.set.overload_list(alloc)
    }
}

/// The rules of a list, numbered by their positions. Copies share them, as [`List`] says.
#[derive(Drop)]
pub struct ListTable {
    rules: RcSlice<Rule>,
    ghost few: { length (rc_slice_items rules) ≤ 63 },
    ghost no_struct: { IsTrue (list_all has_no_struct (rc_slice_items rules)) },
}

impl ListTable {
    fn new(rules: Vec<Rule>) -> Result<ListTable, AllocError>
        requires count { length rules.items ≤ 63 }
        requires no_struct { IsTrue (list_all has_no_struct rules.items) }
        ensures { IfOk result (λ table. rc_slice_items table.rules ≡ rules.items) }
    {
        let rules = RcSlice::from_vec(rules)?;
        Ok(ListTable { rules })
    }
}

impl Table for ListTable {
    ghost use Rattle.std.specs.Prelude.{true, false};
    ghost use Rattle.shader_overloads.specs.Remaining.{list_accepts};

    ghost table_rules = { λ table. rc_slice_items table.rules };

    ghost accepting = { λ _. list_accepts };

    ghost is_free = { false };

    ghost reads_types = { true };

    fn copy(&self) -> Result<ListTable, AllocError> {
        let rules = self.rules.clone()?;
        Ok(ListTable { rules })
    }

    fn rule_count(&self) -> usize {
        self.rules.len()
    }

    fn rule(&self, alloc: Global, number: usize) -> Result<Rule, AllocError> {
        rule_at(self.rules.as_slice(), number).copy(alloc)
    }

    fn accepted(
        &self,
        mask: Mask,
        i: usize,
        ty: &TypeInner,
        types: &UniqueArena<Type, mark::Type>,
    ) -> Mask {
        accepted_of(self.rules.as_slice(), mask, i, ty, types)
    }

    fn concrete(&self, mask: Mask, types: &UniqueArena<Type, mark::Type>) -> Mask {
        concrete_of(self.rules.as_slice(), mask, types)
    }
}

/// Returns those of the numbers whose rules accept a value of the type as argument `i`.
fn accepted_of(
    rules: &[Rule],
    mask: Mask,
    i: usize,
    ty: &TypeInner,
    types: &UniqueArena<Type, mark::Type>,
) -> Mask
    requires within { IsBelow mask (length rules.now) }
    requires backward { IsBackward types.now }
    requires ty_in { PointsBelow (length types.now) ty.now }
    requires fits { RulesFit types.now (rules_at mask rules.now) }
    ensures rules { rules_at result rules.now ≡ filter (list_accepts types.now i ty.now) (rules_at mask rules.now) }
    ensures within { IsBelow result (length rules.now) }
{
    let mut retained = Mask::empty();
    let mut left = mask;
    while let Some(number) = left.take_first() {
        if accepts_argument(rule_at(rules, number), i, ty, types) {
            retained.insert(number);
        }
    }
    retained
}

/// Returns those of the numbers whose rules have no abstract arguments.
fn concrete_of(rules: &[Rule], mask: Mask, types: &UniqueArena<Type, mark::Type>) -> Mask
    requires within { IsBelow mask (length rules.now) }
    requires backward { IsBackward types.now }
    requires fits { RulesFit types.now (rules_at mask rules.now) }
    ensures rules { rules_at result rules.now ≡ filter (has_concrete_arguments types.now) (rules_at mask rules.now) }
    ensures within { IsBelow result (length rules.now) }
{
    let mut retained = Mask::empty();
    let mut left = mask;
    while let Some(number) = left.take_first() {
        if has_concrete_arguments(rule_at(rules, number), types) {
            retained.insert(number);
        }
    }
    retained
}

/// Returns the least number of arguments of a remaining rule.
fn least_count(rules: &[Rule], mask: Mask) -> usize
    requires within { IsBelow mask (length rules.now) }
    requires some { rules_at mask rules.now ≢ [] }
    ensures { IsLeastCount result (rules_at mask rules.now) }
{
    let mut least = first_member(rules, mask).arguments.len();
    let mut left = mask;
    while let Some(number) = left.take_first() {
        least = least.min(rule_at(rules, number).arguments.len());
    }
    least
}

/// Returns the greatest number of arguments of a remaining rule.
fn greatest_count(rules: &[Rule], mask: Mask) -> usize
    requires within { IsBelow mask (length rules.now) }
    requires some { rules_at mask rules.now ≢ [] }
    ensures { IsGreatestCount result (rules_at mask rules.now) }
{
    let mut greatest = first_member(rules, mask).arguments.len();
    let mut left = mask;
    while let Some(number) = left.take_first() {
        greatest = greatest.max(rule_at(rules, number).arguments.len());
    }
    greatest
}

/// Returns the first remaining rule.
fn first_member(rules: &[Rule], mask: Mask) -> &Rule
    requires { rules_at mask rules.now ≢ [] }
    ensures { slice_get (rules_at mask rules.now) 0 ≡ Some result.now }
{
    match mask.first() {
        Some(number) => rule_at(rules, number),
        None => unreachable!(),
    }
}

fn rule_at(rules: &[Rule], position: usize) -> &Rule
    requires { position < length rules.now }
    ensures { slice_get rules.now position ≡ Some result.now }
{
    &rules[position]
}

/// Returns whether the rule accepts a value of the type as argument `i`.
fn accepts_argument(
    rule: &Rule,
    i: usize,
    ty: &TypeInner,
    types: &UniqueArena<Type, mark::Type>,
) -> bool
    requires backward { IsBackward types.now }
    requires ty_in { PointsBelow (length types.now) ty.now }
    requires fits { RuleFits types.now rule.now }
    ensures { result ≡ list_accepts types.now i ty.now rule.now }
{
    match rule.arguments.as_slice().get(i) {
        Some(argument) => takes(argument, ty, types),
        None => false,
    }
}

/// Returns whether an argument accepts a value of the type.
fn takes(argument: &TypeResolution, ty: &TypeInner, types: &UniqueArena<Type, mark::Type>) -> bool
    requires backward { IsBackward types.now }
    requires ty_in { PointsBelow (length types.now) ty.now }
    requires fits { ArgumentFits types.now argument.now }
    ensures { result ≡ some_list_takes types.now ty.now (inner_of types.now argument.now) }
{
    let goal = argument.inner_with(types);
    ty.non_struct_equivalent(goal, types) || ty.automatically_converts_to(goal, types).is_some()
}

fn has_concrete_arguments(rule: &Rule, types: &UniqueArena<Type, mark::Type>) -> bool
    requires backward { IsBackward types.now }
    requires fits { RuleFits types.now rule.now }
    ensures { result ≡ has_concrete_arguments types.now rule.now }
{
    for argument in rule.arguments.as_slice() {
        if !is_concrete_argument(argument, types) {
            return false;
        }
    }
    true
}

fn is_concrete_argument(argument: &TypeResolution, types: &UniqueArena<Type, mark::Type>) -> bool
    requires backward { IsBackward types.now }
    requires fits { ArgumentFits types.now argument.now }
    ensures { result ≡ is_concrete types.now (inner_of types.now argument.now) }
{
    !argument.inner_with(types).is_abstract(types)
}
