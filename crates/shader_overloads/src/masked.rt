//! Tables of numbered rules, and the rules that a mask selects.
ghost use Rattle.std.specs.Prelude.{◌≡◌, ◌≢◌, ◌↔◌, ◌≤◌, ◌<◌, ℕ, Bool, [], List, IsTrue, IsOk, IfOk, Some, filter, length, slice_get};
ghost use Rattle.shader_ir.specs.declared.types.«Type».{«Type»};
ghost use Rattle.shader_ir.specs.declared.types.TypeInner.{TypeInner};
ghost use Rattle.shader_ir.specs.TypeTree.{IsBackward, PointsBelow};
ghost use Rattle.shader_overloads.specs.declared.rule.Rule.{Rule};
ghost use Rattle.shader_overloads.specs.Masks.{IsBelow, rules_at};
ghost use Rattle.shader_overloads.specs.Remaining.{has_concrete_arguments, RulesFit};

use crate::Rule;
use crate::mask::Mask;
use shader_arena::UniqueArena;
use shader_ir::{Type, TypeInner, mark};
use std::alloc::{AllocError, Global};

/// A table of rules by their numbers.
pub trait Table: Sized + Drop {
    /// The rules, in the order of their numbers.
    ghost table_rules: { Self → List Rule };

    /// Whether a rule has an argument at a position that accepts a value of a type.
    ghost accepting: { Self → List «Type» → ℕ → TypeInner → Rule → Bool };

    /// Whether a table is copied without allocation.
    ghost is_free: { Bool };

    /// Whether the types of the rules may point into an arena.
    ghost reads_types: { Bool };

    fn copy(&self) -> Result<Self, AllocError>
        ensures table_rules { IfOk result (λ table. table_rules table ≡ table_rules self.now) }
        ensures kind { IfOk result (λ table. accepting table ≡ accepting self.now) }
        ensures found { IsTrue is_free → IsOk result };

    /// Returns the number of rules.
    fn rule_count(&self) -> usize
        ensures count { result ≡ length (table_rules self.now) }
        ensures few { result ≤ 192 };

    /// Returns the rule with a number.
    fn rule(&self, alloc: Global, number: usize) -> Result<Rule, AllocError>
        requires { number < length (table_rules self.now) }
        ensures { IfOk result (λ rule. slice_get (table_rules self.now) number ≡ Some rule) };

    /// Returns those of the numbers whose rules accept a value of the type as argument `i`.
    fn accepted(
        &self,
        mask: Mask,
        i: usize,
        ty: &TypeInner,
        types: &UniqueArena<Type, mark::Type>,
    ) -> Mask
        requires within { IsBelow mask (length (table_rules self.now)) }
        requires backward { IsTrue reads_types → IsBackward types.now }
        requires ty_in { IsTrue reads_types → PointsBelow (length types.now) ty.now }
        requires fits { IsTrue reads_types → RulesFit types.now (rules_at mask (table_rules self.now)) }
        ensures rules { rules_at result (table_rules self.now)
            ≡ filter (accepting self.now types.now i ty.now) (rules_at mask (table_rules self.now)) }
        ensures within { IsBelow result (length (table_rules self.now)) };

    /// Returns those of the numbers whose rules have no abstract arguments.
    fn concrete(&self, mask: Mask, types: &UniqueArena<Type, mark::Type>) -> Mask
        requires within { IsBelow mask (length (table_rules self.now)) }
        requires backward { IsTrue reads_types → IsBackward types.now }
        requires fits { IsTrue reads_types → RulesFit types.now (rules_at mask (table_rules self.now)) }
        ensures rules { rules_at result (table_rules self.now)
            ≡ filter (has_concrete_arguments types.now) (rules_at mask (table_rules self.now)) }
        ensures within { IsBelow result (length (table_rules self.now)) };
}

/// A table of rules, and the numbers of the remaining ones.
#[derive(Drop)]
pub struct Masked<T> {
    pub mask: Mask,
    pub table: T,
}

impl<T: Table> Masked<T> {
    /// Returns the set of all rules of the table.
    pub fn all(table: T) -> Masked<T>
        ensures rules { rules_at result.mask (T.table_rules result.table) ≡ T.table_rules table }
        ensures within { IsBelow result.mask (length (T.table_rules result.table)) }
    {
        let mask = Mask::below(table.rule_count());
        Masked { mask, table }
    }

    pub fn copy(&self) -> Result<Masked<T>, AllocError>
        ensures mask { IfOk result (λ set. set.mask ≡ self.now.mask) }
        ensures table_rules { IfOk result (λ set. T.table_rules set.table ≡ T.table_rules self.now.table) }
        ensures found { IsTrue T.is_free → IsOk result }
    {
        let table = self.table.copy()?;
        Ok(Masked {
            mask: self.mask,
            table,
        })
    }

    pub fn is_empty(&self) -> bool
        requires { IsBelow self.now.mask (length (T.table_rules self.now.table)) }
        ensures { IsTrue result ↔ (rules_at self.now.mask (T.table_rules self.now.table) ≡ []) }
    {
        self.mask.first().is_none()
    }

    /// Returns the rules that accept a value of the type as argument `i`.
    pub fn arg(
        &self,
        i: usize,
        ty: &TypeInner,
        types: &UniqueArena<Type, mark::Type>,
    ) -> Result<Masked<T>, AllocError>
        requires within { IsBelow self.now.mask (length (T.table_rules self.now.table)) }
        requires backward { IsTrue T.reads_types → IsBackward types.now }
        requires ty_in { IsTrue T.reads_types → PointsBelow (length types.now) ty.now }
        requires fits { IsTrue T.reads_types → RulesFit types.now (rules_at self.now.mask (T.table_rules self.now.table)) }
        ensures rules { IfOk result (λ set. rules_at set.mask (T.table_rules set.table)
            ≡ filter (T.accepting self.now.table types.now i ty.now) (rules_at self.now.mask (T.table_rules self.now.table))) }
        ensures within { IfOk result (λ set. IsBelow set.mask (length (T.table_rules set.table))) }
        ensures found { IsTrue T.is_free → IsOk result }
    {
        let mask = self.table.accepted(self.mask, i, ty, types);
        let table = self.table.copy()?;
        Ok(Masked { mask, table })
    }

    /// Returns the rules without abstract arguments.
    pub fn concrete_only(self, types: &UniqueArena<Type, mark::Type>) -> Masked<T>
        requires within { IsBelow self.mask (length (T.table_rules self.table)) }
        requires backward { IsTrue T.reads_types → IsBackward types.now }
        requires fits { IsTrue T.reads_types → RulesFit types.now (rules_at self.mask (T.table_rules self.table)) }
        ensures rules { rules_at result.mask (T.table_rules result.table)
            ≡ filter (has_concrete_arguments types.now) (rules_at self.mask (T.table_rules self.table)) }
        ensures within { IsBelow result.mask (length (T.table_rules result.table)) }
    {
        let Masked { mask, table } = self;
        let mask = table.concrete(mask, types);
        Masked { mask, table }
    }

    /// Returns the number of the first rule.
    pub fn first_number(&self) -> usize
        requires { rules_at self.now.mask (T.table_rules self.now.table) ≢ [] }
        ensures within { result < length (T.table_rules self.now.table) }
        ensures first { slice_get (rules_at self.now.mask (T.table_rules self.now.table)) 0
            ≡ slice_get (T.table_rules self.now.table) result }
    {
        match self.mask.first() {
            Some(number) => number,
            None => unreachable!(),
        }
    }

    /// Returns the first rule.
    pub fn most_preferred(&self, alloc: Global) -> Result<Rule, AllocError>
        requires { rules_at self.now.mask (T.table_rules self.now.table) ≢ [] }
        ensures { IfOk result (λ rule. slice_get (rules_at self.now.mask (T.table_rules self.now.table)) 0 ≡ Some rule) }
    {
        self.table.rule(alloc, self.first_number())
    }

    /// Returns all rules, in order.
    pub fn overload_list(&self, alloc: Global) -> Result<Vec<Rule>, AllocError>
        requires { IsBelow self.now.mask (length (T.table_rules self.now.table)) }
        ensures { IfOk result (λ rules. rules.items ≡ rules_at self.now.mask (T.table_rules self.now.table)) }
    {
        let mut rules = Vec::new(alloc);
        let mut left = self.mask;
        while let Some(number) = left.take_first() {
            let rule = self.table.rule(alloc, number)?;
            rules.push(rule)?;
        }
        Ok(rules)
    }
}
