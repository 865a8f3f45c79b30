//! The chain of links from a value that may differ among invocations to a source.
ghost use Rattle.std.specs.Prelude.{◌≡◌, ◌<◌, ◌++◌, ◌∷◌, [], IfOk, IsOk, IsTrue, OnOk, option_map, ◌↔◌};
ghost use Rattle.shader_resolve.specs.WellFormed.{IsWellFormed};
ghost use Rattle.shader_uniformity_trace.specs.Chains.{BeginsChain, Explains, ExplainsBeginning, HasOriginAt, IsOriginChain};
ghost use Rattle.shader_uniformity_trace.specs.Trace.{LeadsTo};

use crate::link::Link;
use crate::trace::{Table, next_of, reason_of, table_of};
use shader_ir::Module;
use std::alloc::{AllocError, Global};
use std::marker::Model;

/// The reasons for all non-uniform values of a module, computed once. In contracts it denotes the module.
#[derive(Drop)]
pub struct Reasons<'a> {
    module: &'a Module,
    table: Table,
}

impl<'a> Model for Reasons<'a> {
    ghost use Rattle.std.specs.Coded.{codes};
    ghost use Rattle.shader_ir.specs.BodyCode.{coded_body};
    ghost use Rattle.shader_ir.specs.declared.module.Module.{Module};

    ghost Value = { Module };

    ghost coded = { Prim.hlevel (codes, coded_body) };

    ghost use Rattle.shader_resolve.specs.WellFormed.{IsWellFormed};
    ghost use Rattle.shader_uniformity_trace.specs.Trace.{IsTable};

    ghost view = { λ reasons. reasons.«module».now };

    ghost invariant = { λ reasons. IsWellFormed reasons.«module».now × IsTable reasons.«module».now reasons.table };
}

impl<'a> Reasons<'a> {
    /// Computes the reasons by one pass over each function.
    ///
    /// The module must be well formed, which `check_module` establishes. The analysis may reject it.
    ///
    /// # Errors
    ///
    /// `AllocError` if the memory for one reason per expression can't be allocated.
    pub fn of(alloc: Global, module: &'a Module) -> Result<Self, AllocError>
        requires well_formed { IsWellFormed «module».now }
        ensures { IfOk result (λ reasons. reasons ≡ «module».now) }
    {
        let table = table_of(alloc, module)?;
        Ok(Reasons { module, table })
    }

    /// Returns whether the link's value may differ among invocations. It may not if the module has no such function or expression.
    pub fn may_differ(&self, link: &Link) -> bool
        ensures well_formed { IsWellFormed self.now }
        ensures origin { IsTrue result ↔ HasOriginAt self.now link.now }
    {
        reason_of(&self.table, link).is_some()
    }

    /// Returns the link that comes after one that is no source.
    fn next_link(&self, link: &Link) -> Option<Link>
        requires { HasOriginAt self.now link.now }
        ensures { LeadsTo self.now link.now result }
    {
        next_of(&self.table, link)
    }

    /// Returns a chain from the value to a source, or `None` if the value is uniform.
    ///
    /// # Errors
    ///
    /// `AllocError` if the memory for the chain can't be allocated. A uniform value needs none.
    pub fn why(&self, alloc: Global, link: Link) -> Result<Option<Vec<Link>>, AllocError>
        ensures chain { IfOk result (λ chain. Explains self.now link (option_map (λ links. links.items) chain)) }
        ensures uniform { (HasOriginAt self.now link → ⊥) → IsOk result }
    {
        if self.may_differ(&link) {
            Ok(Some(chain_from(alloc, self, &link)?))
        } else {
            Ok(None)
        }
    }

    /// Returns the beginning of a chain from the value to a source, of at most `most` links, or `None` if the value is uniform. It walks no
    /// further than it returns.
    ///
    /// # Errors
    ///
    /// `AllocError` if the memory for the links can't be allocated. A uniform value needs none.
    pub fn why_begins(
        &self,
        alloc: Global,
        link: Link,
        most: usize,
    ) -> Result<Option<Vec<Link>>, AllocError>
        requires some { 0 < most }
        ensures chain { IfOk result (λ chain. ExplainsBeginning self.now link most (option_map (λ links. links.items) chain)) }
        ensures uniform { (HasOriginAt self.now link → ⊥) → IsOk result }
    {
        if !self.may_differ(&link) {
            return Ok(None);
        }
        let beginning = beginning_from(alloc, self, &link, most)?;
        Ok(Some(beginning))
    }
}

/// Returns the beginning of the chain from a link that has an origin.
fn beginning_from(
    alloc: Global,
    reasons: &Reasons<'_>,
    start: &Link,
    most: usize,
) -> Result<Vec<Link>, AllocError>
    requires some { 0 < most }
    requires origin { HasOriginAt reasons.now start.now }
    ensures { IfOk result (λ links. BeginsChain reasons.now start.now most links.items) }
{
    let mut beginning = Vec::new(alloc);
    let mut last = *start;
    add(&mut beginning, &last)?;
    for _count in 1..most {
        match reasons.next_link(&last) {
            Some(next) => {
                add(&mut beginning, &next)?;
                last = next;
            }
            None => return Ok(beginning),
        }
    }
    Ok(beginning)
}

/// Adds a link at the end.
fn add(links: &mut Vec<Link>, link: &Link) -> Result<(), AllocError>
    ensures { OnOk result (links.new.items ≡ links.old.items ++ link.now ∷ []) }
{
    match link {
        Link::Expression(location, expression) => links.push(Link::Expression(
            *location,
            *expression,
        ))?,
        Link::Result(location) => links.push(Link::Result(*location))?,
    }
    Ok(())
}

/// Returns the chain from a link that has an origin.
#[tactic(auto, using(crate::proofs::WalkLemmas::walk_begins))]
fn chain_from(alloc: Global, reasons: &Reasons<'_>, start: &Link) -> Result<Vec<Link>, AllocError>
    requires well_formed { IsWellFormed reasons.now }
    requires origin { HasOriginAt reasons.now start.now }
    ensures { IfOk result (λ links. IsOriginChain reasons.now start.now links.items) }
{
    let mut links = Vec::new(alloc);
    let mut link = *start;
    while let Some(next) = reasons.next_link(&link) {
        add(&mut links, &link)?;
        link = next;
    }
    add(&mut links, &link)?;
    Ok(links)
}

/// Returns a chain from the value of an expression, or a function's result, to a source, or `None` if the value is uniform.
///
/// Each call makes a pass over the module. For more than one query use `Reasons`.
///
/// # Errors
///
/// `AllocError` if the memory for one reason per expression, or for the chain, can't be allocated.
pub fn why_non_uniform(
    alloc: Global,
    module: &Module,
    link: Link,
) -> Result<Option<Vec<Link>>, AllocError>
    requires well_formed { IsWellFormed «module».now }
    ensures { IfOk result (λ chain. Explains «module».now link (option_map (λ links. links.items) chain)) }
{
    let reasons = Reasons::of(alloc, module)?;
    reasons.why(alloc, link)
}
