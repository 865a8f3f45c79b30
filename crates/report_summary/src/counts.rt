//! How many needs of uniform control flow there are, by their kinds.

use shader_uniformity_needs::NeedKind;
use std::alloc::{AllocError, Global};

/// How many needs there are of each kind.
#[derive(Clone, Copy)]
pub struct NeedCounts {
    derivatives: usize,
    implicit_levels: usize,
    barriers: usize,
    memory_barriers: usize,
    uniform_loads: usize,
    cooperative_operations: usize,
}

/// Adds how many things there are and what they are, if there are any.
fn add_counted(
    alloc: Global,
    parts: &mut Vec<String>,
    count: usize,
    word: &str,
) -> Result<(), AllocError> {
    if count == 0 {
        return Ok(());
    }
    let ending = if count == 1 { "" } else { "s" };
    let part = format!(in alloc; "{count} {word}{ending}")?;
    parts.push(part)?;
    Ok(())
}

/// Joins parts by commas, and the last two by `and`.
fn joined(alloc: Global, parts: &[String]) -> Result<String, AllocError> {
    let mut text = String::new(alloc);
    let last = parts.len().saturating_sub(1);
    for (index, part) in parts.iter().enumerate() {
        if index > 0 {
            let separator = if index == last { " and " } else { ", " };
            text.push_str(separator)?;
        }
        text.push_str(part.as_str())?;
    }
    Ok(text)
}

impl NeedCounts {
    /// Returns the counts of no needs.
    pub fn none() -> NeedCounts {
        NeedCounts {
            derivatives: 0,
            implicit_levels: 0,
            barriers: 0,
            memory_barriers: 0,
            uniform_loads: 0,
            cooperative_operations: 0,
        }
    }

    /// Counts one need more.
    pub fn add(&mut self, kind: NeedKind) {
        match kind {
            NeedKind::Derivative => {
                self.derivatives = self.derivatives.saturating_add(1);
            }
            NeedKind::ImplicitLevel => {
                self.implicit_levels = self.implicit_levels.saturating_add(1);
            }
            NeedKind::Barrier => {
                self.barriers = self.barriers.saturating_add(1);
            }
            NeedKind::MemoryBarrier => {
                self.memory_barriers = self.memory_barriers.saturating_add(1);
            }
            NeedKind::UniformLoad => {
                self.uniform_loads = self.uniform_loads.saturating_add(1);
            }
            NeedKind::CooperativeOperation => {
                self.cooperative_operations = self.cooperative_operations.saturating_add(1);
            }
        }
    }

    /// Counts the needs of another body, too.
    pub fn add_all(&mut self, other: &NeedCounts) {
        self.derivatives = self.derivatives.saturating_add(other.derivatives);
        self.implicit_levels = self.implicit_levels.saturating_add(other.implicit_levels);
        self.barriers = self.barriers.saturating_add(other.barriers);
        self.memory_barriers = self.memory_barriers.saturating_add(other.memory_barriers);
        self.uniform_loads = self.uniform_loads.saturating_add(other.uniform_loads);
        self.cooperative_operations = self
            .cooperative_operations
            .saturating_add(other.cooperative_operations);
    }

    /// Returns the number of all needs.
    pub fn total(&self) -> usize {
        self.derivatives
            .saturating_add(self.implicit_levels)
            .saturating_add(self.barriers)
            .saturating_add(self.memory_barriers)
            .saturating_add(self.uniform_loads)
            .saturating_add(self.cooperative_operations)
    }

    /// Returns how many there are of each kind, as `2 barriers and 1 workgroupUniformLoad`.
    pub fn words(&self, alloc: Global) -> Result<String, AllocError> {
        let mut parts = Vec::new(alloc);
        add_counted(alloc, &mut parts, self.derivatives, "derivative")?;
        add_counted(
            alloc,
            &mut parts,
            self.implicit_levels,
            "implicit-level sample",
        )?;
        add_counted(alloc, &mut parts, self.barriers, "barrier")?;
        add_counted(alloc, &mut parts, self.memory_barriers, "memory barrier")?;
        add_counted(
            alloc,
            &mut parts,
            self.uniform_loads,
            "workgroupUniformLoad",
        )?;
        add_counted(
            alloc,
            &mut parts,
            self.cooperative_operations,
            "cooperative operation",
        )?;
        joined(alloc, parts.as_slice())
    }
}
