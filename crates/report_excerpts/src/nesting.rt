//! The sites that a part of a function has, and how deep the part stands.

use crate::sites::Site;
use report_places::PathStep;
use shader_arena::Handle;
use shader_ir::mark;
use std::alloc::{AllocError, Global};

/// Some sites of an excerpt, whose ways have led to one place.
#[derive(Drop)]
pub struct Marked<'s> {
    /// The sites of the excerpt.
    pub sites: &'s [Site],
    /// Which of them these are.
    pub chosen: Vec<usize>,
    /// The blocks around the place whose heads are printed.
    pub level: usize,
    /// The steps that lead to the place.
    pub steps: usize,
    /// The index of the statement of a block that the head of its loop shows, if one does.
    pub test: Option<usize>,
    /// Whether the head of a loop shows its continuing block too.
    pub is_for: bool,
}

impl<'s> Marked<'s> {
    /// Returns all sites of an excerpt.
    pub fn all(alloc: Global, sites: &'s [Site]) -> Result<Marked<'s>, AllocError> {
        Ok(Marked {
            sites,
            chosen: (0..sites.len()).collect(alloc)?,
            level: 1,
            steps: 0,
            test: None,
            is_for: false,
        })
    }

    /// Returns those that go on by a step. The step leads so many levels deeper.
    pub fn following(
        &self,
        alloc: Global,
        levels: usize,
        step: PathStep,
    ) -> Result<Marked<'s>, AllocError> {
        let mut chosen = Vec::new(alloc);
        for index in &self.chosen {
            if let Some(site) = self.sites.get(*index) {
                match site.way.as_slice().get(self.steps) {
                    Some(next) if *next == step => chosen.push(*index)?,
                    _ => {}
                }
            }
        }
        Ok(Marked {
            sites: self.sites,
            chosen,
            level: self.level.saturating_add(levels),
            steps: self.steps.saturating_add(1),
            test: match step {
                PathStep::Body => self.test,
                _ => None,
            },
            is_for: false,
        })
    }

    /// Checks whether none goes on by a step.
    pub fn has_none(&self, alloc: Global, step: PathStep) -> Result<bool, AllocError> {
        let following = self.following(alloc, 0, step)?;
        Ok(following.chosen.is_empty())
    }

    /// Returns which of them stand at the place itself, in the line of a value if it is given.
    pub fn standing(
        &self,
        alloc: Global,
        value: Option<Handle<mark::Expression>>,
    ) -> Result<Vec<usize>, AllocError> {
        let mut found = Vec::new(alloc);
        for index in &self.chosen {
            if let Some(site) = self.sites.get(*index) {
                if site.way.len() == self.steps && site.value == value {
                    found.push(*index)?;
                }
            }
        }
        Ok(found)
    }
}
