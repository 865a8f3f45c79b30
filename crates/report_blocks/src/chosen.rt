//! Which diagnostics get a block.
ghost use Rattle.std.specs.Prelude.{◌≡◌, IfOk};
ghost use Rattle.report_blocks.specs.Chosen.{chosen, is_chosen, is_left_out};

use crate::same::is_repeated;
use report_diagnostics::Diagnostic;
use std::alloc::{AllocError, Global};

/// The most diagnostics that get a block, unless all do.
pub const MOST_BLOCKS: usize = 20;

/// Checks whether the diagnostic at an index has the causes of each of the four before it.
fn is_left_out(diagnostics: &[Diagnostic], index: usize) -> bool
    ensures { result ≡ is_left_out diagnostics.now index }
{
    is_repeated(diagnostics, index)
        && is_repeated(diagnostics, index.saturating_sub(1))
        && is_repeated(diagnostics, index.saturating_sub(2))
        && is_repeated(diagnostics, index.saturating_sub(3))
}

/// Checks whether the diagnostic at an index gets a block, if so many before it do.
fn is_chosen(diagnostics: &[Diagnostic], shows_all: bool, before: usize, index: usize) -> bool
    ensures { result ≡ is_chosen shows_all diagnostics.now before index }
{
    shows_all || (before < MOST_BLOCKS && !is_left_out(diagnostics, index))
}

/// Returns which diagnostics get a block, by their indexes: all, or the first 20 without those that have the causes of each of the four
/// before them.
#[tactic(auto, using(crate::proofs::ChosenLemmas::one_more, crate::proofs::ChosenLemmas::none_more))]
pub fn chosen(
    alloc: Global,
    diagnostics: &[Diagnostic],
    shows_all: bool,
) -> Result<Vec<usize>, AllocError>
    ensures { IfOk result (λ indexes. indexes.items ≡ chosen shows_all diagnostics.now) }
{
    let mut indexes = Vec::new(alloc);
    for index in 0..diagnostics.len() {
        if is_chosen(diagnostics, shows_all, indexes.len(), index) {
            indexes.push(index)?;
        }
    }
    Ok(indexes)
}
