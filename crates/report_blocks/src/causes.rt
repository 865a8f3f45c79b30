//! Which causes of a diagnostic are shown, and how they are numbered.

use report_diagnostics::Related;
use std::alloc::{AllocError, Global};

/// The most causes that are all shown. Of more, so many at each end are.
const MOST_CAUSES: usize = 8;

const SHOWN_AT_AN_END: usize = 4;

/// The causes of something, from its place back to the source.
#[derive(Clone, Copy)]
pub struct Causes<'a> {
    pub related: &'a [Related],
    /// How many causes are left out between those at both ends.
    pub omitted: usize,
    /// True if each of the causes is shown, however many there are.
    pub shows_all: bool,
}

impl Causes<'_> {
    /// Checks whether the cause at an index is shown.
    pub fn is_shown(&self, index: usize) -> bool {
        let count = self.related.len();
        self.shows_all
            || count <= MOST_CAUSES
            || index < SHOWN_AT_AN_END
            || count - SHOWN_AT_AN_END <= index
    }

    /// Returns the number of the cause at an index, from 1. Of many causes those in the middle aren't at hand.
    fn number_of(&self, index: usize) -> usize {
        let from_1 = index.saturating_add(1);
        if index < self.related.len() / 2 {
            from_1
        } else {
            from_1.saturating_add(self.omitted)
        }
    }

    /// Returns the label of the cause at an index. A single one has no number.
    pub fn label(&self, alloc: Global, index: usize, words: &str) -> Result<String, AllocError> {
        if self.related.len() == 1 {
            return String::from_str(alloc, words);
        }
        let number = self.number_of(index);
        format!(in alloc; "{number}: {words}")
    }

    /// Returns a note on the causes that aren't shown, if there are any.
    pub fn omitted_note(&self, alloc: Global) -> Result<Option<String>, AllocError> {
        let count = self.related.len();
        if self.shows_all || count <= MOST_CAUSES {
            return Ok(None);
        }
        let all = count.saturating_add(self.omitted);
        let omitted = all - (SHOWN_AT_AN_END + SHOWN_AT_AN_END);
        let first = SHOWN_AT_AN_END;
        let last = all - SHOWN_AT_AN_END + 1;
        let note = format!(in alloc;
            "{omitted} steps between {first} and {last} are left out; `--all` shows them"
        )?;
        Ok(Some(note))
    }
}
