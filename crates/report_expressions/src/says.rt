//! Saying words.
ghost use Rattle.std.specs.Prelude.{OnOk};
ghost use Rattle.report_expressions.specs.Pieces.{AreSaid, IsSaidBy};

use crate::line::Source;
use crate::pieces::{Piece, Word};
use std::alloc::AllocError;

/// Adds a word that an expression, or the line, says.
#[tactic(auto, using(crate::proofs::SaidLemmas::are_said_push))]
pub fn say(
    source: &Source,
    pieces: &mut Vec<Piece>,
    of: Option<u32>,
    word: Word,
    is_marked: bool,
) -> Result<(), AllocError>
    requires word { IsSaidBy source.now of word }
    requires said { AreSaid source.now pieces.old.items }
    ensures { OnOk result (AreSaid source.now pieces.new.items) }
{
    pieces.push(Piece {
        of,
        word,
        is_marked,
    })?;
    Ok(())
}
