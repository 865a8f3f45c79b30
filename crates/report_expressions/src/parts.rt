//! The parts of a text: its words, and the operands between them.
ghost use Rattle.std.specs.Prelude.{OnOk};
ghost use Rattle.report_expressions.specs.Parts.{AreParts, IsPart, IsSpeaker};
ghost use Rattle.report_expressions.specs.Pieces.{IsSaidBy};

use crate::line::Source;
use crate::pieces::Word;
use crate::roles::Role;
use std::alloc::AllocError;

/// A part of a text.
#[derive(Clone, Copy)]
pub enum Part {
    /// A word.
    Word(Word),
    /// The operand at a position, as it stands there.
    Operand(usize, Role),
}

/// Adds a part.
#[tactic(auto, using(crate::proofs::SaidLemmas::are_parts_push))]
fn add(
    source: &Source,
    of: Option<u32>,
    parts: &mut Vec<Part>,
    part: Part,
) -> Result<(), AllocError>
    requires part { IsPart source.now of part }
    requires parts { AreParts source.now of parts.old.items }
    ensures { OnOk result (AreParts source.now of parts.new.items) }
{
    parts.push(part)?;
    Ok(())
}

/// Adds a word that an expression, or the line, says.
pub fn add_word(
    source: &Source,
    of: Option<u32>,
    parts: &mut Vec<Part>,
    word: Word,
) -> Result<(), AllocError>
    requires word { IsSaidBy source.now of word }
    requires parts { AreParts source.now of parts.old.items }
    ensures { OnOk result (AreParts source.now of parts.new.items) }
{
    add(source, of, parts, Part::Word(word))
}

/// Adds a word or a sign of WGSL, if it isn't empty.
pub fn add_fixed(
    source: &Source,
    of: Option<u32>,
    parts: &mut Vec<Part>,
    word: &'static str,
) -> Result<(), AllocError>
    requires speaker { IsSpeaker source.now of }
    requires parts { AreParts source.now of parts.old.items }
    ensures { OnOk result (AreParts source.now of parts.new.items) }
{
    if word.is_empty() {
        return Ok(());
    }
    add_word(source, of, parts, Word::Fixed(word))
}

/// Adds the operand at a position.
pub fn add_operand(
    source: &Source,
    of: Option<u32>,
    parts: &mut Vec<Part>,
    position: usize,
    role: Role,
) -> Result<(), AllocError>
    requires parts { AreParts source.now of parts.old.items }
    ensures { OnOk result (AreParts source.now of parts.new.items) }
{
    add(source, of, parts, Part::Operand(position, role))
}
