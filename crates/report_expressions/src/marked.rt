//! A line as text, and the columns of the marked operand.
ghost use Rattle.std.specs.Prelude.{◌≡◌, ◌+◌, ◌≤◌, ◌<◌, IfOk, None, OnOk, length, max, string_bytes, take};
ghost use Rattle.std.specs.Str.{chars, encode_utf8_all};
ghost use Rattle.report_expressions.specs.Parts.{AreParts};
ghost use Rattle.report_expressions.specs.Pieces.{AreSaid};
ghost use Rattle.report_expressions.specs.Texts.{AreTexts, IsLine, IsMark, IsShownAs, IsTextOf};

use crate::line::Source;
use crate::operands::Parent;
use crate::parts::Part;
use crate::pieces::{Piece, Word};
use crate::says::say;
use crate::statements::{add_core, add_start, line_end};
use crate::texts::word_text;
use crate::writing::{Shown, write_parts};
use report_columns::columns_of;
use std::alloc::{AllocError, Global};

/// A text, and the columns of what is marked in it. A column is one character.
#[derive(Drop)]
pub struct MarkedText {
    pub text: String,
    /// The column of the first marked character.
    pub begin: usize,
    /// The column behind the last marked character.
    pub end: usize,
}

/// The most expressions that are shown within one another.
const MOST_DEPTH: u32 = 6;

/// The number of handles.
const ALL: usize = 4_294_967_296;

/// Adds the pieces of some parts of the line.
#[tactic(auto, using(crate::proofs::ReachLemmas::are_reached_from))]
fn add_pieces(
    alloc: Global,
    source: &Source,
    pieces: &mut Vec<Piece>,
    parts: &[Part],
    shown: Shown,
) -> Result<(), AllocError>
    requires parts { AreParts source.now None parts.now }
    requires said { AreSaid source.now pieces.old.items }
    ensures { OnOk result (AreSaid source.now pieces.new.items) }
{
    let parent = Parent::Line(&source.line);
    write_parts(alloc, source, pieces, None, &parent, parts, ALL, shown)
}

/// Returns the pieces of a line, of which operands are shown to a depth.
fn pieces_of(alloc: Global, source: &Source, depth: u32) -> Result<Vec<Piece>, AllocError>
    ensures { IfOk result (λ pieces. AreSaid source.now pieces.items) }
{
    let mut start = Vec::new(alloc);
    add_start(source, &mut start)?;
    let mut core = Vec::new(alloc);
    add_core(alloc, source, &mut core)?;
    let mut pieces = Vec::new(alloc);
    let unmarked = Shown {
        depth,
        is_marked: false,
    };
    add_pieces(alloc, source, &mut pieces, start.as_slice(), unmarked)?;
    let shown = Shown {
        depth,
        is_marked: source.way.is_empty(),
    };
    add_pieces(alloc, source, &mut pieces, core.as_slice(), shown)?;
    say(
        source,
        &mut pieces,
        None,
        Word::Fixed(line_end(&source.line)),
        false,
    )?;
    Ok(pieces)
}

/// Returns the text of pieces, and the columns of those that are marked.
fn joined(alloc: Global, source: &Source, pieces: &[Piece]) -> Result<MarkedText, AllocError>
    ensures texts { IfOk result (λ marked. AreTexts source.now pieces.now (string_bytes marked.text)) }
    ensures mark { IfOk result IsMark }
{
    let mut text = String::new(alloc);
    let mut at = 0usize;
    let mut begin = 0usize;
    let mut end = 0usize;
    let mut has_mark = false;
    for piece in pieces {
        let word = word_text(alloc, source, &piece.word)?;
        let next = at.saturating_add(columns_of(word.as_str()));
        text.push_str(word.as_str())?;
        if piece.is_marked {
            begin = if has_mark { begin } else { at };
            end = next;
            has_mark = true;
        }
        at = next;
    }
    Ok(MarkedText { text, begin, end })
}

/// Returns the text of a line of which operands are shown to a depth.
#[tactic(auto, using(crate::proofs::TextLemmas::is_text_of))]
fn text_at(alloc: Global, source: &Source, depth: u32) -> Result<MarkedText, AllocError>
    ensures text { IfOk result (λ marked. IsTextOf source.now (string_bytes marked.text)) }
    ensures mark { IfOk result IsMark }
{
    let pieces = pieces_of(alloc, source, depth)?;
    joined(alloc, source, pieces.as_slice())
}

/// Returns the first characters of a text.
fn first_characters(alloc: Global, text: &str, count: usize) -> Result<String, AllocError>
    ensures { IfOk result (λ first. string_bytes first ≡ encode_utf8_all (take count (chars text.now))) }
{
    text.chars().take(count).collect(alloc)
}

/// Returns a text that is cut to so many columns, of which the last three are dots.
fn cut(alloc: Global, marked: &MarkedText, columns: usize) -> Result<MarkedText, AllocError>
    requires mark { IsMark marked.now }
    requires long { columns < length (chars (string_bytes marked.now.text)) }
    ensures shown { IfOk result (λ cut. IsShownAs (string_bytes marked.now.text) (string_bytes cut.text)) }
    ensures columns { IfOk result (λ cut. length (chars (string_bytes cut.text)) ≤ max columns 3) }
    ensures mark { IfOk result IsMark }
{
    let kept = columns.saturating_sub(3);
    let mut text = first_characters(alloc, marked.text.as_str(), kept)?;
    text.push_str("...")?;
    let end = if marked.end > kept {
        kept.saturating_add(3)
    } else {
        marked.end
    };
    let begin = marked.begin.min(kept);
    Ok(MarkedText { text, begin, end })
}

/// Returns the text of a line of at most so many columns, or three if that is less, with the columns of the marked operand, or of the whole
/// line without what begins and ends it.
///
/// Operands are shown to depth 6, or less deep until the line fits; three dots stand for what is left out. Operands on the way to the
/// marked one are never left out, but a line that doesn't fit at depth 1 is cut. An operand that isn't earlier than what it is an operand
/// of is shown by its number.
#[tactic(auto, using(crate::proofs::TextLemmas::is_line_whole, crate::proofs::TextLemmas::is_line_cut))]
pub fn text_of_line(
    alloc: Global,
    source: &Source,
    columns: usize,
) -> Result<MarkedText, AllocError>
    ensures line { IfOk result (λ marked. IsLine source.now (string_bytes marked.text)) }
    ensures columns { IfOk result (λ marked. length (chars (string_bytes marked.text)) ≤ max columns 3) }
    ensures mark { IfOk result IsMark }
{
    for step in 1..MOST_DEPTH {
        let marked = text_at(alloc, source, MOST_DEPTH + 1 - step)?;
        if columns_of(marked.text.as_str()) <= columns {
            return Ok(marked);
        }
    }
    let marked = text_at(alloc, source, 1)?;
    if columns_of(marked.text.as_str()) <= columns {
        return Ok(marked);
    }
    cut(alloc, &marked, columns)
}
