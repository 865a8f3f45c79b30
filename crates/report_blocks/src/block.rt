//! The blocks of diagnostics.
ghost use Rattle.std.specs.Prelude.{◌≡◌, ◌&&◌, IfOk, not, string_bytes};
ghost use Rattle.report_blocks.specs.Blocks.{AreBlocks, IsBlock, IsBlockAt, IsExplanation, IsInputBlock, IsJsonText, IsLocatedText};
ghost use Rattle.report_blocks.specs.Blocks.{block_text, head_line, shown_place};
ghost use Rattle.report_blocks.specs.Causes.{is_repeated};

use crate::advice::{advice_text, sentence_lines};
use crate::causes::Causes;
use crate::detail::Detail;
use crate::excerpts::{excerpts_of, global_excerpt, repeated_excerpt};
use crate::json_excerpts::json_excerpt;
use crate::places::{json_words, owner_words};
use crate::same::is_repeated;
use report_diagnostics::{Code, Diagnostic};
use report_places::{BodyPlace, place_text};
use shader_ir::Module;
use std::alloc::{AllocError, Global};

/// Returns the first line of a block: severity, code and message.
fn head_line(alloc: Global, diagnostic: &Diagnostic) -> Result<String, AllocError>
    ensures { IfOk result (λ text. string_bytes text ≡ head_line diagnostic.now) }
{
    let severity = diagnostic.severity.word();
    let code = diagnostic.code.code();
    let message = diagnostic.message.as_str();
    format!(in alloc; "{severity}[{code}]: {message}\n")
}

/// Returns the place of a diagnostic if excerpts show it: the function or entry point of a statement or an expression.
fn shown_place(diagnostic: &Diagnostic) -> Option<BodyPlace>
    ensures { result ≡ shown_place diagnostic.now.code diagnostic.now.location.body }
{
    match diagnostic.code {
        Code::Input(_) | Code::Module(_) | Code::Layout(_) => None,
        Code::Type(_) | Code::Resource(_) | Code::Flow(_) | Code::TooManyUses => {
            match diagnostic.location.body {
                Some(BodyPlace::ConstExpression(_)) | None => None,
                Some(place) => Some(place),
            }
        }
    }
}

/// Returns the line that says where in the JSON a diagnostic stands, with the item that it belongs to, and an excerpt.
fn json_text(
    alloc: Global,
    input: &[u8],
    diagnostic: &Diagnostic,
    owner: Option<String>,
    other_excerpt: &str,
) -> Result<String, AllocError>
    ensures { IfOk result (λ text. IsJsonText diagnostic.now (string_bytes text)) }
{
    let words = json_words(alloc, &diagnostic.location, owner)?;
    let excerpt = json_excerpt(alloc, input, diagnostic)?;
    format!(in alloc; "  --> {words}\n{excerpt}{other_excerpt}")
}

/// Returns the line that says where a diagnostic stands, and the excerpts.
fn located_text(
    alloc: Global,
    input: &[u8],
    module: &Module,
    diagnostic: &Diagnostic,
    causes: &Causes<'_>,
    is_repeated: bool,
    first: Code,
) -> Result<String, AllocError>
    ensures { IfOk result (λ text. IsLocatedText «module».now diagnostic.now (string_bytes text)) }
{
    let location = &diagnostic.location;
    match shown_place(diagnostic) {
        Some(place) => {
            let words = place_text(alloc, module, &place, &location.statement)?;
            let excerpts = if is_repeated {
                repeated_excerpt(alloc, module, diagnostic, first, place)?
            } else {
                excerpts_of(alloc, module, diagnostic, causes, place)?
            };
            format!(in alloc; "  --> {words}\n{excerpts}")
        }
        None => {
            let owner = owner_words(alloc, module, location)?;
            let excerpt = global_excerpt(alloc, module, diagnostic)?;
            json_text(alloc, input, diagnostic, owner, excerpt.as_str())
        }
    }
}

/// Returns the line with the sentence of a diagnostic's code, which may break, or nothing if it isn't explained.
fn explanation(
    alloc: Global,
    diagnostic: &Diagnostic,
    is_explained: bool,
) -> Result<String, AllocError>
    ensures { IfOk result (λ text. IsExplanation is_explained diagnostic.now (string_bytes text)) }
{
    if !is_explained {
        return Ok(String::new(alloc));
    }
    let word = diagnostic.code.code();
    let sentence = sentence_lines(alloc, diagnostic.code)?;
    format!(in alloc; "   = {word}: {sentence}\n")
}

/// Returns the parts of a block behind an empty line and the first line.
fn block_text(
    alloc: Global,
    diagnostic: &Diagnostic,
    place: &str,
    advice: &str,
    explanation: &str,
) -> Result<String, AllocError>
    ensures { IfOk result (λ text. string_bytes text ≡ block_text diagnostic.now place.now advice.now explanation.now) }
{
    let head = head_line(alloc, diagnostic)?;
    format!(in alloc; "\n{head}{place}{advice}{explanation}")
}

/// Returns the block of a diagnostic, behind an empty line. It doesn't show the causes if they are repeated, and then isn't explained. The
/// diagnostic that shows them has the code `first`.
fn block_of(
    alloc: Global,
    input: &[u8],
    module: &Module,
    diagnostic: &Diagnostic,
    detail: Detail,
    is_repeated: bool,
    first: Code,
) -> Result<String, AllocError>
    ensures { IfOk result (λ text.
        IsBlock «module».now (detail.explains && not is_repeated) diagnostic.now (string_bytes text)) }
{
    let causes = Causes {
        related: diagnostic.related.as_slice(),
        omitted: diagnostic.omitted,
        shows_all: detail.shows_all,
    };
    let place = located_text(
        alloc,
        input,
        module,
        diagnostic,
        &causes,
        is_repeated,
        first,
    )?;
    let advice = advice_text(alloc, diagnostic, &causes, is_repeated, first)?;
    let explanation = explanation(alloc, diagnostic, detail.explains && !is_repeated)?;
    block_text(
        alloc,
        diagnostic,
        place.as_str(),
        advice.as_str(),
        explanation.as_str(),
    )
}

/// Returns the block of the diagnostic of an input that is no module, behind an empty line.
pub fn input_block(
    alloc: Global,
    input: &[u8],
    diagnostic: &Diagnostic,
    explains: bool,
) -> Result<String, AllocError>
    ensures { IfOk result (λ text. IsInputBlock explains diagnostic.now (string_bytes text)) }
{
    let causes = Causes {
        related: diagnostic.related.as_slice(),
        omitted: diagnostic.omitted,
        shows_all: true,
    };
    let place = json_text(alloc, input, diagnostic, None, "")?;
    let advice = advice_text(alloc, diagnostic, &causes, false, diagnostic.code)?;
    let explanation = explanation(alloc, diagnostic, explains)?;
    block_text(
        alloc,
        diagnostic,
        place.as_str(),
        advice.as_str(),
        explanation.as_str(),
    )
}

/// Returns the block of the diagnostic at an index, or nothing if there is none. If it repeats causes, the one that shows them has the code
/// `first`.
fn block_at(
    alloc: Global,
    input: &[u8],
    module: &Module,
    diagnostics: &[Diagnostic],
    detail: Detail,
    index: usize,
    first: Code,
) -> Result<String, AllocError>
    ensures { IfOk result (λ text. IsBlockAt «module».now detail.explains diagnostics.now index (string_bytes text)) }
{
    let is_repeated = is_repeated(diagnostics, index);
    match diagnostics.get(index) {
        Some(diagnostic) => block_of(alloc, input, module, diagnostic, detail, is_repeated, first),
        None => Ok(String::new(alloc)),
    }
}

/// Returns the code of the diagnostic that shows the causes of the one at an index, where `last` shows those of the one before it.
fn shown_by(diagnostics: &[Diagnostic], index: usize, last: Code) -> Code {
    if is_repeated(diagnostics, index) {
        return last;
    }
    match diagnostics.get(index) {
        Some(diagnostic) => diagnostic.code,
        None => last,
    }
}

/// Returns a block for each of the diagnostics at some indexes. Of those in sequence with the same causes, the first shows them.
pub fn blocks_of(
    alloc: Global,
    input: &[u8],
    module: &Module,
    diagnostics: &[Diagnostic],
    detail: Detail,
    indexes: &[usize],
) -> Result<String, AllocError>
    ensures { IfOk result (λ text. AreBlocks «module».now detail.explains diagnostics.now indexes.now (string_bytes text)) }
{
    let mut text = String::new(alloc);
    let mut first = Code::TooManyUses;
    for index in indexes {
        first = shown_by(diagnostics, *index, first);
        let block = block_at(alloc, input, module, diagnostics, detail, *index, first)?;
        text.push_str(block.as_str())?;
    }
    Ok(text)
}
