//! The text on an accepted module: the verdict with counts, a block for each entry point, and the verdict again.
ghost use Rattle.std.specs.Prelude.{◌≡◌, IfOk, length, slice_get, string_bytes};
ghost use Rattle.report_model.specs.Analyzed.{info_of};
ghost use Rattle.report_summary.specs.Summaries.{AreBlocks, IsBlocksPart, IsSummaryText, counted, counts_line, first_line, last_line};
ghost use Rattle.report_summary.specs.Summaries.{more_line, place_count, place_of, reason_at, separator, shown_count, verdict_line};

use crate::block::{Checked, block_of};
use crate::detail::Detail;
use crate::reached::function_bodies;
use crate::resources::resource_count;
use report_diagnostics::Text;
use report_model::Analyzed;
use shader_interface::ResourceBinding;
use shader_ir::Module;
use shader_uniformity::BodyLocation;
use std::alloc::{AllocError, Global};

/// The most entry points or functions that get a block, unless all do.
pub const MOST_BLOCKS: usize = 8;

/// Returns how many things there are and what they are behind a text, or nothing if there are none.
#[tactic(auto, unfolding(crate::specs::Summaries::counted))]
fn counted(alloc: Global, before: &str, count: usize, word: &str) -> Result<String, AllocError>
    ensures { IfOk result (λ text. string_bytes text ≡ counted before.now count word.now) }
{
    if count == 0 {
        Ok(String::new(alloc))
    } else if count == 1 {
        format!(in alloc; "{before}1 {word}")
    } else {
        format!(in alloc; "{before}{count} {word}s")
    }
}

/// Returns what stands between the number of entry points and that of functions.
fn separator(points: usize) -> &'static str
    ensures { result.now ≡ separator points }
{
    if points == 0 { " " } else { ", " }
}

/// Returns the line with the verdict and the numbers of entry points, functions and resources, of which some aren't 0.
#[tactic(auto, unfolding(crate::specs::Summaries::counts_line))]
fn counts_line(
    alloc: Global,
    points: usize,
    functions: usize,
    resources: usize,
) -> Result<String, AllocError>
    ensures { IfOk result (λ text. string_bytes text ≡ counts_line points functions resources) }
{
    let first = counted(alloc, " ", points, "entry point")?;
    let second = counted(alloc, separator(points), functions, "function")?;
    let third = counted(alloc, ", ", resources, "resource")?;
    format!(in alloc; "accepted:{first}{second}{third}\n")
}

/// Returns the line with the verdict and what there is in the module.
#[tactic(auto, unfolding(crate::specs::Summaries::verdict_line))]
fn verdict_line(
    alloc: Global,
    points: usize,
    functions: usize,
    resources: usize,
) -> Result<String, AllocError>
    ensures { IfOk result (λ text. string_bytes text ≡ verdict_line points functions resources) }
{
    if points == 0 && functions == 0 {
        String::from_str(alloc, "accepted: no functions\n")
    } else {
        counts_line(alloc, points, functions, resources)
    }
}

/// Returns the first line on a module.
#[tactic(auto, unfolding(crate::specs::Summaries::first_line))]
fn first_line(
    alloc: Global,
    module: &Module,
    analyzed: &Analyzed,
    bindings: &[Option<ResourceBinding>],
) -> Result<String, AllocError>
    ensures { IfOk result (λ text. string_bytes text ≡ first_line «module».now (info_of analyzed.now) bindings.now) }
{
    let resources = resource_count(analyzed, bindings);
    let (points, functions) = (module.entry_points.len(), module.functions.len());
    verdict_line(alloc, points, functions, resources)
}

/// Returns the last line.
#[tactic(auto, unfolding(crate::specs::Summaries::last_line))]
fn last_line(alloc: Global) -> Result<String, AllocError>
    ensures { IfOk result (λ text. string_bytes text ≡ last_line) }
{
    String::from_str(alloc, "accepted\n")
}

/// Returns how many of so many entry points or functions get a block.
fn shown_count(count: usize, shows_all: bool) -> usize
    ensures { result ≡ shown_count shows_all count }
{
    if shows_all {
        count
    } else {
        MOST_BLOCKS.min(count)
    }
}

/// Returns the line that says how many entry points or functions get no block, or nothing if all get one.
fn more_line(alloc: Global, shown: usize, count: usize) -> Result<String, AllocError>
    ensures { IfOk result (λ text. string_bytes text ≡ more_line shown count) }
{
    if count <= shown {
        return Ok(String::new(alloc));
    }
    let more = count - shown;
    format!(in alloc; "... and {more} more\n")
}

/// Returns how many entry points a module has, or how many functions if it has none.
fn place_count(module: &Module) -> usize
    ensures { result ≡ place_count «module».now }
{
    let points = module.entry_points.len();
    if points == 0 {
        module.functions.len()
    } else {
        points
    }
}

/// Returns the entry point of a number, or the function of that number in a module without entry points.
fn place_of(module: &Module, index: usize) -> BodyLocation
    ensures { result ≡ place_of «module».now index }
{
    let points = module.entry_points.len();
    if points == 0 {
        BodyLocation::Function(index)
    } else {
        BodyLocation::EntryPoint(index)
    }
}

/// Returns the reason for the end of the block on the entry point of a number.
fn reason_at(reasons: &[Text], index: usize) -> &str
    ensures { result.now ≡ reason_at (slice_get reasons.now index) }
{
    match reasons.get(index) {
        Some(reason) => reason.as_str(),
        None => "",
    }
}

/// Returns a block for each of the first places.
fn first_blocks(
    alloc: Global,
    module: &Module,
    analyzed: &Analyzed,
    bindings: &[Option<ResourceBinding>],
    checked: &Checked<'_>,
    count: usize,
) -> Result<String, AllocError>
    ensures { IfOk result (λ text. AreBlocks «module».now checked.now.detail.groups.now checked.now.detail.reasons.now count
        (string_bytes text)) }
{
    let mut text = String::new(alloc);
    for index in 0..count {
        let place = place_of(module, index);
        let reason = reason_at(checked.detail.reasons, index);
        let block = block_of(alloc, module, analyzed, bindings, checked, place, reason)?;
        text.push_str(block.as_str())?;
    }
    Ok(text)
}

/// Returns the blocks on the first entry points, or on the first functions of a module without entry points, behind an empty line. Returns
/// nothing on a module without functions.
fn blocks_text(
    alloc: Global,
    module: &Module,
    analyzed: &Analyzed,
    bindings: &[Option<ResourceBinding>],
    detail: Detail<'_>,
) -> Result<String, AllocError>
    ensures { IfOk result (λ text. IsBlocksPart «module».now detail.entry.groups.now detail.entry.reasons.now detail.entry.shows_all
        (string_bytes text)) }
{
    let count = place_count(module);
    if count == 0 {
        return Ok(String::new(alloc));
    }
    let functions = function_bodies(alloc, module)?;
    let checked = Checked { detail, functions };
    let shown = shown_count(count, detail.shows_all);
    let blocks = first_blocks(alloc, module, analyzed, bindings, &checked, shown)?;
    let more = more_line(alloc, shown, count)?;
    format!(in alloc; "\n{blocks}{more}")
}

/// Returns the text on an accepted module: a line with the verdict, and with the numbers of entry points, of functions, and of resources
/// that entry points use; a block for each entry point, or each function if there is no entry point, or else for each of the first 8, and a
/// line that says how many more there are; what else is printed of the module; and the verdict again. An empty line stands before the
/// blocks and before the last line.
///
/// `bindings` has the binding of each global variable, by position. One beyond them isn't bound.
///
/// # Errors
///
/// `AllocError` if an allocation fails, or a function has 2^32 statements.
pub fn summary_text(
    alloc: Global,
    module: &Module,
    analyzed: &Analyzed,
    bindings: &[Option<ResourceBinding>],
    detail: Detail<'_>,
    sections: &str,
) -> Result<String, AllocError>
    ensures { IfOk result (λ text. IsSummaryText «module».now detail.entry.groups.now detail.entry.reasons.now detail.entry.shows_all
        (info_of analyzed.now) bindings.now sections.now (string_bytes text)) }
{
    let verdict = first_line(alloc, module, analyzed, bindings)?;
    let blocks = blocks_text(alloc, module, analyzed, bindings, detail)?;
    let last = last_line(alloc)?;
    format!(in alloc; "{verdict}{blocks}{sections}\n{last}")
}
