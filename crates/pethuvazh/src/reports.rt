//! Reports on modules.
ghost use Rattle.pethuvazh.specs.Reports.{EndsWith, IsEnd};

use crate::copies::copy;
use crate::flags::options_from;
use crate::status::ReportStatus;
use report_answers::{Report, Silent};
use std::alloc::Global;

/// Writes the report on an input into a buffer. Returns the status of the call.
fn report_into(
    alloc: Global,
    json: &[u8],
    flags: u32,
    text: &mut [u8],
    length: &mut usize,
) -> ReportStatus
    ensures { EndsWith flags json.now text.old text.new length.new result }
{
    *length = 0;
    let Some(options) = options_from(flags) else {
        return ReportStatus::BadFlags;
    };
    match Report::on(alloc, options, json, &mut Silent) {
        Ok(report) => {
            copy(report.text.as_slice(), text, length);
            ReportStatus::of(report.outcome)
        }
        Err(_) => ReportStatus::OutOfMemory,
    }
}

/// Writes the report on a module, which `json` has as JSON, into `text`, if it has room, and the length of the report into `length`.
///
/// The bits of `flags` are those of `options_from`. Returns a number of `ReportStatus`.
#[unsafe(no_mangle)]
pub extern "C" fn pethuvazh_report_into(
    alloc: Global,
    json: &[u8],
    flags: u32,
    text: &mut [u8],
    length: &mut usize,
) -> u32
    ensures { IsEnd flags json.now text.old text.new length.new result }
{
    report_into(alloc, json, flags, text, length).code()
}
