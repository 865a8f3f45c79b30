//! The verdict on uniform flow in a report as JSON.
ghost use Rattle.std.specs.Prelude.{OnOk, option_map};
ghost use Rattle.report_answers.specs.Verdicts.{verdict_members, verdict_tokens};
ghost use Rattle.report_json.specs.Tokens.{Adds};

use json::Writer;
use report_json::{Member, WriteJson, WriteMembers, write_object};
use report_places::place_of_body;
use shader_uniformity::{BodyLocation, Uniformity};
use std::alloc::{AllocError, Global};

/// The verdict as JSON: where control flow is at fault, if it is.
#[derive(Clone, Copy)]
struct FlowVerdict(Option<BodyLocation>);

impl WriteJson for FlowVerdict {
    ghost tokens = { λ verdict. verdict_tokens verdict.0 };

    #[tactic(auto, unfolding(crate::specs::Verdicts::verdict_tokens))]
    fn write_json(&self, alloc: Global, writer: &mut Writer) -> Result<(), AllocError> {
        match self.0 {
            None => write_object(alloc, writer, &Member("accepted", &true)),
            Some(location) => {
                let place = place_of_body(location);
                let members = (Member("accepted", &false), Member("place", &place));
                write_object(alloc, writer, &members)
            }
        }
    }
}

/// Writes the verdict as a member of a JSON object, or nothing if control flow wasn't checked.
///
/// # Errors
///
/// `AllocError` if an allocation fails.
pub fn write_verdict(
    alloc: Global,
    writer: &mut Writer,
    found: Option<&Uniformity>,
) -> Result<(), AllocError>
    ensures { OnOk result (Adds writer.old writer.new (verdict_members (option_map (λ found. found.now) found.entry))) }
{
    match found {
        Some(found) => {
            let verdict = FlowVerdict(found.fault);
            Member("uniformity_verdict", &verdict).write_members(alloc, writer)
        }
        None => Ok(()),
    }
}
