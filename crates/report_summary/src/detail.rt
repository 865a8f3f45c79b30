//! How much of an accepted module is printed.

use crate::flow::FlowRules;
use report_diagnostics::Text;
use shader_interface::WorkgroupSize;

/// What the text on an accepted module is printed with.
#[derive(Clone, Copy)]
pub struct Detail<'a> {
    /// The rules by which control flow was checked.
    pub rules: FlowRules,
    /// True if each entry point has a block, with all global variables and pairs.
    pub shows_all: bool,
    /// Lines for the end of the block on each of the first entry points, as why its result may differ. Other blocks have none.
    pub reasons: &'a [Text],
    /// The sizes of the work groups of the first entry points.
    pub groups: &'a [WorkgroupSize],
}
