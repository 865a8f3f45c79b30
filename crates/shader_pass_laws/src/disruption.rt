//! Laws: the recursion over the blocks by which the pass looks for non-uniform control flow decides disruption, for all bodies, origins and
//! functions that kill. Each is the contract of a function that does nothing.
ghost use Rattle.shader_pass_laws.specs.FlowLaws.{PassFindsKills, PassFindsViolations, PassIsLeast};

/// States that the recursion has a disruptor exactly at the path points that are disrupted, and exits of exactly the statements that exit.
pub fn pass_is_least()
    ensures { PassIsLeast }
{}

/// States that the recursion finds a violation exactly if an expression that needs undisrupted flow is emitted in disrupted flow.
pub fn pass_finds_violations()
    ensures { PassFindsViolations }
{}

/// States that a body kills by the recursion exactly if it has a disrupted `Kill` or calls a function that kills.
pub fn pass_finds_kills()
    ensures { PassFindsKills }
{}
