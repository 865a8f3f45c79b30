//! Why something differs between invocations, in words.

/// Why something differs between invocations.
#[derive(Clone, Copy)]
pub enum Reason {
    /// Some invocations may return at the statement.
    Returns,
    /// Some invocations may be discarded at the statement.
    Discards,
    /// Some invocations may leave a switch at the statement.
    LeavesSwitch,
    /// Some invocations may leave a loop at the statement.
    LeavesLoop,
    /// Some invocations may go on to the next round of a loop at the statement.
    SkipsRound,
    /// Invocations may take different branches.
    Branches,
    /// Invocations may take different cases of a switch.
    Cases,
    /// Invocations may leave a loop at different times.
    Rounds,
    /// A derivative.
    Derivative,
    /// A sampled value.
    Sample,
    /// The result of an atomic operation.
    Atomic,
    /// The result of a ray query.
    RayQuery,
    /// The result of a subgroup operation.
    Subgroup,
    /// The result of a call.
    Call,
    /// A value that differs for another reason.
    Differs,
    /// A value that is read from memory of the workgroup.
    WorkGroupMemory,
    /// A value that is read from a storage buffer.
    Storage,
    /// A value that is read from a storage texture.
    StorageTexture,
    /// A value that is read from a private variable.
    PrivateVariable,
    /// A value that is read from other memory.
    Memory,
    /// An argument of an entry point.
    OwnValue,
    /// Only some invocations may compute the value.
    ComputedApart,
    /// Callers may pass different values.
    PassedValues,
    /// Callers may pass pointers to different values.
    PointedValues,
    /// The value is returned.
    ReturnedValues,
    /// Invocations may return at different statements.
    ReturnsElsewhere,
    /// Only some invocations may make the call.
    CalledApart,
    /// The value is passed to a function.
    Passed,
    /// The pointer may lead to different memory.
    ChosenMemory,
}

impl Reason {
    /// Returns what is said of a statement.
    fn statement_words(self) -> &'static str {
        match self {
            Reason::Returns => "some invocations may return here, and others not",
            Reason::Discards => "some invocations may be discarded here, and others not",
            Reason::LeavesSwitch => "some invocations may leave the switch here, and others not",
            Reason::LeavesLoop =>
                "some invocations may leave the loop here, and others go on to the next round",
            Reason::SkipsRound =>
                "some invocations may skip the rest of this round, and others not",
            Reason::ReturnsElsewhere => "some invocations may return here, and others elsewhere",
            Reason::CalledApart => "some invocations may make this call, and others not",
            Reason::Branches =>
                "may differ between invocations, which then take different branches",
            Reason::Cases => "may differ between invocations, which then take different cases",
            Reason::Rounds =>
                "may differ between invocations, which then leave the loop at different times",
            _ => "may differ between invocations",
        }
    }

    /// Returns what is said of memory.
    fn memory_words(self) -> &'static str {
        match self {
            Reason::WorkGroupMemory => "workgroup memory, which other invocations may have written",
            Reason::Storage => "writable storage, which other invocations may have written",
            Reason::StorageTexture =>
                "writable storage texture, which other invocations may have written",
            Reason::PrivateVariable => "private variable, which may differ between invocations",
            Reason::Memory => "memory that may differ between invocations",
            Reason::ChosenMemory => "this place may differ between invocations",
            other => other.statement_words(),
        }
    }

    /// Returns what is said of it.
    pub fn words(self) -> &'static str {
        match self {
            Reason::Derivative => "derivatives may differ between invocations",
            Reason::Sample => "sampled values may differ between invocations",
            Reason::Atomic => "results of atomic operations may differ between invocations",
            Reason::RayQuery => "results of ray queries may differ between invocations",
            Reason::Subgroup => "results of subgroup operations may differ between invocations",
            Reason::Call => "this call may return different values",
            Reason::OwnValue => "each invocation has its own value",
            Reason::ComputedApart => "some invocations may compute this, and others not",
            Reason::PassedValues => "may be passed different values",
            Reason::PointedValues => "may point to different values",
            Reason::ReturnedValues => "may return different values",
            Reason::Passed => "is passed, and may differ between invocations",
            other => other.memory_words(),
        }
    }
}
