//! The sizes of work groups.

/// The number of invocations of a work group along an axis.
#[derive(Clone, Copy, Debug, PartialEq, Eq)]
pub enum AxisSize {
    /// This number.
    Count(u32),
    /// The value of the global expression at this position.
    Expression(u32),
    /// The JSON has neither.
    Unknown,
}

/// The numbers of invocations of a work group along its three axes.
#[derive(Clone, Copy, Debug, PartialEq, Eq)]
pub struct WorkgroupSize {
    pub x: AxisSize,
    pub y: AxisSize,
    pub z: AxisSize,
}
