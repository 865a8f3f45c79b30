//! The reports on functions and modules, and their text.
ghost use Rattle.std.specs.Prelude.{Some};
ghost use Rattle.sample_reports.specs.Texts.{fault_text, function_text, list_text, pair_text};
ghost use Rattle.sample_reports.specs.Texts.{location_text, location_report_text, report_text, use_text};

use shader_info::{AnalysisLocation, GlobalUse};
use shader_ir::Items;
use std::fmt;

/// The report on a function.
#[derive(Drop)]
pub struct FunctionReport {
    /// The uses of each global, by its position.
    pub uses: Items<GlobalUse>,
    /// The positions of each global image and global sampler that are used together, in ascending order.
    pub pairs: Items<(usize, usize)>,
    /// The reference count of each expression, by its position.
    pub counts: Items<usize>,
    /// True if the function's result may differ among invocations.
    pub varies: bool,
}

/// The report on the function at a location.
#[derive(Drop)]
pub struct LocationReport {
    pub location: AnalysisLocation,
    pub report: FunctionReport,
}

/// The kind of a fault.
#[derive(Clone, Copy, Debug, PartialEq, Eq)]
pub enum FaultKind {
    /// An expression that can't be typed, indexed or sampled so.
    Expression,
    /// A non-uniform control flow violation.
    NonUniformControlFlow,
    /// An expression whose reference count exceeds every `usize`.
    CountFull,
}

/// The report on a module.
#[derive(Drop)]
pub enum ModuleReport {
    /// The reports on all functions, and then on all entry points, in order, of a module without a fault.
    Accepted(Items<LocationReport>),
    /// The first faulty location, and the kind of one of its faults.
    Refused(AnalysisLocation, FaultKind),
}

/// The bits of uses, separated by commas.
#[derive(Clone, Copy)]
struct UsesText<'a>(&'a [GlobalUse]);

impl fmt::Display for UsesText<'_> {
    ghost output = { λ text. Some (list_text use_text text.0.now) };

    fn fmt<W: fmt::Write>(&self, f: &mut fmt::Formatter<W>) -> fmt::Result {
        let Some((first, others)) = self.0.split_first() else {
            return f.write_str("-");
        };
        write!(f, "{}", first.0)?;
        for other in others {
            write!(f, ",{}", other.0)?;
        }
        Ok(())
    }
}

/// Pairs of positions, separated by commas.
#[derive(Clone, Copy)]
struct PairsText<'a>(&'a [(usize, usize)]);

impl fmt::Display for PairsText<'_> {
    ghost output = { λ text. Some (list_text pair_text text.0.now) };

    fn fmt<W: fmt::Write>(&self, f: &mut fmt::Formatter<W>) -> fmt::Result {
        let Some((first, others)) = self.0.split_first() else {
            return f.write_str("-");
        };
        write!(f, "{}/{}", first.0, first.1)?;
        for other in others {
            write!(f, ",{}/{}", other.0, other.1)?;
        }
        Ok(())
    }
}

/// Counts, separated by commas.
#[derive(Clone, Copy)]
struct CountsText<'a>(&'a [usize]);

impl fmt::Display for CountsText<'_> {
    ghost use Rattle.std.specs.Fmt.{decimal};

    ghost output = { λ text. Some (list_text decimal text.0.now) };

    fn fmt<W: fmt::Write>(&self, f: &mut fmt::Formatter<W>) -> fmt::Result {
        let Some((first, others)) = self.0.split_first() else {
            return f.write_str("-");
        };
        write!(f, "{first}")?;
        for other in others {
            write!(f, ",{other}")?;
        }
        Ok(())
    }
}

impl fmt::Display for FunctionReport {
    ghost output = { λ report. Some (function_text report) };

    fn fmt<W: fmt::Write>(&self, f: &mut fmt::Formatter<W>) -> fmt::Result {
        let uses = UsesText(self.uses.as_slice());
        let pairs = PairsText(self.pairs.as_slice());
        let counts = CountsText(self.counts.as_slice());
        let word = if self.varies {
            "non-uniform"
        } else {
            "uniform"
        };
        write!(f, "uses {uses} pairs {pairs} counts {counts} result {word}")
    }
}

/// A location: the kind of the item there, and its number.
#[derive(Clone, Copy)]
struct LocationText(AnalysisLocation);

impl fmt::Display for LocationText {
    ghost output = { λ text. Some (location_text text.0) };

    fn fmt<W: fmt::Write>(&self, f: &mut fmt::Formatter<W>) -> fmt::Result {
        match self.0 {
            AnalysisLocation::ConstExpression(handle) => write!(f, "const {}", handle.index()),
            AnalysisLocation::Function(handle) => write!(f, "fn {}", handle.index()),
            AnalysisLocation::EntryPoint(index) => write!(f, "entry {index}"),
        }
    }
}

impl fmt::Display for LocationReport {
    ghost output = { λ report. Some (location_report_text report) };

    fn fmt<W: fmt::Write>(&self, f: &mut fmt::Formatter<W>) -> fmt::Result {
        write!(f, "{} {}", LocationText(self.location), self.report)
    }
}

/// Reports, separated by semicolons.
#[derive(Clone, Copy)]
struct ReportsText<'a>(&'a [LocationReport]);

impl fmt::Display for ReportsText<'_> {
    ghost use Rattle.std.specs.Prelude.{codes};
    ghost use Rattle.std.specs.List.{join_by};

    ghost output = { λ text. Some (join_by location_report_text (codes "; ") text.0.now) };

    fn fmt<W: fmt::Write>(&self, f: &mut fmt::Formatter<W>) -> fmt::Result {
        let Some((first, others)) = self.0.split_first() else {
            return Ok(());
        };
        write!(f, "{first}")?;
        for other in others {
            write!(f, "; {other}")?;
        }
        Ok(())
    }
}

impl fmt::Display for FaultKind {
    ghost output = { λ kind. Some (fault_text kind) };

    fn fmt<W: fmt::Write>(&self, f: &mut fmt::Formatter<W>) -> fmt::Result {
        match self {
            FaultKind::Expression => f.write_str("A1"),
            FaultKind::NonUniformControlFlow => f.write_str("A2"),
            FaultKind::CountFull => f.write_str("A3"),
        }
    }
}

impl fmt::Display for ModuleReport {
    ghost output = { λ report. Some (report_text report) };

    fn fmt<W: fmt::Write>(&self, f: &mut fmt::Formatter<W>) -> fmt::Result {
        match self {
            ModuleReport::Accepted(reports) => write!(f, "{}", ReportsText(reports.as_slice())),
            ModuleReport::Refused(location, kind) => {
                write!(f, "refused {} {kind}", LocationText(*location))
            }
        }
    }
}
