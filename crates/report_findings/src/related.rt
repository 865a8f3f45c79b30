//! The causes of a violated need, as related places of its diagnostic.

ghost use Rattle.std.specs.Prelude.{◌≡◌, IfOk};
ghost use Rattle.shader_uniformity_causes.specs.Callers.{AreCallers};

use crate::reasons::Reason;
use crate::said::{Said, is_named, passed, said_of};
use crate::sites::{expression_location, expression_text_at, path_of, text_of};
use crate::stores::{call_position, passing_position, store_position, stored_text};
use report_diagnostics::{Location, Related, Text};
use report_names::{argument_text, local_text, name_text};
use report_places::{
    BodyPlace, Wanted, argument_pointer, expression_pointer, function_of, name_at, place_of_body,
    statement_at, statement_pointer,
};
use shader_arena::Handle;
use shader_ir::{Expression, Function, Items, Module, mark};
use shader_uniformity::{BodyLocation, Fact, Place, Rule, trace};
use shader_uniformity_causes::{Cause, PassedBy, causes_of, origin_of};
use shader_uniformity_needs::Violation;
use std::alloc::{AllocError, Global};

/// How many causes are kept at each end of a long chain.
const KEPT_AT_AN_END: usize = 50;

/// The most calls within one another through which what a call gives back is followed.
const MOST_CALLS: u32 = 64;

/// The causes of a violated need, from the place back to the source.
#[derive(Drop)]
pub struct Causes {
    pub related: Vec<Related>,
    /// How many are left out between those at both ends.
    pub omitted: usize,
    /// The implications from which all of them are made.
    pub chain: Vec<Cause>,
}

/// Returns the place of a statement at a position.
pub fn statement_location(
    alloc: Global,
    module: &Module,
    place: &BodyPlace,
    position: u32,
) -> Result<Location, AllocError> {
    let found = statement_at(alloc, module, place, &Wanted::At(position))?;
    let name = text_of(name_at(alloc, module, place)?);
    let way = match &found {
        Some(at) => at.path.steps.as_slice(),
        None => &[],
    };
    let pointer = Text::from(statement_pointer(alloc, place, way)?);
    Ok(Location::within_module(Some(*place), name, path_of(found), None, None, pointer))
}

/// Returns the place of an expression in the statement at a position, as that by which it decides.
fn condition_location(
    alloc: Global,
    module: &Module,
    place: &BodyPlace,
    position: u32,
    condition: Handle<mark::Expression>,
) -> Result<Location, AllocError> {
    let found = statement_at(alloc, module, place, &Wanted::At(position))?;
    let name = text_of(name_at(alloc, module, place)?);
    let pointer = Text::from(expression_pointer(alloc, place, condition.index())?);
    Ok(Location::within_module(
        Some(*place),
        name,
        path_of(found),
        Some(condition),
        None,
        pointer,
    ))
}

/// Returns the place of an argument.
pub fn argument_location(
    alloc: Global,
    module: &Module,
    place: &BodyPlace,
    index: u32,
) -> Result<Location, AllocError> {
    let name = text_of(name_at(alloc, module, place)?);
    let pointer = Text::from(argument_pointer(alloc, place, index)?);
    let location = Location::within_module(Some(*place), name, None, None, None, pointer);
    Ok(Location {
        argument: Some(index),
        ..location
    })
}

/// Returns a cause at a place, with the text of the expression there.
pub fn related_at(
    alloc: Global,
    module: &Module,
    message: Text,
    location: Location,
) -> Result<Related, AllocError>
    ensures { IfOk result (λ related. related.location ≡ location) }
{
    let text = expression_text_at(alloc, module, &location)?;
    Ok(Related {
        message,
        location,
        text,
    })
}

/// What is said of a place in a function or an entry point.
#[derive(Clone, Copy)]
struct Remark {
    place: BodyPlace,
    said: Said,
}

/// Returns the text of memory, as the name of a variable.
fn memory_text(alloc: Global, function: &Function, place: Place) -> Result<String, AllocError> {
    match place {
        Place::Local(number) => local_text(alloc, function, Handle::from_index(number)),
        Place::Pointee(number) => {
            let argument = argument_text(alloc, function, number)?;
            format!(in alloc; "*{argument}")
        }
        Place::Shared | Place::Fixed => String::from_str(alloc, "memory"),
    }
}

/// Returns the text of the memory that a value is stored to, as the store names it.
fn named_memory(
    alloc: Global,
    module: &Module,
    place: &BodyPlace,
    function: &Function,
    value: Handle<mark::Expression>,
    memory: Place,
) -> Result<String, AllocError> {
    if let Some(position) = store_position(alloc, module, function, value, memory)? {
        if let Some(text) = stored_text(alloc, module, place, function, position)? {
            return Ok(text);
        }
    }
    memory_text(alloc, function, memory)
}

/// Returns the place of a value that is stored: in the store, or else where it is evaluated.
fn stored_location(
    alloc: Global,
    module: &Module,
    place: &BodyPlace,
    value: Handle<mark::Expression>,
    memory: Place,
) -> Result<Location, AllocError> {
    let position = match function_of(module, place) {
        Some(function) => store_position(alloc, module, function, value, memory)?,
        None => None,
    };
    match position {
        Some(position) => condition_location(alloc, module, place, position, value),
        None => expression_location(alloc, module, place, value),
    }
}

/// Returns what is said as a text.
fn said_text(
    alloc: Global,
    module: &Module,
    place: &BodyPlace,
    function: &Function,
    said: &Said,
) -> Result<String, AllocError> {
    match said {
        Said::Nothing => Ok(String::new(alloc)),
        Said::Statement(_, reason)
        | Said::Condition(_, _, reason)
        | Said::Expression(_, reason)
        | Said::Argument(_, reason) => String::from_str(alloc, reason.words()),
        Said::Stored(value, memory) => {
            let memory = named_memory(alloc, module, place, function, *value, *memory)?;
            format!(in alloc; "`{memory}` may be given different values")
        }
        Said::Store(_, place) => {
            let memory = memory_text(alloc, function, *place)?;
            format!(in alloc; "some invocations may store to `{memory}`, and others not")
        }
        Said::Let(handle) => {
            let name = match function.named_expressions.get(handle) {
                Some(name) => name_text(alloc, name.as_str())?,
                None => String::new(alloc),
            };
            format!(in alloc; "`{name}` may differ between invocations")
        }
    }
}

/// Returns the place that something is said of, or nothing if nothing is said.
fn said_location(
    alloc: Global,
    module: &Module,
    place: &BodyPlace,
    said: &Said,
) -> Result<Option<Location>, AllocError> {
    let location = match said {
        Said::Nothing => return Ok(None),
        Said::Statement(position, _) | Said::Store(position, _) => {
            statement_location(alloc, module, place, *position)?
        }
        Said::Condition(position, condition, _) => {
            condition_location(alloc, module, place, *position, *condition)?
        }
        Said::Stored(value, memory) => stored_location(alloc, module, place, *value, *memory)?,
        Said::Expression(expression, _) | Said::Let(expression) => {
            expression_location(alloc, module, place, *expression)?
        }
        Said::Argument(index, _) => argument_location(alloc, module, place, *index)?,
    };
    Ok(Some(location))
}

/// Adds a remark with its place.
fn add_related(
    alloc: Global,
    module: &Module,
    related: &mut Vec<Related>,
    remark: &Remark,
) -> Result<(), AllocError> {
    let Some(function) = function_of(module, &remark.place) else {
        return Ok(());
    };
    if let Some(location) = said_location(alloc, module, &remark.place, &remark.said)? {
        let message = Text::from(said_text(alloc, module, &remark.place, function, &remark.said)?);
        related.push(related_at(alloc, module, message, location)?)?;
    }
    Ok(())
}

/// Adds what is said of a cause, if something is.
fn add_cause(module: &Module, remarks: &mut Vec<Remark>, cause: &Cause) -> Result<(), AllocError> {
    let place = place_of_body(cause.place);
    match function_of(module, &place) {
        Some(function) => {
            let said = said_of(module, function, &cause.rule);
            if !matches!(said, Said::Nothing) {
                remarks.push(Remark { place, said })?;
            }
            Ok(())
        }
        None => Ok(()),
    }
}

/// Checks whether an implication may come from the summary of a called function.
fn may_come_from_a_call(function: &Function, rule: &Rule) -> bool {
    match rule.effect {
        Fact::Differs(handle) => match function.expressions.try_get(handle) {
            Some(Expression::CallResult(_)) => true,
            _ => false,
        },
        Fact::Holds(_, _) => true,
        _ => false,
    }
}

/// The implications in a called function behind what a call gives back.
#[derive(Drop)]
struct CalleeTrace {
    place: BodyLocation,
    rules: Vec<Rule>,
}

/// Returns what is behind a cause in a called function, if a call gives it.
fn callee_trace(
    alloc: Global,
    module: &Module,
    known: &[Items<Rule>],
    cause: &Cause,
) -> Result<Option<CalleeTrace>, AllocError> {
    match function_of(module, &place_of_body(cause.place)) {
        Some(function) if may_come_from_a_call(function, &cause.rule) => {}
        _ => return Ok(None),
    }
    let Some(origin) = origin_of(alloc, module, known, cause.place, &cause.rule)? else {
        return Ok(None);
    };
    let place = BodyLocation::Function(origin.function.index());
    let (first, last) = (origin.rule.cause, origin.rule.effect);
    match trace(alloc, module, known, place, &first, &last)? {
        Some(rules) => Ok(Some(CalleeTrace { place, rules })),
        None => Ok(None),
    }
}

/// Adds what is said of a cause, and of what it comes from in called functions, so many calls deep. What the call is passed comes last.
fn add_with_origin(
    alloc: Global,
    module: &Module,
    known: &[Items<Rule>],
    remarks: &mut Vec<Remark>,
    cause: &Cause,
    calls: u32,
) -> Result<(), AllocError> {
    add_cause(module, remarks, cause)?;
    if calls == 0 {
        return Ok(());
    }
    let Some(behind) = callee_trace(alloc, module, known, cause)? else {
        return Ok(());
    };
    let place = behind.place;
    for rule in behind.rules.as_slice() {
        let inner = Cause { place, rule: *rule };
        add_with_origin(alloc, module, known, remarks, &inner, calls - 1)?;
    }
    add_passed(module, remarks, cause)
}

/// Returns what is said of a value that a call at a position is passed. A value without a name is found by its own.
fn said_of_passed(
    function: &Function,
    argument: Handle<mark::Expression>,
    reason: Reason,
    position: Option<u32>,
) -> Said {
    match position {
        Some(position) if is_named(function, argument) => {
            Said::Condition(position, argument, reason)
        }
        _ => Said::Expression(argument, reason),
    }
}

/// Adds what is said of a value that a call is passed, where that is a cause of what it gives back.
fn add_passed(module: &Module, remarks: &mut Vec<Remark>, cause: &Cause) -> Result<(), AllocError> {
    let place = place_of_body(cause.place);
    let Some(function) = function_of(module, &place) else {
        return Ok(());
    };
    if let Said::Expression(argument, reason) = passed(&cause.rule.cause) {
        let position = match cause.rule.effect {
            Fact::Differs(result) => call_position(function, result),
            _ => None,
        };
        let said = said_of_passed(function, argument, reason, position);
        remarks.push(Remark { place, said })?;
    }
    Ok(())
}

/// Returns what is said of what a caller passes on to a function.
fn passed_on(module: &Module, callee: BodyLocation, cause: &Cause) -> Said {
    let said = passed(&cause.rule.effect);
    let BodyLocation::Function(index) = callee else {
        return said;
    };
    match said {
        Said::Expression(argument, reason) => {
            match function_of(module, &place_of_body(cause.place)) {
                Some(function) => {
                    let position = passing_position(function, index, argument);
                    said_of_passed(function, argument, reason, position)
                }
                None => said,
            }
        }
        other => other,
    }
}

/// Adds what is said of a chain of causes that begins at a place. Where the place changes, the caller passes on what differs.
fn add_chain(
    alloc: Global,
    module: &Module,
    known: &[Items<Rule>],
    remarks: &mut Vec<Remark>,
    place: BodyLocation,
    chain: &[Cause],
) -> Result<(), AllocError> {
    let mut last = place;
    for cause in chain {
        if cause.place != last {
            let said = passed_on(module, last, cause);
            last = cause.place;
            let place = place_of_body(last);
            remarks.push(Remark { place, said })?;
        }
        add_with_origin(alloc, module, known, remarks, cause, MOST_CALLS)?;
    }
    Ok(())
}

/// Returns what is said of a violated need, of which some have to choose the same memory.
fn remarks_on_need(alloc: Global, violation: &Violation) -> Result<Vec<Remark>, AllocError> {
    let mut remarks = Vec::new(alloc);
    if let Fact::Differs(pointer) = violation.need.violated_by {
        remarks.push(Remark {
            place: place_of_body(violation.place),
            said: Said::Expression(pointer, Reason::ChosenMemory),
        })?;
    }
    Ok(remarks)
}

/// Checks whether the next remark of a function tells what one does: of a `let` it is on an expression within its line, of a value that is
/// returned on the value itself.
fn is_told_by(function: &Function, said: &Said, next: &Said) -> bool {
    match next {
        Said::Expression(expression, _) => match said {
            Said::Let(_) => !is_named(function, *expression),
            Said::Expression(returned, Reason::ReturnedValues) => *returned == *expression,
            _ => false,
        },
        _ => false,
    }
}

/// Checks whether a remark can be left out, since the next one tells what it does.
fn is_left_out(module: &Module, remark: &Remark, next: Option<&Remark>) -> bool {
    match next {
        Some(next) if next.place == remark.place => match function_of(module, &remark.place) {
            Some(function) => is_told_by(function, &remark.said, &next.said),
            None => false,
        },
        _ => false,
    }
}

/// Returns remarks with their places.
fn related_of(alloc: Global, module: &Module, all: &[Remark]) -> Result<Vec<Related>, AllocError> {
    let mut related = Vec::new(alloc);
    for (index, remark) in all.iter().enumerate() {
        if !is_left_out(module, remark, all.get(index.saturating_add(1))) {
            add_related(alloc, module, &mut related, remark)?;
        }
    }
    Ok(related)
}

/// Leaves the middle of many causes out, unless all are kept.
fn shortened(
    alloc: Global,
    all: Vec<Related>,
    chain: Vec<Cause>,
    keeps_all: bool,
) -> Result<Causes, AllocError> {
    let count = all.len();
    let mut related = Vec::new(alloc);
    for (index, one) in all.into_iter().enumerate() {
        if keeps_all || index < KEPT_AT_AN_END || count - index <= KEPT_AT_AN_END {
            related.push(one)?;
        }
    }
    let omitted = count.saturating_sub(related.len());
    Ok(Causes {
        related,
        omitted,
        chain,
    })
}

/// Returns the causes of a violated need: all, or of more than 100 those at both ends.
///
/// # Errors
///
/// `AllocError` if an allocation fails, or a function has 2^32 statements.
pub fn causes_of_need(
    alloc: Global,
    module: &Module,
    known: &[Items<Rule>],
    callers: &[Vec<PassedBy>],
    violation: &Violation,
    keeps_all: bool,
) -> Result<Causes, AllocError>
    requires { AreCallers «module».now known.now callers.now }
{
    let (place, fact) = (violation.place, violation.need.violated_by);
    match causes_of(alloc, module, known, callers, place, &fact)? {
        Some(chain) => {
            let mut remarks = remarks_on_need(alloc, violation)?;
            add_chain(alloc, module, known, &mut remarks, place, chain.as_slice())?;
            let related = related_of(alloc, module, &remarks)?;
            shortened(alloc, related, chain, keeps_all)
        }
        None => Ok(Causes {
            related: Vec::new(alloc),
            omitted: 0,
            chain: Vec::new(alloc),
        }),
    }
}

/// Returns why the result of an entry point differs, given the trace from the result back to a source.
///
/// # Errors
///
/// `AllocError` if an allocation fails, or a function has 2^32 statements.
pub fn causes_of_trace(
    alloc: Global,
    module: &Module,
    known: &[Items<Rule>],
    place: BodyLocation,
    rules: &[Rule],
) -> Result<Vec<Related>, AllocError> {
    let mut remarks = Vec::new(alloc);
    for rule in rules {
        let cause = Cause { place, rule: *rule };
        add_with_origin(alloc, module, known, &mut remarks, &cause, MOST_CALLS)?;
    }
    related_of(alloc, module, &remarks)
}
