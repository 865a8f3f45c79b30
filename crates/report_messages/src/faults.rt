//! What is said of a module that isn't well formed: the thing that doesn't exist or isn't earlier, and the list with its length.

use crate::expression_fields::expression_field;
use crate::item_fields::{declaration_field, special_field, type_field, variable_field};
use crate::lists::{Lengths, ListKind, Named, counted_text};
use crate::missing::{
    of_declarations, of_expression, of_special_types, of_statement, of_type, of_variable,
};
use crate::search::{Search, in_block};
use crate::statement_fields::statement_field;
use crate::wording::Wording;
use report_diagnostics::Text;
use report_names::{MOST_NESTED, function_text, type_text};
use report_places::{BodyPlace, PathStep, body_text, expression_at, function_of, statement_text};
use shader_arena::Handle;
use shader_ir::proc::expression_operands;
use shader_ir::{Expression, Module, Statement, TypeInner, mark};
use shader_resolve::{FaultAt, ModuleFault, ModuleLocation};
use std::alloc::{AllocError, Global};

/// A fault, and where it is.
#[derive(Drop)]
struct Place<'a> {
    module: &'a Module,
    /// The function, entry point or global expression of the location, if it has one.
    body: Option<BodyPlace>,
    location: ModuleLocation,
    fault: ModuleFault,
    lengths: Lengths,
    /// The first statement with the fault, if the location is the statements of a function.
    statement: Option<&'a Statement>,
    /// The way to that statement.
    way: Vec<PathStep>,
}

impl<'a> Place<'a> {
    /// Returns the expression of the location, if it is one.
    fn expression(&self) -> Option<(Handle<mark::Expression>, &'a Expression)> {
        let handle = match self.location {
            ModuleLocation::GlobalExpression(handle) => handle,
            ModuleLocation::FunctionExpression(_, handle) => handle,
            ModuleLocation::EntryPointExpression(_, handle) => handle,
            _ => return None,
        };
        match self.body {
            Some(body) => match expression_at(self.module, &body, handle) {
                Some(found) => Some((handle, found)),
                None => None,
            },
            None => None,
        }
    }

    /// Returns the list of the expressions that one of the location may use.
    fn operands(&self) -> ListKind {
        match self.location {
            ModuleLocation::GlobalExpression(_) => ListKind::GlobalExpressions,
            _ => ListKind::Expressions,
        }
    }

    /// Returns the number of functions that the location may call.
    fn earlier(&self) -> usize {
        match self.body {
            Some(BodyPlace::Function(index)) => index,
            Some(BodyPlace::EntryPoint(_)) => self.lengths.functions,
            Some(BodyPlace::ConstExpression(_)) | None => 0,
        }
    }

    /// Searches the statement of the location that has the fault.
    fn search(&mut self) -> Result<(), AllocError> {
        let is_body = matches!(
            self.location,
            ModuleLocation::FunctionBody(_) | ModuleLocation::EntryPointBody(_)
        );
        let function = match self.body {
            Some(body) if is_body => function_of(self.module, &body),
            _ => None,
        };
        if let Some(function) = function {
            let search = Search {
                module: self.module,
                lengths: self.lengths,
                earlier: self.earlier(),
                fault: self.fault,
            };
            self.statement = in_block(&function.body, &search, &mut self.way)?;
        }
        Ok(())
    }

    /// Returns the way from the location to a field of the statement that has the fault.
    fn way_to(&self, alloc: Global, field: &str) -> Result<String, AllocError> {
        let way = statement_text(alloc, self.way.as_slice())?;
        let way = way.as_str().strip_prefix("body").unwrap_or("");
        format!(in alloc; "{way}{field}")
    }

    /// Returns the way from the location to the field that names an item.
    fn field(&self, alloc: Global, named: Named) -> Result<String, AllocError> {
        if let Some((_, expression)) = self.expression() {
            return expression_field(alloc, expression, named);
        }
        if let Some(statement) = self.statement {
            let field = statement_field(alloc, statement, named)?;
            return self.way_to(alloc, field.as_str());
        }
        match self.location {
            ModuleLocation::SpecialTypes => {
                special_field(&self.module.special_types, named.index).to_string(alloc)
            }
            ModuleLocation::Type(handle) => match self.module.types.try_get(handle) {
                Some(ty) => type_field(alloc, &ty.inner, named),
                None => Ok(String::new(alloc)),
            },
            ModuleLocation::DiagnosticFilter(_) => ".parent".to_string(alloc),
            ModuleLocation::Constant(_)
            | ModuleLocation::Override(_)
            | ModuleLocation::GlobalVariable(_) => variable_field(named).to_string(alloc),
            _ => self.declared_field(alloc, named),
        }
    }

    /// Returns the way from a function to the field that names an item.
    fn declared_field(&self, alloc: Global, named: Named) -> Result<String, AllocError> {
        let function = match self.body {
            Some(body) => function_of(self.module, &body),
            None => None,
        };
        match function {
            Some(function) => declaration_field(alloc, function, named),
            None => Ok(String::new(alloc)),
        }
    }

    /// Returns the first item that a location in a function names and that doesn't exist.
    fn missing_in_body(&self) -> Option<Named> {
        if let Some((_, expression)) = self.expression() {
            return of_expression(&self.lengths, self.operands(), expression);
        }
        match self.location {
            ModuleLocation::FunctionBody(_) | ModuleLocation::EntryPointBody(_) => {
                of_statement(&self.lengths, self.statement?)
            }
            _ => {
                let body = self.body?;
                of_declarations(&self.lengths, function_of(self.module, &body)?)
            }
        }
    }

    /// Returns the first item that the location names and that doesn't exist.
    fn missing(&self) -> Option<Named> {
        let (module, lengths) = (self.module, &self.lengths);
        let values = ListKind::GlobalExpressions;
        match self.location {
            ModuleLocation::SpecialTypes => of_special_types(lengths, &module.special_types),
            ModuleLocation::Constant(handle) => {
                let found = module.constants.try_get(handle)?;
                of_variable(lengths, found.ty, values, Some(found.init))
            }
            ModuleLocation::Override(handle) => {
                let found = module.overrides.try_get(handle)?;
                of_variable(lengths, found.ty, values, found.init)
            }
            ModuleLocation::GlobalVariable(handle) => {
                let found = module.global_variables.try_get(handle)?;
                of_variable(lengths, found.ty, values, found.init)
            }
            ModuleLocation::Type(handle) => of_type(lengths, &module.types.try_get(handle)?.inner),
            ModuleLocation::DiagnosticFilter(handle) => {
                let parent = module.diagnostic_filters.try_get(handle)?.parent?;
                lengths.missing(ListKind::DiagnosticFilters, parent.index())
            }
            _ => self.missing_in_body(),
        }
    }

    /// Returns what has a list, in words.
    fn owner_text(&self, alloc: Global, list: ListKind) -> Result<String, AllocError> {
        match self.body {
            Some(body) if list.is_of_function() => body_text(alloc, self.module, &body),
            _ => "the module".to_string(alloc),
        }
    }
}

/// Adds which index of which list is at fault.
fn add_index(
    alloc: Global,
    wording: &mut Wording,
    place: &Place<'_>,
    named: Named,
) -> Result<(), AllocError> {
    wording.number(alloc, "index", named.index)?;
    wording.word(alloc, "list", named.list.member())?;
    wording.number(alloc, "length", place.lengths.length_in(named.list))
}

/// Returns a sentence on an index of a list, with what is said of the index itself.
fn on_index(
    alloc: Global,
    place: &Place<'_>,
    named: Named,
    message: String,
    label: String,
) -> Result<Option<Wording>, AllocError> {
    let mut wording = Wording::of(alloc, message).labelled(None, label);
    wording.field = Some(Text::from(place.field(alloc, named)?));
    add_index(alloc, &mut wording, place, named)?;
    Ok(Some(wording))
}

/// Returns what is said of an index into a list of this length.
fn index_label(alloc: Global, list: ListKind, length: usize) -> Result<String, AllocError> {
    let member = list.member();
    match length {
        0 => format!(in alloc; "an index into `{member}`, which is empty"),
        1 => format!(in alloc; "an index into `{member}`, which has 1 item"),
        _ => format!(in alloc; "an index into `{member}`, which has {length} items"),
    }
}

/// Returns what is said of an index past the end of its list.
fn on_missing(alloc: Global, place: &Place<'_>) -> Result<Option<Wording>, AllocError> {
    let Some(named) = place.missing() else {
        return Ok(None);
    };
    let (word, index) = (named.list.word(), named.index);
    let owner = place.owner_text(alloc, named.list)?;
    let count = counted_text(alloc, place.lengths.length_in(named.list), word)?;
    let message = format!(in alloc; "{word} {index} doesn't exist: {owner} has {count}")?;
    let label = index_label(alloc, named.list, place.lengths.length_in(named.list))?;
    on_index(alloc, place, named, message, label)
}

/// Returns what is said of an `Emit` that ends past the expressions of its function.
fn on_emit(alloc: Global, place: &Place<'_>) -> Result<Option<Wording>, AllocError> {
    let Some(Statement::Emit(range)) = place.statement else {
        return Ok(None);
    };
    let list = ListKind::Expressions;
    let index = range.index_range().end as usize;
    let owner = place.owner_text(alloc, list)?;
    let count = counted_text(alloc, place.lengths.expressions, "expression")?;
    let message = format!(in alloc;
        "an `Emit` ends before expression {index}, but {owner} has {count}"
    )?;
    let most = place.lengths.expressions;
    let label = format!(in alloc; "at most {most}")?;
    on_index(alloc, place, Named { list, index }, message, label)
}

/// Returns the first type inside of another one that isn't below a bound.
fn base_from(inner: &TypeInner, bound: usize) -> Option<usize> {
    match inner {
        TypeInner::Pointer { base, .. }
        | TypeInner::Array { base, .. }
        | TypeInner::BindingArray { base, .. }
            if bound <= base.index() => Some(base.index()),
        TypeInner::Struct { members, .. } => {
            for member in members.as_slice() {
                if bound <= member.ty.index() {
                    return Some(member.ty.index());
                }
            }
            None
        }
        _ => None,
    }
}

/// Returns what is said of an item that names itself or a later one of its list.
fn on_later(
    alloc: Global,
    place: &Place<'_>,
    own: usize,
    verb: &str,
    named: Named,
) -> Result<Option<Wording>, AllocError> {
    let (word, index) = (named.list.word(), named.index);
    let message = if own == index {
        format!(in alloc; "{word} {own} {verb} itself")?
    } else {
        format!(in alloc; "{word} {own} {verb} {word} {index}, which isn't earlier")?
    };
    let label = format!(in alloc; "must be below {own}")?;
    on_index(alloc, place, named, message, label)
}

/// Returns what is said of a type that contains itself or a later one.
fn on_type(alloc: Global, place: &Place<'_>) -> Result<Option<Wording>, AllocError> {
    let ModuleLocation::Type(handle) = place.location else {
        return Ok(None);
    };
    let Some(ty) = place.module.types.try_get(handle) else {
        return Ok(None);
    };
    match base_from(&ty.inner, handle.index()) {
        Some(index) => {
            let list = ListKind::Types;
            on_later(
                alloc,
                place,
                handle.index(),
                "contains",
                Named { list, index },
            )
        }
        None => Ok(None),
    }
}

/// Returns what is said of an expression that uses itself or a later one.
fn on_operand(alloc: Global, place: &Place<'_>) -> Result<Option<Wording>, AllocError> {
    let Some((handle, expression)) = place.expression() else {
        return Ok(None);
    };
    for (operand, _) in expression_operands(expression) {
        if handle.index() <= operand.index() {
            let named = Named {
                list: place.operands(),
                index: operand.index(),
            };
            return on_later(alloc, place, handle.index(), "uses", named);
        }
    }
    Ok(None)
}

/// Returns what is said of a diagnostic filter whose parent is itself or a later one.
fn on_filter(alloc: Global, place: &Place<'_>) -> Result<Option<Wording>, AllocError> {
    let ModuleLocation::DiagnosticFilter(handle) = place.location else {
        return Ok(None);
    };
    let own = handle.index();
    match place.module.diagnostic_filters.try_get(handle) {
        Some(node) => match node.parent {
            Some(parent) => {
                let index = parent.index();
                let message = if own == index {
                    format!(in alloc; "diagnostic filter {own} is its own parent")?
                } else {
                    format!(in alloc;
                        "the parent of diagnostic filter {own} is diagnostic filter {index}, which isn't earlier"
                    )?
                };
                let list = ListKind::DiagnosticFilters;
                let label = format!(in alloc; "must be below {own}")?;
                on_index(alloc, place, Named { list, index }, message, label)
            }
            None => Ok(None),
        },
        None => Ok(None),
    }
}

/// Returns the function that the location calls, or whose result it is.
fn callee_of(place: &Place<'_>) -> Option<Handle<mark::Function>> {
    if let Some((_, expression)) = place.expression() {
        return match expression {
            Expression::CallResult(callee) => Some(*callee),
            _ => None,
        };
    }
    match place.statement? {
        Statement::Call { function, .. } => Some(*function),
        _ => None,
    }
}

/// Returns what is said of a call of the function itself or a later one.
fn on_callee(alloc: Global, place: &Place<'_>) -> Result<Option<Wording>, AllocError> {
    let (Some(body), Some(callee)) = (place.body, callee_of(place)) else {
        return Ok(None);
    };
    let index = callee.index();
    let caller = body_text(alloc, place.module, &body)?;
    let name = function_text(alloc, place.module, callee)?;
    let message = match body {
        BodyPlace::Function(own) if own == index => format!(in alloc; "{caller} calls itself")?,
        BodyPlace::ConstExpression(own) => {
            format!(in alloc;
                "global expression {own} is the result of function `{name}`, which only functions call"
            )?
        }
        _ => format!(in alloc; "{caller} calls function `{name}`, which isn't earlier")?,
    };
    let list = ListKind::Functions;
    let label = "a called function must come before its caller, so recursion is impossible";
    on_index(
        alloc,
        place,
        Named { list, index },
        message,
        label.to_string(alloc)?,
    )
}

/// Returns what is said of a call with more or fewer arguments than the called function takes.
fn on_count(alloc: Global, place: &Place<'_>) -> Result<Option<Wording>, AllocError> {
    let Some(
        Statement::Call {
            function,
            arguments,
            ..
        },
    ) = place.statement
    else {
        return Ok(None);
    };
    let Some(callee) = place.module.functions.try_get(*function) else {
        return Ok(None);
    };
    let (given, wanted) = (arguments.len(), callee.arguments.len());
    let name = function_text(alloc, place.module, *function)?;
    let count = counted_text(alloc, wanted, "argument")?;
    let verb = if given == 1 { "is" } else { "are" };
    let message = format!(in alloc; "function `{name}` takes {count}, and {given} {verb} passed")?;
    let label = if given == 1 {
        "1 argument".to_string(alloc)?
    } else {
        format!(in alloc; "{given} arguments")?
    };
    let mut wording = Wording::of(alloc, message).labelled(None, label);
    wording.field = Some(Text::from(place.way_to(alloc, ".Call.arguments")?));
    let named = Named {
        list: ListKind::Functions,
        index: function.index(),
    };
    add_index(alloc, &mut wording, place, named)?;
    wording.number(alloc, "given", given)?;
    wording.number(alloc, "wanted", wanted)?;
    Ok(Some(wording))
}

/// Returns the type of the first argument at the location that is a `ValuePointer`.
fn value_pointer(place: &Place<'_>) -> Option<Handle<mark::Type>> {
    let body = place.body?;
    for argument in function_of(place.module, &body)?.arguments.as_slice() {
        if let Some(ty) = place.module.types.try_get(argument.ty) {
            if matches!(ty.inner, TypeInner::ValuePointer { .. }) {
                return Some(argument.ty);
            }
        }
    }
    None
}

/// Returns what is said of an argument that is a `ValuePointer`.
fn on_argument(alloc: Global, place: &Place<'_>) -> Result<Option<Wording>, AllocError> {
    let (Some(body), Some(ty)) = (place.body, value_pointer(place)) else {
        return Ok(None);
    };
    let owner = body_text(alloc, place.module, &body)?;
    let text = type_text(alloc, place.module, ty, MOST_NESTED)?;
    let message = format!(in alloc; "an argument of {owner} has the type `{text}`")?;
    let (list, index) = (ListKind::Types, ty.index());
    let label = "a `ValuePointer`, which no function takes".to_string(alloc)?;
    on_index(alloc, place, Named { list, index }, message, label)
}

/// Returns what is said of a fault by what is found at its location, if it is found there.
fn found_wording(alloc: Global, place: &Place<'_>) -> Result<Option<Wording>, AllocError> {
    match place.fault {
        ModuleFault::HandleOutOfRange => on_missing(alloc, place),
        ModuleFault::EmitRange => on_emit(alloc, place),
        ModuleFault::TypeNotEarlier => on_type(alloc, place),
        ModuleFault::OperandNotEarlier => on_operand(alloc, place),
        ModuleFault::FilterNotEarlier => on_filter(alloc, place),
        ModuleFault::CalleeNotEarlier => on_callee(alloc, place),
        ModuleFault::ArgumentCount => on_count(alloc, place),
        ModuleFault::ValuePointerArgument => on_argument(alloc, place),
    }
}

/// Returns what is said of a module that isn't well formed, given the function, entry point or global expression of the fault. If the fault
/// isn't found there, that is a general sentence.
///
/// # Errors
///
/// `AllocError` if an allocation fails.
pub fn fault_wording(
    alloc: Global,
    module: &Module,
    body: &Option<BodyPlace>,
    found: &FaultAt,
    general: &str,
) -> Result<Wording, AllocError> {
    let mut place = Place {
        module,
        body: *body,
        location: found.location,
        fault: found.fault,
        lengths: Lengths::of(module, body),
        statement: None,
        way: Vec::new(alloc),
    };
    place.search()?;
    let mut wording = match found_wording(alloc, &place)? {
        Some(wording) => wording,
        None => Wording::of(alloc, general.to_string(alloc)?),
    };
    let note = "this is a fault of the JSON, not of the shader it was made from";
    wording.note(note.to_string(alloc)?)?;
    Ok(wording)
}
