//! Reads values from a text one at a time, so that no array of the text is a JSON value as a whole.
ghost use Rattle.std.specs.Prelude.{◌≡◌, Some, IfOk};
ghost use Rattle.json.specs.Json.{Json, value};
ghost use Rattle.json.specs.Token as token;
ghost use Rattle.json.specs.Value.{value_view};
ghost use Rattle.shader_json_declarations.specs.Arenas.{IsArena};
ghost use Rattle.shader_json_expressions.specs.Expressions.{IsExpression};
ghost use Rattle.shader_json_functions.specs.Next.{IsNext, Opens};
ghost use Rattle.shader_json_reader.specs.Shapes.{IsList};

use json::{Error, Reader, Token, Value};
use shader_arena::Arena;
use shader_ir::{Expression, Items};
use shader_json_expressions::read_expression;
use shader_json_reader::{Context, Failure};

/// A type that can be read from the next value of a text.
///
/// Its failures have no path: if one occurs, `read_module` reads the text again as one JSON value and reports the error from that.
pub trait ReadNext: Sized {
    /// The JSON values that denote this value.
    ghost stands: { Json → Self → Type 0 };

    /// Reads the next value of a text. Arrays and objects may nest `depth` deep in it.
    ///
    /// # Errors
    ///
    /// An allocation failure, or a value that isn't there or can't be read.
    fn read_next(context: Context, reader: &mut Reader<'_>, depth: usize) -> Result<Self, Failure>
        ensures next { IfOk result (λ read. IsNext stands depth reader.old reader.new read) };
}

/// Reads the next value of a text as a JSON value.
pub(crate) fn next_value<'a>(
    context: Context,
    reader: &mut Reader<'a>,
    depth: usize,
) -> Result<Value<'a>, Failure>
    ensures { IfOk result (λ read. value depth reader.old ≡ Some (value_view read, reader.new)) }
{
    match Value::read(context.alloc, reader, depth) {
        Ok(read) => Ok(read),
        Err(Error::OutOfMemory) => Err(Failure::OutOfMemory),
        Err(_) => Err(context.refused("a JSON value")),
    }
}

/// Takes the bracket that opens an array. Returns how deep arrays and objects may nest inside the array.
fn open_array(context: Context, reader: &mut Reader<'_>, depth: usize) -> Result<usize, Failure>
    ensures { IfOk result (λ inside. Opens token.begin_array depth reader.old reader.new inside) }
{
    match reader.next() {
        Some(Token::BeginArray) if depth > 0 => Ok(depth - 1),
        _ => Err(context.refused("an array")),
    }
}

/// Takes the brace that opens an object. Returns how deep arrays and objects may nest inside the object.
pub(crate) fn open_object(
    context: Context,
    reader: &mut Reader<'_>,
    depth: usize,
) -> Result<usize, Failure>
    ensures { IfOk result (λ inside. Opens token.begin_object depth reader.old reader.new inside) }
{
    match reader.next() {
        Some(Token::BeginObject) if depth > 0 => Ok(depth - 1),
        _ => Err(context.refused("an object")),
    }
}

impl ReadNext for Expression {
    ghost stands = { λ j expression. IsExpression j expression };

    fn read_next(
        context: Context,
        reader: &mut Reader<'_>,
        depth: usize,
    ) -> Result<Expression, Failure> {
        let value = next_value(context, reader, depth)?;
        read_expression(context, &value)
    }
}

impl<T: ReadNext + Drop> ReadNext for Items<T> {
    ghost stands = { λ j items. IsList T.stands j items };

    fn read_next(
        context: Context,
        reader: &mut Reader<'_>,
        depth: usize,
    ) -> Result<Items<T>, Failure> {
        let inside = open_array(context, reader, depth)?;
        let mut items = Vec::new(context.alloc);
        while !reader.take_end_array() {
            let item = T::read_next(context, reader, inside)?;
            items.push(item)?;
        }
        Ok(Items::from(items))
    }
}

impl<T: ReadNext + Drop, M> ReadNext for Arena<T, M> {
    ghost stands = { λ j arena. IsArena T.stands j arena };

    fn read_next(
        context: Context,
        reader: &mut Reader<'_>,
        depth: usize,
    ) -> Result<Arena<T, M>, Failure> {
        let inside = open_array(context, reader, depth)?;
        let mut arena = Arena::new(context.alloc);
        while !reader.take_end_array() {
            if arena.is_full() {
                return Err(context.refused("an array of at most 4294967295 items"));
            }
            let item = T::read_next(context, reader, inside)?;
            arena.append(item)?;
        }
        Ok(arena)
    }
}
