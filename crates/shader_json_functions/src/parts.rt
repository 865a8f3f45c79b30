//! Reads an object from a text and decodes two of its members, which may be large, while reading.
ghost use Rattle.std.specs.Prelude.{◌≡◌, IfOk, Some, false, option_map};
ghost use Rattle.std.specs.Str.{bytes_eq};
ghost use Rattle.json.specs.Json.{read_key};
ghost use Rattle.json.specs.Value.{value_view};
ghost use Rattle.shader_json_functions.specs.Next.{AreParts};

use crate::next::{ReadNext, next_value, open_object};
use json::{Reader, Value};
use shader_json_reader::{Context, Failure};

/// An object of which two members were decoded while reading; `rest` holds the others.
#[derive(Drop)]
pub struct Parts<'a, A: Drop, B: Drop> {
    /// The first of the two members, decoded.
    pub first: A,
    /// The second one, decoded.
    pub second: B,
    /// The object without these two members.
    pub rest: Value<'a>,
}

/// Returns the name of the next member, or `None` at the end of the object.
fn next_name<'a>(context: Context, reader: &mut Reader<'a>) -> Result<Option<&'a str>, Failure>
    ensures { IfOk result (λ name. read_key reader.old ≡ Some (option_map (λ text. text.now) name, reader.new)) }
{
    match reader.next_key() {
        Ok(name) => Ok(name),
        Err(_) => Err(context.refused("a member of an object")),
    }
}

impl<'a, A: ReadNext + Drop, B: ReadNext + Drop> Parts<'a, A, B> {
    /// Reads the next value of a text, an object that has each of these two names once.
    ///
    /// # Errors
    ///
    /// An allocation failure; a value that is no object or lacks a member of these names; or a member that occurs twice or can't be read.
    pub fn read_next(
        context: Context,
        reader: &mut Reader<'a>,
        depth: usize,
        first_name: &'static str,
        second_name: &'static str,
    ) -> Result<Parts<'a, A, B>, Failure>
        requires { bytes_eq second_name.now first_name.now ≡ false }
        ensures { IfOk result (λ parts. AreParts A.stands B.stands first_name.now second_name.now depth reader.old reader.new
            parts.first parts.second (value_view parts.rest)) }
    {
        let inside = open_object(context, reader, depth)?;
        let (mut first, mut second) = (None, None);
        let mut rest = Vec::new(context.alloc);
        while let Some(name) = next_name(context, reader)? {
            if name == first_name {
                if first.is_some() {
                    return Err(context.refused("a field that stands once"));
                }
                first = Some(A::read_next(context, reader, inside)?);
            } else if name == second_name {
                if second.is_some() {
                    return Err(context.refused("a field that stands once"));
                }
                second = Some(B::read_next(context, reader, inside)?);
            } else {
                let value = next_value(context, reader, inside)?;
                rest.push((name, value))?;
            }
        }
        let (Some(first), Some(second)) = (first, second) else {
            return Err(context.refused("an object with both fields"));
        };
        Ok(Parts {
            first,
            second,
            rest: Value::Object(rest),
        })
    }
}
