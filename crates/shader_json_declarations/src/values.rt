//! Reads numbers, texts, options and lists.
ghost use Rattle.std.specs.Prelude.{◌<◌, IfOk};
ghost use Rattle.json.specs.Json.{Json};
ghost use Rattle.json.specs.Value.{value_view};
ghost use Rattle.shader_json_declarations.specs.Arenas.{IsArena};
ghost use Rattle.shader_json_declarations.specs.Scalars.{IsRange};
ghost use Rattle.shader_json_reader.specs.Numbers.{IsCount, IsHandle, IsI16, IsI32, IsI64, IsSigned, IsText, IsTruth};
ghost use Rattle.shader_json_reader.specs.Numbers.{IsU16, IsU32, IsU64, IsU8, IsUnsigned};
ghost use Rattle.shader_json_reader.specs.Answers.{Accepts};
ghost use Rattle.shader_json_reader.specs.Shapes.{IsList, IsNullable};

use crate::fields::Fields;
use json::Value;
use shader_arena::{Arena, Handle, Range};
use shader_ir::{Count, Items, Name};
use shader_json_reader::{Context, Failure, Wanted, signed, unsigned, within};

/// A type that can be read from a JSON value.
pub trait Read: Sized {
    /// The JSON values that denote this value.
    ghost reads: { Json → Self → Type 0 };

    /// Reads a value.
    ///
    /// # Errors
    ///
    /// An allocation failure, or a value that naga doesn't print. Fields that aren't read may hold anything.
    fn read(context: Context, value: &Value<'_>) -> Result<Self, Failure>
        ensures reads { IfOk result (λ read. reads (value_view value.now) read) }
        ensures accepts { Accepts (reads (value_view value.now)) result };
}

/// Reads the item of an array at that index.
///
/// # Errors
///
/// A value that can't be read.
pub fn read_item<T: Read>(context: Context, index: usize, value: &Value<'_>) -> Result<T, Failure>
    ensures reads { IfOk result (λ read. T.reads (value_view value.now) read) }
    ensures accepts { Accepts (T.reads (value_view value.now)) result }
{
    within(index, T::read(context, value))
}

/// Reads an integer from 0 to `most`.
fn integer(context: Context, value: &Value<'_>, most: u64) -> Result<u64, Failure>
    ensures reads { IfOk result (λ number. IsUnsigned most (value_view value.now) number) }
    ensures accepts { Accepts (IsUnsigned most (value_view value.now)) result }
{
    match unsigned(value, most) {
        Some(number) => Ok(number),
        None => Err(Failure::refused(context.alloc, Wanted::Integer(0, most))),
    }
}

impl Read for u8 {
    ghost reads = { λ j number. IsU8 j number };

    fn read(context: Context, value: &Value<'_>) -> Result<u8, Failure> {
        Ok(integer(context, value, 255)? as u8)
    }
}

impl Read for u16 {
    ghost reads = { λ j number. IsU16 j number };

    fn read(context: Context, value: &Value<'_>) -> Result<u16, Failure> {
        Ok(integer(context, value, 65_535)? as u16)
    }
}

impl Read for u32 {
    ghost reads = { λ j number. IsU32 j number };

    fn read(context: Context, value: &Value<'_>) -> Result<u32, Failure> {
        Ok(integer(context, value, 4_294_967_295)? as u32)
    }
}

impl Read for u64 {
    ghost reads = { λ j number. IsU64 j number };

    fn read(context: Context, value: &Value<'_>) -> Result<u64, Failure> {
        integer(context, value, u64::MAX)
    }
}

/// Reads an integer from `least` to `most`, which isn't negative.
fn signed_integer(
    context: Context,
    value: &Value<'_>,
    least: i64,
    most: i64,
) -> Result<i64, Failure>
    ensures reads { IfOk result (λ number. IsSigned least most (value_view value.now) number) }
    ensures accepts { Accepts (IsSigned least most (value_view value.now)) result }
{
    match signed(value, least, most) {
        Some(number) => Ok(number),
        None => Err(Failure::refused(context.alloc, Wanted::Integer(least, most.unsigned_abs()))),
    }
}

impl Read for i16 {
    ghost reads = { λ j number. IsI16 j number };

    fn read(context: Context, value: &Value<'_>) -> Result<i16, Failure> {
        Ok(signed_integer(context, value, -32_768, 32_767)? as i16)
    }
}

impl Read for i32 {
    ghost reads = { λ j number. IsI32 j number };

    fn read(context: Context, value: &Value<'_>) -> Result<i32, Failure> {
        Ok(signed_integer(context, value, -2_147_483_648, 2_147_483_647)? as i32)
    }
}

impl Read for i64 {
    ghost reads = { λ j number. IsI64 j number };

    fn read(context: Context, value: &Value<'_>) -> Result<i64, Failure> {
        signed_integer(context, value, i64::MIN, i64::MAX)
    }
}

impl Read for bool {
    ghost reads = { λ j truth. IsTruth j truth };

    fn read(context: Context, value: &Value<'_>) -> Result<bool, Failure> {
        match value.as_bool() {
            Some(read) => Ok(read),
            None => Err(context.refused("true or false")),
        }
    }
}

impl Read for Name {
    ghost reads = { λ j name. IsText j name };

    fn read(context: Context, value: &Value<'_>) -> Result<Name, Failure> {
        match value.as_str() {
            Some(text) => Ok(Name::from(text.to_string(context.alloc)?)),
            None => Err(context.refused("a string")),
        }
    }
}

impl Read for Count {
    ghost reads = { λ j count. IsCount j count };

    fn read(context: Context, value: &Value<'_>) -> Result<Count, Failure> {
        let count = match unsigned(value, 4_294_967_295) {
            Some(number) => Count::new(number as u32),
            None => None,
        };
        match count {
            Some(count) => Ok(count),
            None => Err(Failure::refused(context.alloc, Wanted::Integer(1, 4_294_967_295))),
        }
    }
}

/// The greatest index of a handle.
const LAST_POSITION: u64 = 4_294_967_294;

impl<M> Read for Handle<M> {
    ghost reads = { λ j handle. IsHandle j handle };

    fn read(context: Context, value: &Value<'_>) -> Result<Handle<M>, Failure>
        ensures reads { IfOk result (λ handle. IsHandle (value_view value.now) handle) }
        ensures bound { IfOk result (λ handle. handle < 4294967295) }
        ensures accepts { Accepts (IsHandle (value_view value.now)) result }
    {
        let position = integer(context, value, LAST_POSITION)?;
        Ok(Handle::from_index(position as u32))
    }
}

impl<M> Read for Range<M> {
    ghost reads = { λ j range. IsRange j range };

    fn read(context: Context, value: &Value<'_>) -> Result<Range<M>, Failure> {
        let fields = Fields::of(context, value)?;
        let (start, end) = fields.pair(context, "start", "end")?;
        fields.only(context, "start", "end", "no field but start and end")?;
        Ok(Range::new(Handle::from_index(start), Handle::from_index(end)))
    }
}

impl<T: Read> Read for Option<T> {
    ghost reads = { λ j read. IsNullable T.reads j read };

    fn read(context: Context, value: &Value<'_>) -> Result<Option<T>, Failure> {
        if value.is_null() {
            return Ok(None);
        }
        match T::read(context, value) {
            Ok(read) => Ok(Some(read)),
            Err(failure) => Err(failure),
        }
    }
}

impl<T: Read + Drop> Read for Items<T> {
    ghost reads = { λ j items. IsList T.reads j items };

    fn read(context: Context, value: &Value<'_>) -> Result<Items<T>, Failure> {
        Ok(Items::from(list(context, value)?))
    }
}

/// Reads the items of an array.
fn list<T: Read + Drop>(context: Context, value: &Value<'_>) -> Result<Vec<T>, Failure>
    ensures reads { IfOk result (λ list. IsList T.reads (value_view value.now) list.items) }
    ensures accepts { Accepts (IsList T.reads (value_view value.now)) result }
{
    let Value::Array(items) = value else {
        return Err(context.refused("an array"));
    };
    let mut list = Vec::with_capacity(context.alloc, items.len())?;
    for (index, item) in items.iter().enumerate() {
        let read = read_item(context, index, item)?;
        list.push(read)?;
    }
    Ok(list)
}

impl<T: Read + Drop, M> Read for Arena<T, M> {
    ghost reads = { λ j items. IsArena T.reads j items };

    fn read(context: Context, value: &Value<'_>) -> Result<Arena<T, M>, Failure> {
        let Value::Array(items) = value else {
            return Err(context.refused("an array"));
        };
        let mut arena = Arena::new(context.alloc);
        for (index, item) in items.iter().enumerate() {
            let read = read_item(context, index, item)?;
            if arena.is_full() {
                return Err(context.refused("an array of at most 4294967295 items"));
            }
            arena.append(read)?;
        }
        Ok(arena)
    }
}
