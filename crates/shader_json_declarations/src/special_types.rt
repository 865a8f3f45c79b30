//! Reads the types that built-in functions and ray queries return.
ghost use Rattle.std.specs.Prelude.{◌≡◌, ◌↔◌, ℕ, IfOk, IsTrue, OnOk};
ghost use Rattle.std.specs.Map.{keys_of};
ghost use Rattle.json.specs.Json.{no_members, object};
ghost use Rattle.json.specs.Value.{value_view};
ghost use Rattle.shader_json_declarations.specs.Keys.{IsKey, IsKeyed, IsNew};
ghost use Rattle.shader_json_declarations.specs.declared.special_types.Key.{Key};
ghost use Rattle.shader_json_declarations.specs.SpecialTypes.{ArePredeclared, AreSpecialTypes, HasShape, IsAdded, IsDropAdded};
ghost use Rattle.shader_json_reader.specs.Answers.{Accepts};
ghost use Rattle.shader_json_reader.specs.Shapes.{AreDistinct, IsObject};

use crate::fields::{Fields, Variant};
use crate::maps::{add_entry, add_key};
use crate::values::Read;
use indexmap::IndexSet;
use json::Value;
use shader_arena::Handle;
use shader_ir::{Map, PredeclaredType, Scalar, SpecialTypes, VectorSize, mark};
use shader_json_reader::{Context, Failure, within};

/// A predeclared result type of a built-in function.
#[derive(Drop)]
enum Key {
    Supported(PredeclaredType),
    /// The result type of an atomic compare-exchange, which the module doesn't record.
    Dropped(Scalar),
}

/// A scalar, or a vector of this size.
struct Shape {
    size: Option<VectorSize>,
    scalar: Scalar,
}

impl Read for Shape {
    ghost reads = { λ j shape. IsObject j (λ ms. HasShape ms shape.size shape.scalar) };

    fn read(context: Context, value: &Value<'_>) -> Result<Shape, Failure> {
        let fields = Fields::of(context, value)?;
        Ok(Shape {
            size: fields.optional(context, "size")?,
            scalar: fields.needed(context, "scalar")?,
        })
    }
}

impl Read for Key {
    ghost reads = { λ j key. IsKey j key };

    fn read(context: Context, value: &Value<'_>) -> Result<Key, Failure> {
        let Variant { name, payload } = Variant::of(context, value)?;
        match (name, payload) {
            ("ModfResult", Some(payload)) => {
                let Shape { size, scalar } = payload.read(context)?;
                Ok(Key::Supported(PredeclaredType::ModfResult { size, scalar }))
            }
            ("FrexpResult", Some(payload)) => {
                let Shape { size, scalar } = payload.read(context)?;
                Ok(Key::Supported(PredeclaredType::FrexpResult { size, scalar }))
            }
            ("AtomicCompareExchangeWeakResult", Some(payload)) => {
                Ok(Key::Dropped(payload.read(context)?))
            }
            _ => Err(context.refused("a predeclared type")),
        }
    }
}

/// The types of all keys.
#[derive(Drop)]
struct Predeclared {
    stored: Map<PredeclaredType, Handle<mark::Type>>,
    dropped: IndexSet<Scalar>,
}

impl Predeclared {
    /// Adds a key with its type.
    fn add(&mut self, context: Context, pair: &Value<'_>) -> Result<(), Failure>
        ensures stored { OnOk result (IsAdded (value_view pair.now) self.old.stored self.new.stored) }
        ensures dropped { OnOk result (IsDropAdded (value_view pair.now) self.old.dropped.keys self.new.dropped.keys) }
        ensures keys { OnOk result (AreDistinct (keys_of self.old.stored) → AreDistinct (keys_of self.new.stored)) }
        ensures scalars { OnOk result (AreDistinct self.old.dropped.keys → AreDistinct self.new.dropped.keys) }
        ensures accepts { Accepts (λ (keyed : Key × ℕ). IsKeyed (value_view pair.now) keyed.0 keyed.1
            × IsNew keyed.0 (keys_of self.old.stored) self.old.dropped.keys) result }
    {
        match read_pair(context, pair)? {
            (Key::Supported(key), ty) => within(0, add_entry(context, &mut self.stored, key, ty)),
            (Key::Dropped(scalar), _) => within(0, add_key(context, &mut self.dropped, scalar)),
        }
    }
}

/// Reads a key with its type.
fn read_pair(context: Context, pair: &Value<'_>) -> Result<(Key, Handle<mark::Type>), Failure>
    ensures reads { IfOk result (λ keyed. IsKeyed (value_view pair.now) keyed.0 keyed.1) }
    ensures accepts { Accepts (λ (keyed : Key × ℕ). IsKeyed (value_view pair.now) keyed.0 keyed.1) result }
{
    let wanted = "an array of 2 items, key and type";
    let Value::Array(items) = pair else {
        return Err(context.refused(wanted));
    };
    match items.as_slice() {
        [key, ty] => {
            let key = within(0, Key::read(context, key))?;
            Ok((key, within(1, Handle::read(context, ty))?))
        }
        _ => Err(context.refused(wanted)),
    }
}

/// Returns whether a value is an object without members.
fn is_empty_object(value: &Value<'_>) -> bool
    ensures { IsTrue result ↔ (value_view value.now ≡ object no_members) }
{
    match value {
        Value::Object(members) => members.as_slice().is_empty(),
        _ => false,
    }
}

/// The predeclared types that a module records.
struct Recorded(Map<PredeclaredType, Handle<mark::Type>>);

impl Read for Recorded {
    ghost reads = { λ j types. ArePredeclared j types.0 };

    /// Reads an array of pairs. An object must be empty, since the keys of this map can't be keys
    /// of JSON.
    fn read(context: Context, value: &Value<'_>) -> Result<Recorded, Failure> {
        let mut types = Predeclared {
            stored: Map::new(context.alloc),
            dropped: IndexSet::new(context.alloc),
        };
        if is_empty_object(value) {
            return Ok(Recorded(types.stored));
        }
        let Value::Array(pairs) = value else {
            return Err(context.refused("an array of pairs, or an empty object"));
        };
        for (index, pair) in pairs.iter().enumerate() {
            within(index, types.add(context, pair))?;
        }
        Ok(Recorded(types.stored))
    }
}

impl Read for SpecialTypes {
    ghost reads = { λ j special. AreSpecialTypes j special };

    fn read(context: Context, value: &Value<'_>) -> Result<SpecialTypes, Failure> {
        let fields = Fields::of(context, value)?;
        let ray_intersection = fields.optional(context, "ray_intersection")?;
        let ray_vertex_return = fields.optional(context, "ray_vertex_return")?;
        let Recorded(predeclared_types) = fields.needed(context, "predeclared_types")?;
        Ok(SpecialTypes {
            ray_intersection,
            ray_vertex_return,
            predeclared_types,
        })
    }
}
