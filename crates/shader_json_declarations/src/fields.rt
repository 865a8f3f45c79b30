//! Objects that are read as structs, and values that are read as enums.
ghost use Rattle.std.specs.Prelude.{◌≡◌, ◌∷◌, [], IfOk, Ok, OnOk, Some, option_map};
ghost use Rattle.json.specs.Json.{object};
ghost use Rattle.json.specs.Value.{members_view, value_view};
ghost use Rattle.shader_json_reader.specs.Answers.{Accepts, IsUnrefused};
ghost use Rattle.shader_json_reader.specs.Shapes.{HasField, HasOnly, IsObject, IsOnlyOrNull, MayHave, MayHaveField, kept};
ghost use Rattle.shader_json_reader.specs.Shapes.{values_of, variant_of};

use crate::values::Read;
use json::Value;
use shader_json_reader::{Context, Failure, Wanted, within};

/// The members of an object that is read as a struct, or as a variant with named fields.
#[derive(Clone, Copy)]
pub struct Fields<'v, 'a> {
    /// The members of the object.
    pub members: &'v [(&'a str, Value<'a>)],
    // True if a failure is reported from the enum's value, one level above the fields.
    of_variant: bool,
}

impl<'v, 'a> Fields<'v, 'a> {
    /// Returns the fields of a struct.
    ///
    /// # Errors
    ///
    /// A value that is no object.
    pub fn of(context: Context, value: &'v Value<'a>) -> Result<Fields<'v, 'a>, Failure>
        ensures reads { IfOk result (λ fields. value_view value.now ≡ object (members_view fields.members.now)) }
        ensures accepts { Accepts (λ ms. value_view value.now ≡ object ms) result }
    {
        match value {
            Value::Object(members) => Ok(Fields {
                members: members.as_slice(),
                of_variant: false,
            }),
            _ => Err(context.refused("an object")),
        }
    }

    /// Reads the field of that name.
    ///
    /// # Errors
    ///
    /// A field that is absent, occurs twice or can't be read.
    pub fn needed<T: Read>(self, context: Context, name: &'static str) -> Result<T, Failure>
        ensures reads { IfOk result (λ x. HasField T.reads name.now (members_view self.entry.members.now) x) }
        ensures accepts { Accepts (λ x. HasField T.reads name.now (members_view self.entry.members.now) x) result }
    {
        match self.member(context, name) {
            Ok((index, value)) => self.seen(within(index, T::read(context, value))),
            Err(failure) => self.seen(Err(failure)),
        }
    }

    /// Reads two fields, the first one first.
    ///
    /// # Errors
    ///
    /// A field that is absent, occurs twice or can't be read.
    pub fn pair<A: Read + Drop, B: Read>(
        self,
        context: Context,
        first: &'static str,
        second: &'static str,
    ) -> Result<(A, B), Failure>
        ensures reads { IfOk result (λ p. HasField A.reads first.now (members_view self.entry.members.now) p.0
            × HasField B.reads second.now (members_view self.entry.members.now) p.1) }
        ensures accepts { Accepts (λ (p : A × B). HasField A.reads first.now (members_view self.entry.members.now) p.0
            × HasField B.reads second.now (members_view self.entry.members.now) p.1) result }
    {
        let first = self.needed(context, first)?;
        Ok((first, self.needed(context, second)?))
    }

    /// Reads three fields, the first one first.
    ///
    /// # Errors
    ///
    /// A field that is absent, occurs twice or can't be read.
    pub fn triple<A: Read + Drop, B: Read + Drop, C: Read>(
        self,
        context: Context,
        first: &'static str,
        second: &'static str,
        third: &'static str,
    ) -> Result<(A, B, C), Failure>
        ensures reads { IfOk result (λ p. HasField A.reads first.now (members_view self.entry.members.now) p.0
            × HasField B.reads second.now (members_view self.entry.members.now) p.1
            × HasField C.reads third.now (members_view self.entry.members.now) p.2) }
        ensures accepts { Accepts (λ (p : A × B × C). HasField A.reads first.now (members_view self.entry.members.now) p.0
            × HasField B.reads second.now (members_view self.entry.members.now) p.1
            × HasField C.reads third.now (members_view self.entry.members.now) p.2) result }
    {
        let (first, second) = self.pair(context, first, second)?;
        Ok((first, second, self.needed(context, third)?))
    }

    /// Reads the field of that name, or returns `None` if it is absent or null.
    ///
    /// # Errors
    ///
    /// A field that occurs twice or can't be read.
    pub fn optional<T: Read>(self, context: Context, name: &str) -> Result<Option<T>, Failure>
        ensures reads { IfOk result (λ x. MayHaveField T.reads name.now (members_view self.entry.members.now) x) }
        ensures accepts { Accepts (λ x. MayHaveField T.reads name.now (members_view self.entry.members.now) x) result }
    {
        self.nullable(context, name)
    }

    /// Reads the field of that name, or null if it is absent.
    ///
    /// # Errors
    ///
    /// A field that occurs twice or can't be read.
    pub fn nullable<T: Read>(self, context: Context, name: &str) -> Result<T, Failure>
        ensures reads { IfOk result (λ x. IsOnlyOrNull (λ j. T.reads j x)
            (values_of name.now (members_view self.entry.members.now))) }
        ensures accepts { Accepts (λ x. IsOnlyOrNull (λ j. T.reads j x)
            (values_of name.now (members_view self.entry.members.now))) result }
    {
        match self.find(context, name) {
            Ok(Some((index, value))) => self.seen(within(index, T::read(context, value))),
            Ok(None) => self.seen(T::read(context, &Value::Null)),
            Err(failure) => self.seen(Err(failure)),
        }
    }

    /// Checks that the field of that name, which is dropped, can be read as `T`, or is absent or null.
    ///
    /// # Errors
    ///
    /// A field that occurs twice or can't be read.
    pub fn check_optional<T: Read + Drop>(self, context: Context, name: &str) -> Result<(), Failure>
        ensures reads { OnOk result (MayHave T.reads name.now (members_view self.entry.members.now)) }
        ensures accepts { MayHave T.reads name.now (members_view self.entry.members.now) → IsUnrefused result }
    {
        self.optional::<T>(context, name)?;
        Ok(())
    }

    /// Returns the index and the value of the field of that name. A failure is seen from the object.
    ///
    /// # Errors
    ///
    /// A field that is absent or occurs twice.
    pub fn member(
        self,
        context: Context,
        name: &'static str,
    ) -> Result<(usize, &'v Value<'a>), Failure>
        ensures reads { IfOk result (λ found. values_of name.now (members_view self.entry.members.now) ≡ value_view found.1.now ∷ []) }
        ensures accepts { Accepts (λ j. values_of name.now (members_view self.entry.members.now) ≡ j ∷ []) result }
    {
        match self.find(context, name)? {
            Some(member) => Ok(member),
            None => Err(Failure::refused(context.alloc, Wanted::Field(name))),
        }
    }

    /// Rejects a field that has neither of two names.
    ///
    /// # Errors
    ///
    /// Such a field, of which `wanted` is said.
    pub fn only(
        self,
        context: Context,
        first: &str,
        second: &str,
        wanted: &'static str,
    ) -> Result<(), Failure>
        ensures reads { OnOk result (HasOnly first.now second.now (members_view self.entry.members.now)) }
        ensures accepts { HasOnly first.now second.now (members_view self.entry.members.now) → IsUnrefused result }
    {
        for (index, member) in self.members.iter().enumerate() {
            if member.0 != first && member.0 != second {
                return Err(context.refused(wanted).within(index));
            }
        }
        Ok(())
    }

    /// Returns the result of reading a field. The path of a failure, which begins at the object so far, then begins at the value that is
    /// read: at the enum if the object is a variant's payload.
    pub fn seen<T>(self, read: Result<T, Failure>) -> Result<T, Failure>
        ensures reads { IfOk result (λ x. read ≡ Ok x) }
        ensures accepts { IsUnrefused read → IsUnrefused result }
    {
        if self.of_variant {
            within(0, read)
        } else {
            read
        }
    }

    /// Returns the index and the value of the field of that name, and rejects one that occurs twice.
    fn find(self, context: Context, name: &str) -> Result<Option<(usize, &'v Value<'a>)>, Failure>
        ensures reads { IfOk result (λ found. values_of name.now (members_view self.entry.members.now)
            ≡ kept (option_map (λ f. value_view f.1.now) found)) }
        ensures accepts { Accepts (λ found. values_of name.now (members_view self.entry.members.now) ≡ kept found) result }
    {
        let mut found: Option<(usize, &'v Value<'a>)> = None;
        for (index, member) in self.members.iter().enumerate() {
            if member.0 == name {
                if found.is_some() {
                    return Err(context.refused("a field that stands once").within(index));
                }
                found = Some((index, &member.1));
            }
        }
        Ok(found)
    }
}

/// The payload of a variant.
#[derive(Clone, Copy)]
pub struct Data<'v, 'a> {
    /// The JSON value of the payload.
    pub value: &'v Value<'a>,
}

impl<'v, 'a> Data<'v, 'a> {
    /// Reads the payload of a variant with one unnamed field.
    ///
    /// # Errors
    ///
    /// A value that can't be read.
    pub fn read<T: Read>(self, context: Context) -> Result<T, Failure>
        ensures reads { IfOk result (λ x. T.reads (value_view self.entry.value.now) x) }
        ensures accepts { Accepts (T.reads (value_view self.entry.value.now)) result }
    {
        within(0, T::read(context, self.value))
    }

    /// Returns the fields of a variant with named ones.
    ///
    /// # Errors
    ///
    /// A value that is no object.
    pub fn fields(self, context: Context) -> Result<Fields<'v, 'a>, Failure>
        ensures reads { IfOk result (λ fields. value_view self.entry.value.now ≡ object (members_view fields.members.now)) }
        ensures accepts { Accepts (λ ms. value_view self.entry.value.now ≡ object ms) result }
    {
        match Fields::of(context, self.value) {
            Ok(Fields { members, .. }) => Ok(Fields {
                members,
                of_variant: true,
            }),
            Err(failure) => Err(failure.within(0)),
        }
    }

    /// Reads the field of a variant with one named field.
    ///
    /// # Errors
    ///
    /// A value that is no object; or a field that is absent, occurs twice or can't be read.
    pub fn field<T: Read>(self, context: Context, name: &'static str) -> Result<T, Failure>
        ensures reads { IfOk result (λ x. IsObject (value_view self.entry.value.now) (λ ms. HasField T.reads name.now ms x)) }
        ensures accepts { Accepts (λ x. IsObject (value_view self.entry.value.now) (λ ms. HasField T.reads name.now ms x)) result }
    {
        self.fields(context)?.needed(context, name)
    }

    /// Reads the fields of a variant with two named ones, the first one first.
    ///
    /// # Errors
    ///
    /// A value that is no object; or a field that is absent, occurs twice or can't be read.
    pub fn pair<A: Read + Drop, B: Read>(
        self,
        context: Context,
        first: &'static str,
        second: &'static str,
    ) -> Result<(A, B), Failure>
        ensures reads { IfOk result (λ p. IsObject (value_view self.entry.value.now) (λ ms. HasField A.reads first.now ms p.0
            × HasField B.reads second.now ms p.1)) }
        ensures accepts { Accepts (λ (p : A × B). IsObject (value_view self.entry.value.now) (λ ms. HasField A.reads first.now ms p.0
            × HasField B.reads second.now ms p.1)) result }
    {
        self.fields(context)?.pair(context, first, second)
    }

    /// Reads the fields of a variant with three named ones, the first one first.
    ///
    /// # Errors
    ///
    /// A value that is no object; or a field that is absent, occurs twice or can't be read.
    pub fn triple<A: Read + Drop, B: Read + Drop, C: Read>(
        self,
        context: Context,
        first: &'static str,
        second: &'static str,
        third: &'static str,
    ) -> Result<(A, B, C), Failure>
        ensures reads { IfOk result (λ p. IsObject (value_view self.entry.value.now) (λ ms. HasField A.reads first.now ms p.0
            × HasField B.reads second.now ms p.1 × HasField C.reads third.now ms p.2)) }
        ensures accepts { Accepts (λ (p : A × B × C). IsObject (value_view self.entry.value.now) (λ ms. HasField A.reads first.now ms p.0
            × HasField B.reads second.now ms p.1 × HasField C.reads third.now ms p.2)) result }
    {
        self.fields(context)?.triple(context, first, second, third)
    }
}

/// A value that is read as an enum: the name of a variant, and its payload.
#[derive(Clone, Copy)]
pub struct Variant<'v, 'a> {
    /// The variant's name, which may be unknown.
    pub name: &'a str,
    /// The payload, or `None` for a name alone.
    pub payload: Option<Data<'v, 'a>>,
}

impl<'v, 'a> Variant<'v, 'a> {
    /// Returns the variant that a string names, or an object with one key.
    ///
    /// # Errors
    ///
    /// Any other value.
    pub fn of(context: Context, value: &'v Value<'a>) -> Result<Variant<'v, 'a>, Failure>
        ensures reads { IfOk result (λ v. variant_of (value_view value.now)
            ≡ Some (v.name.now, option_map (λ d. value_view d.value.now) v.payload)) }
        ensures accepts { Accepts (λ v. variant_of (value_view value.now) ≡ Some v) result }
    {
        match value {
            Value::String(name) => Ok(Variant {
                name,
                payload: None,
            }),
            Value::Object(members) => match members.as_slice() {
                [member] => Ok(Variant {
                    name: member.0,
                    payload: Some(Data { value: &member.1 }),
                }),
                _ => Err(context.refused("an object with one key, the name of a variant")),
            },
            _ => Err(context.refused("the name of a variant, or an object with that one key")),
        }
    }
}
