//! Look-ups in values that may be absent. A value of another form than the one that is asked for counts as absent. The JSON of a module has
//! none there.
ghost use Rattle.std.specs.Prelude.{◌≡◌, option_and_then, option_map};
ghost use Rattle.json.specs.Value.{value_view};
ghost use Rattle.shader_interface.specs.Interface.{integer_in, integer_of, item_in, member_in, payload_of, seen};
ghost use Rattle.shader_interface.specs.Interface.{spelled, text_in, variant_in, variant_of};

use json::Value;

/// Returns the member of that name.
pub fn member<'v, 'a>(found: Option<&'v Value<'a>>, name: &str) -> Option<&'v Value<'a>>
    ensures { seen result ≡ member_in name.now (seen found.entry) }
{
    match found {
        Some(value) => value.get(name),
        None => None,
    }
}

/// Returns the item of that index.
pub fn item<'v, 'a>(found: Option<&'v Value<'a>>, index: usize) -> Option<&'v Value<'a>>
    ensures { seen result ≡ item_in index (seen found.entry) }
{
    match found {
        Some(value) => value.at(index),
        None => None,
    }
}

/// Returns the integer that a number's text spells, if it fits.
#[tactic(auto, using(crate::proofs::IntegerLemmas::integer_parsed))]
fn integer_from(text: &str) -> Option<u32>
    ensures { result ≡ integer_of text.now }
{
    match text.parse::<u32>() {
        Ok(number) => Some(number),
        Err(_) => None,
    }
}

/// Returns the integer, if it fits.
pub fn integer(found: Option<&Value<'_>>) -> Option<u32>
    ensures { result ≡ integer_in (seen found.entry) }
{
    let Some(value) = found else {
        return None;
    };
    match value.as_number() {
        Some(text) => integer_from(text),
        None => None,
    }
}

/// Returns the string.
pub fn text<'a>(found: Option<&Value<'a>>) -> Option<&'a str>
    ensures { option_map (λ text. text.now) result ≡ text_in (seen found.entry) }
{
    match found {
        Some(value) => value.as_str(),
        None => None,
    }
}

/// Returns the name of the variant that the value is: a string, or the first key of an object.
fn variant_from<'a>(value: &Value<'a>) -> Option<&'a str>
    ensures { option_map (λ name. name.now) result ≡ variant_of (value_view value.now) }
{
    match value {
        Value::String(name) => Some(name),
        Value::Object(members) => match members.first() {
            Some(member) => Some(member.0),
            None => None,
        },
        _ => None,
    }
}

/// Returns the name of the variant.
pub fn variant<'a>(found: Option<&Value<'a>>) -> Option<&'a str>
    ensures { option_map (λ name. name.now) result ≡ variant_in (seen found.entry) }
{
    match found {
        Some(value) => variant_from(value),
        None => None,
    }
}

/// Returns the value of a literal, unless it is an f16, of which naga writes the bits.
fn payload_from<'v, 'a>(value: &'v Value<'a>) -> Option<&'v Value<'a>>
    ensures { seen result ≡ payload_of (value_view value.now) }
{
    match value {
        Value::Object(members) => match members.first() {
            Some(member) => {
                if member.0 == "F16" {
                    None
                } else {
                    Some(&member.1)
                }
            }
            None => None,
        },
        _ => None,
    }
}

/// Returns a number or a bool as it is spelled.
fn spelled_from<'a>(value: &Value<'a>) -> Option<&'a str>
    ensures { option_map (λ text. text.now) result ≡ spelled (value_view value.now) }
{
    match value {
        Value::Number(text) => Some(text),
        Value::Bool(true) => Some("true"),
        Value::Bool(false) => Some("false"),
        _ => None,
    }
}

/// Returns the value of a literal, as it is spelled.
pub fn spelled<'a>(literal: Option<&Value<'a>>) -> Option<&'a str>
    ensures { option_map (λ text. text.now) result ≡ option_and_then spelled (option_and_then payload_of (seen literal.entry)) }
{
    let Some(literal) = literal else {
        return None;
    };
    match payload_from(literal) {
        Some(value) => spelled_from(value),
        None => None,
    }
}
