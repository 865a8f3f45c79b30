//! JSON's grammar, one byte at a time: where a text stops being the start of some JSON.
ghost use Rattle.std.specs.Prelude.{◌≡◌, IfOk, option_copied};
ghost use Rattle.shader_json_reader.specs.Grammar.{IsNext, behind_bracket, move, move_at_comma, move_at_end, move_at_key, move_at_value};
ghost use Rattle.shader_json_reader.specs.Grammar.{move_before, move_behind_item, move_behind_value, move_in_number, move_in_string};
ghost use Rattle.shader_json_reader.specs.Grammar.{move_in_word, step_by, stop_of};
ghost use Rattle.shader_json_reader.specs.Parts.{behind_any, behind_d, behind_e, behind_escape, behind_first, behind_first_digit};
ghost use Rattle.shader_json_reader.specs.Parts.{behind_integer, behind_letter, behind_sign, behind_string, is_blank, is_escape};
ghost use Rattle.shader_json_reader.specs.Parts.{letter, may_end, more, next_character, next_digits};

use json::MAX_DEPTH;
use std::alloc::{AllocError, Global};

/// The bracket that begins an array or an object.
#[derive(Clone, Copy)]
pub enum Bracket {
    Array,
    Object,
}

/// The use of a string.
#[derive(Clone, Copy)]
pub enum Role {
    Key,
    Value,
}

/// The part of a string that comes next. A code unit is what four hexadecimal digits spell, and a surrogate stands only in a pair.
#[derive(Clone, Copy)]
pub enum Character {
    /// A character, or the quote that ends the string.
    Any,
    /// The name of an escape, behind its backslash.
    Escape,
    /// The four digits of a code unit.
    FourDigits,
    /// The last three digits of a code unit that begins with `d`, and is no low surrogate.
    ThreeBehindD,
    /// The last three digits of a code unit that begins otherwise.
    ThreeDigits,
    /// The last two digits of a code unit, after which the character is complete.
    TwoDigits,
    /// The last digit of such a code unit.
    OneDigit,
    /// The last two digits of a high surrogate.
    TwoOfHigh,
    /// The last digit of a high surrogate.
    OneOfHigh,
    /// The backslash of a low surrogate.
    LowBackslash,
    /// The `u` of a low surrogate.
    LowU,
    /// The four digits of a low surrogate.
    FourOfLow,
    /// The last three digits of a low surrogate.
    ThreeOfLow,
}

/// The part of a number that comes next.
#[derive(Clone, Copy)]
pub enum Digits {
    /// The first digit, behind a minus.
    First,
    /// What follows the integer 0.
    BehindZero,
    /// More digits of another integer, or what follows it.
    Integer,
    /// The first digit of a fraction.
    FirstOfFraction,
    /// More digits of a fraction, or what follows it.
    Fraction,
    /// The sign or the first digit of an exponent.
    SignOfExponent,
    /// The first digit of an exponent, behind its sign.
    FirstOfExponent,
    /// More digits of an exponent, or what follows the number.
    Exponent,
}

/// The letters of `true`, `false` or `null` that are still to come.
#[derive(Clone, Copy)]
pub enum Letters {
    Rue,
    Ue,
    E,
    Alse,
    Lse,
    Se,
    Ull,
    Ll,
    L,
}

/// What a text may go on with, if the brackets are known that are open.
#[derive(Clone, Copy)]
pub enum Expected {
    /// A value.
    Value,
    /// The first item of an array, or its end.
    ItemOrEnd,
    /// The first key of an object, or its end.
    KeyOrEnd,
    /// A key.
    Key,
    /// The colon behind a key.
    Colon,
    /// A comma or the closing bracket, or the end of the text if no bracket is open.
    CommaOrEnd,
    /// More of a string.
    String(Role, Character),
    /// More of a number.
    Number(Digits),
    /// More of a word.
    Word(Letters),
}

/// What a byte does.
#[derive(Clone, Copy)]
pub enum Move {
    /// It goes on to what is expected next.
    To(Expected),
    /// It opens a bracket.
    Open(Bracket),
    /// It closes the innermost bracket.
    Close,
}

/// The byte at which a text stops being the start of some JSON, or the length of a text that is too short.
#[derive(Clone, Copy)]
pub enum Stop {
    /// No JSON goes on so.
    NotJson(usize),
    /// A bracket inside 128 others.
    TooDeep(usize),
}

/// What follows a byte: what is expected next, or a stop.
#[derive(Clone, Copy)]
pub enum Next {
    Goes(Expected),
    Stops(Stop),
}

/// Returns whether a byte is white space.
fn is_blank(byte: u8) -> bool
    ensures { result ≡ is_blank byte }
{
    byte == b' ' || byte == b'\t' || byte == b'\n' || byte == b'\r'
}

/// Returns whether a byte behind a backslash is the name of an escape other than `u`.
fn is_escape(byte: u8) -> bool
    ensures { result ≡ is_escape byte }
{
    byte == b'"'
        || byte == b'\\'
        || byte == b'/'
        || byte == b'b'
        || byte == b'f'
        || byte == b'n'
        || byte == b'r'
        || byte == b't'
}

/// Returns what follows a byte of a string that no backslash precedes and that isn't the quote at the end.
fn behind_any(byte: u8) -> Option<Character>
    ensures { result ≡ behind_any byte }
{
    if byte == b'\\' {
        Some(Character::Escape)
    } else {
        (b' ' <= byte).then_some(Character::Any)
    }
}

/// Returns what follows the name of an escape.
fn behind_escape(byte: u8) -> Option<Character>
    ensures { result ≡ behind_escape byte }
{
    if byte == b'u' {
        Some(Character::FourDigits)
    } else {
        is_escape(byte).then_some(Character::Any)
    }
}

/// Returns what follows the first digit of a code unit.
fn behind_first_digit(byte: u8) -> Option<Character>
    ensures { result ≡ behind_first_digit byte }
{
    if byte == b'd' || byte == b'D' {
        Some(Character::ThreeBehindD)
    } else {
        byte.is_ascii_hexdigit().then_some(Character::ThreeDigits)
    }
}

/// Returns what follows the second digit of a code unit that begins with `d`. A low surrogate has no high one before it here.
fn behind_d(byte: u8) -> Option<Character>
    ensures { result ≡ behind_d byte }
{
    if matches!(byte, b'0'..=b'7') {
        Some(Character::TwoDigits)
    } else {
        matches!(byte, b'8'..=b'9' | b'A'..=b'B' | b'a'..=b'b').then_some(Character::TwoOfHigh)
    }
}

/// Returns the next part of a string behind a byte of this part, other than the quote at the end.
fn next_character(character: Character, byte: u8) -> Option<Character>
    ensures { result ≡ next_character character byte }
{
    match character {
        Character::Any => behind_any(byte),
        Character::Escape => behind_escape(byte),
        Character::FourDigits => behind_first_digit(byte),
        Character::ThreeBehindD => behind_d(byte),
        Character::ThreeDigits => byte.is_ascii_hexdigit().then_some(Character::TwoDigits),
        Character::TwoDigits => byte.is_ascii_hexdigit().then_some(Character::OneDigit),
        Character::OneDigit => byte.is_ascii_hexdigit().then_some(Character::Any),
        Character::TwoOfHigh => byte.is_ascii_hexdigit().then_some(Character::OneOfHigh),
        Character::OneOfHigh => byte.is_ascii_hexdigit().then_some(Character::LowBackslash),
        Character::LowBackslash => (byte == b'\\').then_some(Character::LowU),
        Character::LowU => (byte == b'u').then_some(Character::FourOfLow),
        Character::FourOfLow => (byte == b'd' || byte == b'D').then_some(Character::ThreeOfLow),
        Character::ThreeOfLow => {
            matches!(byte, b'C'..=b'F' | b'c'..=b'f').then_some(Character::TwoDigits)
        }
    }
}

/// Returns what follows a string.
fn behind_string(role: Role) -> Expected
    ensures { result ≡ behind_string role }
{
    match role {
        Role::Key => Expected::Colon,
        Role::Value => Expected::CommaOrEnd,
    }
}

/// Returns what a byte does in a string.
fn move_in_string(role: Role, character: Character, byte: u8) -> Option<Move>
    ensures { result ≡ move_in_string role character byte }
{
    match (character, byte) {
        (Character::Any, b'"') => Some(Move::To(behind_string(role))),
        _ => Some(Move::To(Expected::String(role, next_character(character, byte)?))),
    }
}

/// Returns what follows the first digit of a number.
fn behind_first(byte: u8) -> Option<Digits>
    ensures { result ≡ behind_first byte }
{
    if byte == b'0' {
        Some(Digits::BehindZero)
    } else {
        byte.is_ascii_digit().then_some(Digits::Integer)
    }
}

/// Returns what follows the `e` of an exponent.
fn behind_e(byte: u8) -> Option<Digits>
    ensures { result ≡ behind_e byte }
{
    (byte == b'e' || byte == b'E').then_some(Digits::SignOfExponent)
}

/// Returns what follows the point or the `e` behind an integer.
fn behind_integer(byte: u8) -> Option<Digits>
    ensures { result ≡ behind_integer byte }
{
    if byte == b'.' {
        Some(Digits::FirstOfFraction)
    } else {
        behind_e(byte)
    }
}

/// Returns what follows the sign or the first digit of an exponent.
fn behind_sign(byte: u8) -> Option<Digits>
    ensures { result ≡ behind_sign byte }
{
    if byte == b'+' || byte == b'-' {
        Some(Digits::FirstOfExponent)
    } else {
        byte.is_ascii_digit().then_some(Digits::Exponent)
    }
}

/// Returns these digits if a byte is one of them, and else what follows them.
fn more(byte: u8, digits: Digits, other: Option<Digits>) -> Option<Digits>
    ensures { result ≡ more byte digits other }
{
    if byte.is_ascii_digit() {
        Some(digits)
    } else {
        other
    }
}

/// Returns the next part of a number, behind a byte of it.
fn next_digits(digits: Digits, byte: u8) -> Option<Digits>
    ensures { result ≡ next_digits digits byte }
{
    match digits {
        Digits::First => behind_first(byte),
        Digits::BehindZero => behind_integer(byte),
        Digits::Integer => more(byte, Digits::Integer, behind_integer(byte)),
        Digits::FirstOfFraction => more(byte, Digits::Fraction, None),
        Digits::Fraction => more(byte, Digits::Fraction, behind_e(byte)),
        Digits::SignOfExponent => behind_sign(byte),
        Digits::FirstOfExponent | Digits::Exponent => more(byte, Digits::Exponent, None),
    }
}

/// Returns whether a number may end before this part.
fn may_end(digits: Digits) -> bool
    ensures { result ≡ may_end digits }
{
    match digits {
        Digits::BehindZero | Digits::Integer | Digits::Fraction | Digits::Exponent => true,
        Digits::First
        | Digits::FirstOfFraction
        | Digits::SignOfExponent
        | Digits::FirstOfExponent => false,
    }
}

/// Returns the first of these letters.
fn letter(letters: Letters) -> u8
    ensures { result ≡ letter letters }
{
    match letters {
        Letters::Rue => b'r',
        Letters::Ue | Letters::Ull => b'u',
        Letters::E => b'e',
        Letters::Alse => b'a',
        Letters::Lse | Letters::Ll | Letters::L => b'l',
        Letters::Se => b's',
    }
}

/// Returns what follows the first of these letters.
fn behind_letter(letters: Letters) -> Expected
    ensures { result ≡ behind_letter letters }
{
    match letters {
        Letters::Rue => Expected::Word(Letters::Ue),
        Letters::Ue | Letters::Se => Expected::Word(Letters::E),
        Letters::Alse => Expected::Word(Letters::Lse),
        Letters::Lse => Expected::Word(Letters::Se),
        Letters::Ull => Expected::Word(Letters::Ll),
        Letters::Ll => Expected::Word(Letters::L),
        Letters::E | Letters::L => Expected::CommaOrEnd,
    }
}

/// Returns what a byte does in a word.
fn move_in_word(letters: Letters, byte: u8) -> Option<Move>
    ensures { result ≡ move_in_word letters byte }
{
    (byte == letter(letters)).then_some(Move::To(behind_letter(letters)))
}

/// Returns what the first byte of a value does.
fn move_at_value(byte: u8) -> Option<Move>
    ensures { result ≡ move_at_value byte }
{
    if byte == b'[' {
        Some(Move::Open(Bracket::Array))
    } else if byte == b'{' {
        Some(Move::Open(Bracket::Object))
    } else if byte == b'"' {
        Some(Move::To(Expected::String(Role::Value, Character::Any)))
    } else if byte == b't' {
        Some(Move::To(Expected::Word(Letters::Rue)))
    } else if byte == b'f' {
        Some(Move::To(Expected::Word(Letters::Alse)))
    } else if byte == b'n' {
        Some(Move::To(Expected::Word(Letters::Ull)))
    } else if byte == b'-' {
        Some(Move::To(Expected::Number(Digits::First)))
    } else {
        Some(Move::To(Expected::Number(behind_first(byte)?)))
    }
}

/// Returns what the first byte of a key does.
fn move_at_key(byte: u8) -> Option<Move>
    ensures { result ≡ move_at_key byte }
{
    (byte == b'"').then_some(Move::To(Expected::String(Role::Key, Character::Any)))
}

/// Returns what a byte does that may be white space before what is expected.
fn move_before(expected: Expected, other: Option<Move>, byte: u8) -> Option<Move>
    ensures { result ≡ move_before expected other byte }
{
    if is_blank(byte) {
        Some(Move::To(expected))
    } else {
        other
    }
}

/// Returns what a byte does that may be this closing bracket.
fn move_at_end(end: u8, other: Option<Move>, byte: u8) -> Option<Move>
    ensures { result ≡ move_at_end end other byte }
{
    if byte == end {
        Some(Move::Close)
    } else {
        other
    }
}

/// Returns what a byte does that may be a comma before what is expected.
fn move_at_comma(expected: Expected, other: Option<Move>, byte: u8) -> Option<Move>
    ensures { result ≡ move_at_comma expected other byte }
{
    if byte == b',' {
        Some(Move::To(expected))
    } else {
        other
    }
}

/// Returns what a byte does behind a value, inside a bracket.
fn move_behind_item(bracket: Bracket, byte: u8) -> Option<Move>
    ensures { result ≡ move_behind_item bracket byte }
{
    match bracket {
        Bracket::Array => move_at_comma(Expected::Value, move_at_end(b']', None, byte), byte),
        Bracket::Object => move_at_comma(Expected::Key, move_at_end(b'}', None, byte), byte),
    }
}

/// Returns what a byte does behind a value, by the innermost open bracket.
fn move_behind_value(inside: Option<Bracket>, byte: u8) -> Option<Move>
    ensures { result ≡ move_behind_value inside byte }
{
    let other = match inside {
        Some(bracket) => move_behind_item(bracket, byte),
        None => None,
    };
    move_before(Expected::CommaOrEnd, other, byte)
}

/// Returns what a byte does in a number, or behind it.
fn move_in_number(digits: Digits, inside: Option<Bracket>, byte: u8) -> Option<Move>
    ensures { result ≡ move_in_number digits (next_digits digits byte) inside byte }
{
    match next_digits(digits, byte) {
        Some(next) => Some(Move::To(Expected::Number(next))),
        None => if may_end(digits) {
            move_behind_value(inside, byte)
        } else {
            None
        },
    }
}

impl Expected {
    /// Returns what a byte does, by the innermost open bracket. `None` if no JSON goes on so.
    fn after(self, inside: Option<Bracket>, byte: u8) -> Option<Move>
        ensures { result ≡ move self inside byte }
    {
        match self {
            Expected::Value => move_before(self, move_at_value(byte), byte),
            Expected::ItemOrEnd => {
                move_before(self, move_at_end(b']', move_at_value(byte), byte), byte)
            }
            Expected::KeyOrEnd => {
                move_before(self, move_at_end(b'}', move_at_key(byte), byte), byte)
            }
            Expected::Key => move_before(self, move_at_key(byte), byte),
            Expected::Colon => {
                let value = (byte == b':').then_some(Move::To(Expected::Value));
                move_before(self, value, byte)
            }
            Expected::CommaOrEnd => move_behind_value(inside, byte),
            Expected::String(role, character) => move_in_string(role, character, byte),
            Expected::Number(digits) => move_in_number(digits, inside, byte),
            Expected::Word(letters) => move_in_word(letters, byte),
        }
    }
}

impl Bracket {
    /// Returns what follows the bracket.
    fn first(self) -> Expected
        ensures { result ≡ behind_bracket self }
    {
        match self {
            Bracket::Array => Expected::ItemOrEnd,
            Bracket::Object => Expected::KeyOrEnd,
        }
    }
}

/// Goes on by what the byte at this index does, with these open brackets, the innermost last.
fn go_on(brackets: &mut Vec<Bracket>, done: Option<Move>, at: usize) -> Result<Next, AllocError>
    ensures { IfOk result (λ next. IsNext (step_by at brackets.old.items done) next brackets.new.items) }
{
    match done {
        None => Ok(Next::Stops(Stop::NotJson(at))),
        Some(Move::To(expected)) => Ok(Next::Goes(expected)),
        Some(Move::Open(bracket)) => {
            if brackets.len() == MAX_DEPTH {
                return Ok(Next::Stops(Stop::TooDeep(at)));
            }
            brackets.push(bracket)?;
            Ok(Next::Goes(bracket.first()))
        }
        Some(Move::Close) => {
            brackets.pop();
            Ok(Next::Goes(Expected::CommaOrEnd))
        }
    }
}

impl Stop {
    /// Finds the byte at which a text stops being the start of some JSON.
    ///
    /// # Errors
    ///
    /// `AllocError` if an allocation fails.
    pub fn of(alloc: Global, text: &[u8]) -> Result<Stop, AllocError>
        ensures { IfOk result (λ stop. stop ≡ stop_of text.now) }
    {
        let mut brackets = Vec::new(alloc);
        let mut expected = Expected::Value;
        let mut at = 0;
        for byte in text {
            let done = expected.after(brackets.as_slice().last().copied(), *byte);
            match go_on(&mut brackets, done, at)? {
                Next::Goes(next) => expected = next,
                Next::Stops(stop) => return Ok(stop),
            }
            at += 1;
        }
        Ok(Stop::NotJson(at))
    }
}
