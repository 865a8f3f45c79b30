//! Laws on the texts of types, names and numbers. Each law is the contract of a function that does nothing.

ghost use Rattle.shader_type_text.specs.Laws.{BuiltinsAreNamed, NumbersAreDecimals, TypesAreDistinct, TypesAreSpelled};

/// States that a text is read as a type exactly if it is the type's text.
pub fn types_are_spelled()
    ensures { TypesAreSpelled }
{}

/// States that no text spells two types.
pub fn types_are_distinct()
    ensures { TypesAreDistinct }
{}

/// States that a text is read as a built-in function exactly if it is the function's name.
pub fn builtins_are_named()
    ensures { BuiltinsAreNamed }
{}

/// States that a text is read as a number of 32 bits exactly if it is the number's decimal.
pub fn numbers_are_decimals()
    ensures { NumbersAreDecimals }
{}
