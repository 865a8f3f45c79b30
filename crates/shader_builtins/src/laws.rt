//! Laws on the table of built-in values. Each law is the contract of a function that does nothing.
ghost use Rattle.std.specs.Prelude.{IsTrue};
ghost use Rattle.shader_builtins.specs.BuiltIns.{names_are_distinct, values_are_distinct};

/// States that a name and a flag stand for one value, and that no two stand for the same.
pub fn values_are_distinct()
    ensures names { IsTrue names_are_distinct }
    ensures values { IsTrue values_are_distinct }
{}
