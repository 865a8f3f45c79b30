//! Whether diagnostics have the same causes.
ghost use Rattle.std.specs.Prelude.{◌≡◌, slice_get};
ghost use Rattle.std.specs.Option.{option_copied};
ghost use Rattle.report_blocks.specs.Causes.{are_same, has_same_causes, is_repeated, is_same, is_same_pointer, repeats};

use report_diagnostics::{Diagnostic, Related, Text};

/// Checks whether two JSON pointers are there and equal.
fn is_same_pointer(one: &Option<Text>, other: &Option<Text>) -> bool
    ensures { result ≡ is_same_pointer one.now other.now }
{
    match one {
        Some(one) => match other {
            Some(other) => one.as_str().as_bytes() == other.as_str().as_bytes(),
            None => false,
        },
        None => false,
    }
}

/// Checks whether two causes are the same.
fn is_same(one: &Related, other: &Related) -> bool
    ensures { result ≡ is_same one.now other.now }
{
    is_same_pointer(&one.location.pointer, &other.location.pointer)
        && one.message.as_str().as_bytes() == other.message.as_str().as_bytes()
}

/// Checks whether causes are the same, one by one.
fn are_same(one: &[Related], other: &[Related]) -> bool
    ensures { result ≡ are_same one.now other.now }
{
    let (mut left, mut right) = (one, other);
    while let Some((first, rest)) = left.split_first() {
        let Some((second, others)) = right.split_first() else {
            return false;
        };
        if !is_same(first, second) {
            return false;
        }
        (left, right) = (rest, others);
    }
    right.is_empty()
}

/// Checks whether two diagnostics in the same function have the same causes, and have any.
fn has_same_causes(one: &Diagnostic, other: &Diagnostic) -> bool
    ensures { result ≡ has_same_causes one.now other.now }
{
    one.location.body == other.location.body
        && one.omitted == other.omitted
        && !one.related.is_empty()
        && are_same(one.related.as_slice(), other.related.as_slice())
}

/// Returns the diagnostic at an index, if there is one.
fn diagnostic_at(diagnostics: &[Diagnostic], index: usize) -> Option<&Diagnostic>
    ensures { option_copied result ≡ slice_get diagnostics.now index }
{
    diagnostics.get(index)
}

/// Checks whether a diagnostic has the causes of the one before it, if both are there.
fn repeats(last: Option<&Diagnostic>, next: Option<&Diagnostic>) -> bool
    ensures { result ≡ repeats (option_copied last.entry) (option_copied next.entry) }
{
    match last {
        Some(last) => match next {
            Some(next) => has_same_causes(last, next),
            None => false,
        },
        None => false,
    }
}

/// Checks whether the diagnostic at an index has the causes of the one before it.
pub fn is_repeated(diagnostics: &[Diagnostic], index: usize) -> bool
    ensures { result ≡ is_repeated diagnostics.now index }
{
    if index == 0 {
        return false;
    }
    let last = diagnostic_at(diagnostics, index - 1);
    repeats(last, diagnostic_at(diagnostics, index))
}
