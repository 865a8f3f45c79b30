//! Splitting of byte strings.

ghost use Rattle.std.specs.Prelude.{◌≡◌, ◌==◌, position};
ghost use Rattle.std.specs.Option.{option_map};
ghost use Rattle.shader_type_text.specs.Cuts.{after_prefix, before_suffix, generic_parts};

/// Returns the position of the first occurrence of the byte.
pub fn index_of(bytes: &[u8], byte: u8) -> Option<usize>
    ensures { result ≡ position (λ b. b == byte) bytes.now }
{
    bytes.iter().position(|b| *b == byte)
}

/// Returns the bytes after this beginning, if the string begins so.
pub fn after_prefix<'a>(bytes: &'a [u8], beginning: &[u8]) -> Option<&'a [u8]>
    ensures { option_map (λ rest. rest.now) result ≡ after_prefix beginning.now bytes.now }
{
    bytes.strip_prefix(beginning)
}

/// Returns the bytes before this end, if the string ends so.
pub fn before_suffix<'a>(bytes: &'a [u8], end: &[u8]) -> Option<&'a [u8]>
    ensures { option_map (λ front. front.now) result ≡ before_suffix end.now bytes.now }
{
    bytes.strip_suffix(end)
}

/// Returns the name and the argument of `name<argument>`, split at the first bracket.
pub fn split_generic(word: &[u8]) -> Option<(&[u8], &[u8])>
    ensures { option_map (λ parts. (parts.0.now, parts.1.now)) result ≡ generic_parts word.now }
{
    let at = index_of(word, b'<')?;
    let argument = before_suffix(&word[at + 1..], b">")?;
    Some((&word[..at], argument))
}
