//! Guesses the format of an input that isn't JSON.
ghost use Rattle.std.specs.Prelude.{◌≡◌};
ghost use Rattle.report_input.specs.Forms.{form_by_start, form_in, form_of, form_of_rest, form_of_some};
ghost use Rattle.report_input.specs.Forms.{is_declaration, is_spirv, is_utf16, is_wgsl, rest_of};

/// The format that an input which isn't JSON seems to have.
#[derive(Clone, Copy, Debug, PartialEq, Eq)]
pub enum Form {
    /// Only white space, or no byte at all.
    Blank,
    /// A byte order mark of UTF-8 at the start.
    ByteOrderMark,
    /// A text in UTF-16.
    Utf16,
    /// A module of SPIR-V.
    SpirV,
    /// A shader in GLSL.
    Glsl,
    /// A shader in WGSL.
    Wgsl,
    /// A value in RON.
    Ron,
    /// A comment at the byte at which parsing stopped.
    Comment,
    /// A text that ends before the JSON value does.
    CutOff,
    /// Any other text.
    Other,
}

/// Returns whether a text is UTF-16: it begins with a byte order mark or an opening brace, in either byte order.
fn is_utf16(start: &[u8]) -> bool
    ensures { result ≡ is_utf16 start.now }
{
    start.starts_with(b"\xff\xfe")
        || start.starts_with(b"\xfe\xff")
        || start.starts_with(b"{\0")
        || start.starts_with(b"\0{")
}

/// Returns whether a text begins with the magic number of SPIR-V, in either byte order.
fn is_spirv(start: &[u8]) -> bool
    ensures { result ≡ is_spirv start.now }
{
    start.starts_with(b"\x03\x02\x23\x07") || start.starts_with(b"\x07\x23\x02\x03")
}

/// Returns whether a text begins as a declaration of WGSL does.
fn is_declaration(start: &[u8]) -> bool
    ensures { result ≡ is_declaration start.now }
{
    start.starts_with(b"@")
        || start.starts_with(b"fn ")
        || start.starts_with(b"struct ")
        || start.starts_with(b"var")
        || start.starts_with(b"const")
        || start.starts_with(b"let ")
}

/// Returns whether a text begins as a module of WGSL does.
fn is_wgsl(start: &[u8]) -> bool
    ensures { result ≡ is_wgsl start.now }
{
    is_declaration(start)
        || start.starts_with(b"override ")
        || start.starts_with(b"alias ")
        || start.starts_with(b"enable ")
        || start.starts_with(b"requires ")
        || start.starts_with(b"diagnostic")
}

/// Guesses the format from the start of a text. Returns `other` if the start fits none.
fn form_by_start(start: &[u8], other: Form) -> Form
    ensures { result ≡ form_by_start start.now other }
{
    if start.starts_with(b"\xef\xbb\xbf") {
        Form::ByteOrderMark
    } else if is_utf16(start) {
        Form::Utf16
    } else if is_spirv(start) {
        Form::SpirV
    } else if start.starts_with(b"#version") {
        Form::Glsl
    } else if is_wgsl(start) {
        Form::Wgsl
    } else if start.starts_with(b"(") {
        Form::Ron
    } else {
        other
    }
}

/// Guesses the format from the text after the byte where parsing stopped.
fn form_of_rest(rest: &[u8]) -> Form
    ensures { result ≡ form_of_rest rest.now }
{
    if rest.starts_with(b"//") || rest.starts_with(b"/*") {
        Form::Comment
    } else {
        Form::Other
    }
}

/// Guesses the format of a text that isn't blank, from its first token or, failing that, from the byte where parsing stopped.
fn form_of_some(start: &[u8], rest: &[u8]) -> Form
    ensures { result ≡ form_of_some start.now rest.now }
{
    if rest.is_empty() {
        Form::CutOff
    } else {
        form_by_start(start, form_of_rest(rest))
    }
}

/// Guesses the format of input that is not JSON.
fn form_of(start: &[u8], rest: &[u8]) -> Form
    ensures { result ≡ form_of start.now rest.now }
{
    if start.is_empty() {
        Form::Blank
    } else {
        form_of_some(start, rest)
    }
}

/// Returns the text from this byte on.
fn rest_of(text: &[u8], byte: usize) -> &[u8]
    ensures { result.now ≡ rest_of text.now byte }
{
    &text[byte.min(text.len())..]
}

impl Form {
    /// Guesses the format of a text of which `byte` is the first byte that isn't JSON.
    pub fn of(text: &[u8], byte: usize) -> Form
        ensures { result ≡ form_in text.now byte }
    {
        let rest = rest_of(text, byte);
        form_of(text.trim_ascii_start(), rest)
    }
}
