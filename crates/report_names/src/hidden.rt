//! Characters that a reader can't see, or takes for something else.
ghost use Rattle.std.specs.Prelude.{◌≡◌};
ghost use Rattle.report_names.specs.Names.{is_escaped, is_hidden};

/// The first and the last of each run of hidden characters: controls and blanks, marks of direction, fillers, invisible operators,
/// variation selectors and tags.
const HIDDEN: [(u32, u32); 19] = [
    (0x0, 0x20),
    (0x7F, 0xA0),
    (0xAD, 0xAD),
    (0x61C, 0x61C),
    (0x115F, 0x1160),
    (0x1680, 0x1680),
    (0x17B4, 0x17B5),
    (0x180B, 0x180F),
    (0x2000, 0x200F),
    (0x2028, 0x202F),
    (0x205F, 0x206F),
    (0x2800, 0x2800),
    (0x3000, 0x3000),
    (0x3164, 0x3164),
    (0xFE00, 0xFE0F),
    (0xFEFF, 0xFEFF),
    (0xFFA0, 0xFFA0),
    (0xFFF0, 0xFFFF),
    (0xE0000, 0xE0FFF),
];

/// Returns whether a character can't be seen, or changes how others are seen: a control, a blank, a mark of direction (Unicode,
/// "Bidirectional Algorithm"), a filler or a variation selector. A name that has one could look like another name.
#[tactic(auto, unfolding(crate::specs::Names::is_hidden))]
pub fn is_hidden(character: char) -> bool
    ensures { result ≡ is_hidden character }
{
    let code = character as u32;
    HIDDEN.iter().any(|run| run.0 <= code && code <= run.1)
}

/// Returns whether a character of a name is written as an escape: a hidden one, or one of those that quote.
pub(crate) fn is_escaped(character: char) -> bool
    ensures { result ≡ is_escaped character }
{
    match character {
        '"' | '\\' | '`' => true,
        _ => is_hidden(character),
    }
}
