//! Texts that contracts see as their bytes.
ghost use Rattle.std.specs.Prelude.{◌≡◌, string_bytes};
ghost use Rattle.report_json.specs.Tokens.{text_tokens};

use json::Writer;
use report_json::WriteJson;
use std::alloc::{AllocError, Global};
use std::marker::Model;

/// A text of a diagnostic, seen as its bytes.
#[derive(Debug, Drop)]
pub struct Text {
    content: String,
}

impl Model for Text {
    ghost use Rattle.std.specs.Prelude.{ℕ, List, string_bytes};

    ghost Value = { List ℕ };

    ghost view = { λ text. string_bytes text.content };
}

impl Text {
    /// Returns the text as a `&str`.
    pub fn as_str(&self) -> &str
        ensures { result.now ≡ self.now }
    {
        self.content.as_str()
    }
}

impl From<String> for Text {
    ghost from_gives = { λ content text. text ≡ string_bytes content };

    fn from(content: String) -> Text {
        Text { content }
    }
}

impl WriteJson for Text {
    ghost tokens = { λ text. text_tokens text };

    fn write_json(&self, _alloc: Global, writer: &mut Writer) -> Result<(), AllocError> {
        writer.string(self.content.as_str())
    }
}
