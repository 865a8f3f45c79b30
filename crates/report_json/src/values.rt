//! Numbers, truth values, texts, handles and optional values as JSON.
ghost use Rattle.std.specs.Prelude.{◌∷◌, [], string_bytes};
ghost use Rattle.json.specs.Token.{boolean};
ghost use Rattle.report_json.specs.Tokens.{number_tokens, optional_tokens, text_tokens};

use crate::write_json::WriteJson;
use json::Writer;
use shader_arena::Handle;
use shader_ir::mark;
use std::alloc::{AllocError, Global};

impl WriteJson for bool {
    ghost tokens = { λ value. boolean value ∷ [] };

    fn write_json(&self, _alloc: Global, writer: &mut Writer) -> Result<(), AllocError> {
        writer.boolean(*self)
    }
}

impl WriteJson for u8 {
    ghost tokens = { λ value. number_tokens value };

    fn write_json(&self, _alloc: Global, writer: &mut Writer) -> Result<(), AllocError> {
        writer.u64(*self as u64)
    }
}

impl WriteJson for u32 {
    ghost tokens = { λ value. number_tokens value };

    fn write_json(&self, _alloc: Global, writer: &mut Writer) -> Result<(), AllocError> {
        writer.u64(*self as u64)
    }
}

impl WriteJson for usize {
    ghost tokens = { λ value. number_tokens value };

    fn write_json(&self, _alloc: Global, writer: &mut Writer) -> Result<(), AllocError> {
        writer.u64(*self as u64)
    }
}

impl WriteJson for Handle<mark::Type> {
    ghost tokens = { λ handle. number_tokens handle };

    fn write_json(&self, _alloc: Global, writer: &mut Writer) -> Result<(), AllocError> {
        writer.u64(self.index() as u64)
    }
}

impl WriteJson for Handle<mark::Expression> {
    ghost tokens = { λ handle. number_tokens handle };

    fn write_json(&self, _alloc: Global, writer: &mut Writer) -> Result<(), AllocError> {
        writer.u64(self.index() as u64)
    }
}

impl WriteJson for Handle<mark::Override> {
    ghost tokens = { λ handle. number_tokens handle };

    fn write_json(&self, _alloc: Global, writer: &mut Writer) -> Result<(), AllocError> {
        writer.u64(self.index() as u64)
    }
}

impl WriteJson for Handle<mark::Function> {
    ghost tokens = { λ handle. number_tokens handle };

    fn write_json(&self, _alloc: Global, writer: &mut Writer) -> Result<(), AllocError> {
        writer.u64(self.index() as u64)
    }
}

impl WriteJson for String {
    ghost tokens = { λ text. text_tokens (string_bytes text) };

    fn write_json(&self, _alloc: Global, writer: &mut Writer) -> Result<(), AllocError> {
        writer.string(self.as_str())
    }
}

impl<T: WriteJson> WriteJson for &T {
    ghost tokens = { λ value. T.tokens value.now };

    fn write_json(&self, alloc: Global, writer: &mut Writer) -> Result<(), AllocError> {
        (**self).write_json(alloc, writer)
    }
}

impl<T: WriteJson> WriteJson for Option<T> {
    ghost tokens = { λ value. optional_tokens T.tokens value };

    fn write_json(&self, alloc: Global, writer: &mut Writer) -> Result<(), AllocError> {
        match self {
            Some(value) => value.write_json(alloc, writer),
            None => writer.null(),
        }
    }
}
