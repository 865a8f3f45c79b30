//! The law that a JSON text determines its module.
ghost use Rattle.shader_json_module.specs.Laws.{TextDeterminesModule};

/// States that a text denotes one module at most.
pub fn text_determines_module()
    ensures { TextDeterminesModule }
{}
