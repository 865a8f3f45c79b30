//! The law that the byte at which a text stops being the start of some JSON depends on no byte behind it.
ghost use Rattle.shader_json_reader.specs.Laws.{StopLooksNoFurther};

/// States that texts with the same beginning stop alike, if one stops within it.
pub fn stop_looks_no_further()
    ensures { StopLooksNoFurther }
{}
