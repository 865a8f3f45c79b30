//! Shader stages as WGSL spells them.
ghost use Rattle.std.specs.Prelude.{◌≡◌};
ghost use Rattle.report_places.specs.Stages.{stage_word};

use shader_ir::ShaderStage;

/// Returns the word for a stage: that of its attribute (WGSL, "Shader Stage Attributes"), or of naga's extensions.
pub fn stage_word(stage: ShaderStage) -> &'static str
    ensures { result.now ≡ stage_word stage }
{
    match stage {
        ShaderStage::Vertex => "vertex",
        ShaderStage::Fragment => "fragment",
        ShaderStage::Compute => "compute",
        ShaderStage::Mesh => "mesh",
        ShaderStage::Task => "task",
    }
}
