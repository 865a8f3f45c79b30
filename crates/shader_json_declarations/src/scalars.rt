//! Reads scalars, sizes, and the roles of cooperative matrices.
ghost use Rattle.shader_json_declarations.specs.Names.{cooperative_name, kind_name, role_name, size_name};
ghost use Rattle.shader_json_declarations.specs.Scalars.{IsCooperativeSize, IsKind, IsRole, IsScalar, IsSize};

use crate::fields::Fields;
use crate::names::{Spelled, named};
use crate::values::Read;
use json::Value;
use shader_ir::{CooperativeRole, CooperativeSize, Scalar, ScalarKind, VectorSize};
use shader_json_reader::{Context, Failure};

impl Spelled for ScalarKind {
    ghost spelling = { λ item. kind_name item };
}

impl Read for ScalarKind {
    ghost reads = { λ j kind. IsKind j kind };

    fn read(context: Context, value: &Value<'_>) -> Result<ScalarKind, Failure> {
        let table = [
            ("Sint", ScalarKind::Sint),
            ("Uint", ScalarKind::Uint),
            ("Float", ScalarKind::Float),
            ("Bool", ScalarKind::Bool),
            ("AbstractInt", ScalarKind::AbstractInt),
            ("AbstractFloat", ScalarKind::AbstractFloat),
        ];
        named(context, value, &table, "the name of a kind of scalars")
    }
}

impl Read for Scalar {
    ghost reads = { λ j scalar. IsScalar j scalar };

    fn read(context: Context, value: &Value<'_>) -> Result<Scalar, Failure> {
        let (kind, width) = Fields::of(context, value)?.pair(context, "kind", "width")?;
        Ok(Scalar { kind, width })
    }
}

impl Spelled for VectorSize {
    ghost spelling = { λ item. size_name item };
}

impl Read for VectorSize {
    ghost reads = { λ j size. IsSize j size };

    fn read(context: Context, value: &Value<'_>) -> Result<VectorSize, Failure> {
        let table = [
            ("Bi", VectorSize::Bi),
            ("Tri", VectorSize::Tri),
            ("Quad", VectorSize::Quad),
        ];
        named(context, value, &table, "`Bi`, `Tri` or `Quad`")
    }
}

impl Spelled for CooperativeSize {
    ghost spelling = { λ item. cooperative_name item };
}

impl Read for CooperativeSize {
    ghost reads = { λ j size. IsCooperativeSize j size };

    fn read(context: Context, value: &Value<'_>) -> Result<CooperativeSize, Failure> {
        let table = [
            ("Eight", CooperativeSize::Eight),
            ("Sixteen", CooperativeSize::Sixteen),
        ];
        named(context, value, &table, "`Eight` or `Sixteen`")
    }
}

impl Spelled for CooperativeRole {
    ghost spelling = { λ item. role_name item };
}

impl Read for CooperativeRole {
    ghost reads = { λ j role. IsRole j role };

    fn read(context: Context, value: &Value<'_>) -> Result<CooperativeRole, Failure> {
        let table = [
            ("A", CooperativeRole::A),
            ("B", CooperativeRole::B),
            ("C", CooperativeRole::C),
        ];
        named(context, value, &table, "`A`, `B` or `C`")
    }
}
