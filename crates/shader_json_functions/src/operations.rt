//! Reads the components of statements: case values, and operations on atomics, subgroups and rays.
ghost use Rattle.shader_json_functions.specs.Operations.{IsAtomic, IsBarrier, IsCollective, IsDirection, IsMode};
ghost use Rattle.shader_json_functions.specs.Operations.{IsOperation, IsPipelineFunction, IsQueryFunction, IsSwitchValue};
ghost use Rattle.shader_json_functions.specs.Operations.{collective_name, direction_name, operation_name};

use crate::code::Code;
use json::Value;
use shader_ir::{
    AtomicFunction, Barrier, CollectiveOperation, Direction, GatherMode, RayPipelineFunction,
    RayQueryFunction, SubgroupOperation, SwitchValue,
};
use shader_json_declarations::{Read, Spelled, Variant, named};
use shader_json_reader::{Context, Failure, flags};

impl Read for Code<Barrier> {
    ghost reads = { λ j item. IsBarrier j item.0 };

    fn read(context: Context, value: &Value<'_>) -> Result<Code<Barrier>, Failure> {
        Ok(Code(flags(
            context,
            value,
            "names of `STORAGE | WORK_GROUP | SUB_GROUP | TEXTURE`",
        )?))
    }
}

impl Read for Code<SwitchValue> {
    ghost reads = { λ j item. IsSwitchValue j item.0 };

    fn read(context: Context, value: &Value<'_>) -> Result<Code<SwitchValue>, Failure> {
        let Variant { name, payload } = Variant::of(context, value)?;
        let found = match (name, payload) {
            ("I32", Some(payload)) => SwitchValue::I32(payload.read(context)?),
            ("U32", Some(payload)) => SwitchValue::U32(payload.read(context)?),
            ("Default", None) => SwitchValue::Default,
            _ => return Err(context.refused("`I32` or `U32` with a number, or `Default`")),
        };
        Ok(Code(found))
    }
}

impl Spelled for Code<Direction> {
    ghost spelling = { λ item. direction_name item.0 };
}

impl Read for Code<Direction> {
    ghost reads = { λ j item. IsDirection j item.0 };

    fn read(context: Context, value: &Value<'_>) -> Result<Code<Direction>, Failure> {
        let table = [
            ("X", Code(Direction::X)),
            ("Y", Code(Direction::Y)),
            ("Diagonal", Code(Direction::Diagonal)),
        ];
        named(context, value, &table, "`X`, `Y` or `Diagonal`")
    }
}

impl Spelled for Code<SubgroupOperation> {
    ghost spelling = { λ item. operation_name item.0 };
}

impl Read for Code<SubgroupOperation> {
    ghost reads = { λ j item. IsOperation j item.0 };

    fn read(context: Context, value: &Value<'_>) -> Result<Code<SubgroupOperation>, Failure> {
        let table = [
            ("All", Code(SubgroupOperation::All)),
            ("Any", Code(SubgroupOperation::Any)),
            ("Add", Code(SubgroupOperation::Add)),
            ("Mul", Code(SubgroupOperation::Mul)),
            ("Min", Code(SubgroupOperation::Min)),
            ("Max", Code(SubgroupOperation::Max)),
            ("And", Code(SubgroupOperation::And)),
            ("Or", Code(SubgroupOperation::Or)),
            ("Xor", Code(SubgroupOperation::Xor)),
        ];
        named(context, value, &table, "the name of a subgroup operation")
    }
}

impl Spelled for Code<CollectiveOperation> {
    ghost spelling = { λ item. collective_name item.0 };
}

impl Read for Code<CollectiveOperation> {
    ghost reads = { λ j item. IsCollective j item.0 };

    fn read(context: Context, value: &Value<'_>) -> Result<Code<CollectiveOperation>, Failure> {
        let table = [
            ("Reduce", Code(CollectiveOperation::Reduce)),
            ("InclusiveScan", Code(CollectiveOperation::InclusiveScan)),
            ("ExclusiveScan", Code(CollectiveOperation::ExclusiveScan)),
        ];
        named(
            context,
            value,
            &table,
            "`Reduce`, `InclusiveScan` or `ExclusiveScan`",
        )
    }
}

impl Read for Code<AtomicFunction> {
    ghost reads = { λ j item. IsAtomic j item.0 };

    fn read(context: Context, value: &Value<'_>) -> Result<Code<AtomicFunction>, Failure> {
        let Variant { name, payload } = Variant::of(context, value)?;
        let found = match (name, payload) {
            ("Add", None) => AtomicFunction::Add,
            ("Subtract", None) => AtomicFunction::Subtract,
            ("And", None) => AtomicFunction::And,
            ("ExclusiveOr", None) => AtomicFunction::ExclusiveOr,
            ("InclusiveOr", None) => AtomicFunction::InclusiveOr,
            ("Min", None) => AtomicFunction::Min,
            ("Max", None) => AtomicFunction::Max,
            ("Exchange", Some(payload)) => AtomicFunction::Exchange {
                compare: payload.fields(context)?.optional(context, "compare")?,
            },
            _ => return Err(context.refused("an atomic function")),
        };
        Ok(Code(found))
    }
}

impl Read for Code<GatherMode> {
    ghost reads = { λ j item. IsMode j item.0 };

    fn read(context: Context, value: &Value<'_>) -> Result<Code<GatherMode>, Failure> {
        let Variant { name, payload } = Variant::of(context, value)?;
        let found = match (name, payload) {
            ("BroadcastFirst", None) => GatherMode::BroadcastFirst,
            ("Broadcast", Some(payload)) => GatherMode::Broadcast(payload.read(context)?),
            ("Shuffle", Some(payload)) => GatherMode::Shuffle(payload.read(context)?),
            ("ShuffleDown", Some(payload)) => GatherMode::ShuffleDown(payload.read(context)?),
            ("ShuffleUp", Some(payload)) => GatherMode::ShuffleUp(payload.read(context)?),
            ("ShuffleXor", Some(payload)) => GatherMode::ShuffleXor(payload.read(context)?),
            ("QuadBroadcast", Some(payload)) => GatherMode::QuadBroadcast(payload.read(context)?),
            ("QuadSwap", Some(payload)) => GatherMode::QuadSwap(
                payload.read::<Code<Direction>>(context)?.0,
            ),
            _ => return Err(context.refused("a mode of gathering")),
        };
        Ok(Code(found))
    }
}

impl Read for Code<RayQueryFunction> {
    ghost reads = { λ j item. IsQueryFunction j item.0 };

    fn read(context: Context, value: &Value<'_>) -> Result<Code<RayQueryFunction>, Failure> {
        let Variant { name, payload } = Variant::of(context, value)?;
        let found = match (name, payload) {
            ("ConfirmIntersection", None) => RayQueryFunction::ConfirmIntersection,
            ("Terminate", None) => RayQueryFunction::Terminate,
            ("Initialize", Some(payload)) => {
                let (acceleration_structure, descriptor) = payload.pair(
                    context,
                    "acceleration_structure",
                    "descriptor",
                )?;
                RayQueryFunction::Initialize {
                    acceleration_structure,
                    descriptor,
                }
            }
            ("Proceed", Some(payload)) => RayQueryFunction::Proceed {
                result: payload.field(context, "result")?,
            },
            ("GenerateIntersection", Some(payload)) => RayQueryFunction::GenerateIntersection {
                hit_t: payload.field(context, "hit_t")?,
            },
            _ => return Err(context.refused("a function of ray queries")),
        };
        Ok(Code(found))
    }
}

impl Read for Code<RayPipelineFunction> {
    ghost reads = { λ j item. IsPipelineFunction j item.0 };

    fn read(context: Context, value: &Value<'_>) -> Result<Code<RayPipelineFunction>, Failure> {
        let Variant { name, payload } = Variant::of(context, value)?;
        let found = match (name, payload) {
            ("TraceRay", Some(payload)) => {
                let (acceleration_structure, descriptor, payload) = payload.triple(
                    context,
                    "acceleration_structure",
                    "descriptor",
                    "payload",
                )?;
                RayPipelineFunction::TraceRay {
                    acceleration_structure,
                    descriptor,
                    payload,
                }
            }
            _ => return Err(context.refused("a function of ray pipelines")),
        };
        Ok(Code(found))
    }
}
