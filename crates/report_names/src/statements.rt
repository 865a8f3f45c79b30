//! The built-in functions that statements call, as WGSL spells them.
ghost use Rattle.std.specs.Prelude.{◌≡◌, IfOk, string_bytes};
ghost use Rattle.report_names.specs.Statements.{atomic_word, barrier_text, collective_text, flag_word, flags_text, gather_word};
ghost use Rattle.report_names.specs.Statements.{image_atomic_word};
ghost use Rattle.report_names.specs.Statements.{memory_barrier_text, operation_word, scan_word};

use shader_ir::{
    AtomicFunction, Barrier, CollectiveOperation, Direction, GatherMode, SubgroupOperation,
};
use std::alloc::{AllocError, Global};

/// Returns the name of an atomic function (WGSL, "Atomic Built-in Functions").
pub fn atomic_word(fun: AtomicFunction) -> &'static str
    ensures { result.now ≡ atomic_word fun }
{
    match fun {
        AtomicFunction::Add => "atomicAdd",
        AtomicFunction::Subtract => "atomicSub",
        AtomicFunction::And => "atomicAnd",
        AtomicFunction::ExclusiveOr => "atomicXor",
        AtomicFunction::InclusiveOr => "atomicOr",
        AtomicFunction::Min => "atomicMin",
        AtomicFunction::Max => "atomicMax",
        AtomicFunction::Exchange { compare: None } => "atomicExchange",
        AtomicFunction::Exchange { compare: Some(_) } => "atomicCompareExchangeWeak",
    }
}

/// Returns the name of an atomic function on a texel, by naga's extension of WGSL.
pub fn image_atomic_word(fun: AtomicFunction) -> &'static str
    ensures { result.now ≡ image_atomic_word fun }
{
    match fun {
        AtomicFunction::Add => "textureAtomicAdd",
        AtomicFunction::Subtract => "textureAtomicSub",
        AtomicFunction::And => "textureAtomicAnd",
        AtomicFunction::ExclusiveOr => "textureAtomicXor",
        AtomicFunction::InclusiveOr => "textureAtomicOr",
        AtomicFunction::Min => "textureAtomicMin",
        AtomicFunction::Max => "textureAtomicMax",
        AtomicFunction::Exchange { compare: None } => "textureAtomicExchange",
        AtomicFunction::Exchange { compare: Some(_) } => "textureAtomicCompareExchangeWeak",
    }
}

/// Returns the name of a function that takes a value of another invocation (WGSL, "Subgroup Built-in Functions" and "Quad Operations").
pub fn gather_word(mode: GatherMode) -> &'static str
    ensures { result.now ≡ gather_word mode }
{
    match mode {
        GatherMode::BroadcastFirst => "subgroupBroadcastFirst",
        GatherMode::Broadcast(_) => "subgroupBroadcast",
        GatherMode::Shuffle(_) => "subgroupShuffle",
        GatherMode::ShuffleDown(_) => "subgroupShuffleDown",
        GatherMode::ShuffleUp(_) => "subgroupShuffleUp",
        GatherMode::ShuffleXor(_) => "subgroupShuffleXor",
        GatherMode::QuadBroadcast(_) => "quadBroadcast",
        GatherMode::QuadSwap(Direction::X) => "quadSwapX",
        GatherMode::QuadSwap(Direction::Y) => "quadSwapY",
        GatherMode::QuadSwap(Direction::Diagonal) => "quadSwapDiagonal",
    }
}

/// Returns the part of a function's name that says which invocations it combines.
fn scan_word(collective_op: CollectiveOperation) -> &'static str
    ensures { result.now ≡ scan_word collective_op }
{
    match collective_op {
        CollectiveOperation::Reduce => "",
        CollectiveOperation::InclusiveScan => "Inclusive",
        CollectiveOperation::ExclusiveScan => "Exclusive",
    }
}

/// Returns the part of a function's name that says how it combines values.
fn operation_word(op: SubgroupOperation) -> &'static str
    ensures { result.now ≡ operation_word op }
{
    match op {
        SubgroupOperation::All => "All",
        SubgroupOperation::Any => "Any",
        SubgroupOperation::Add => "Add",
        SubgroupOperation::Mul => "Mul",
        SubgroupOperation::Min => "Min",
        SubgroupOperation::Max => "Max",
        SubgroupOperation::And => "And",
        SubgroupOperation::Or => "Or",
        SubgroupOperation::Xor => "Xor",
    }
}

/// Returns the name of a function that combines the values of a subgroup (WGSL, "Subgroup Built-in Functions").
pub fn collective_text(
    alloc: Global,
    op: SubgroupOperation,
    collective_op: CollectiveOperation,
) -> Result<String, AllocError>
    ensures { IfOk result (λ text. string_bytes text ≡ collective_text op collective_op) }
{
    let scan = scan_word(collective_op);
    let operation = operation_word(op);
    format!(in alloc; "subgroup{scan}{operation}")
}

/// Returns a flag's name if the flag is set, or else nothing. If a lower flag is set too, a bar stands in front of the name.
#[tactic(auto, unfolding(crate::specs::Statements::flag_word))]
fn flag_word(
    flags: u32,
    lower: u32,
    bit: u32,
    name: &'static str,
    barred: &'static str,
) -> &'static str
    ensures { result.now ≡ flag_word flags lower bit name.now barred.now }
{
    if flags & bit == 0 {
        return "";
    }
    if flags & lower == 0 { name } else { barred }
}

/// Returns the names of the flags of a barrier, separated by bars.
fn flags_text(alloc: Global, flags: u32) -> Result<String, AllocError>
    ensures { IfOk result (λ text. string_bytes text ≡ flags_text flags) }
{
    let storage = flag_word(flags, 0, 1, "STORAGE", "");
    let work_group = flag_word(flags, 1, 2, "WORK_GROUP", " | WORK_GROUP");
    let sub_group = flag_word(flags, 3, 4, "SUB_GROUP", " | SUB_GROUP");
    let texture = flag_word(flags, 7, 8, "TEXTURE", " | TEXTURE");
    format!(in alloc; "{storage}{work_group}{sub_group}{texture}")
}

/// Returns the call of a barrier (WGSL, "Synchronization Built-in Functions"). One of several kinds of memory, which WGSL lacks, names its
/// flags as naga does.
pub fn barrier_text(alloc: Global, barrier: Barrier) -> Result<String, AllocError>
    ensures { IfOk result (λ text. string_bytes text ≡ barrier_text barrier) }
{
    match barrier.0 {
        1 => String::from_str(alloc, "storageBarrier()"),
        2 => String::from_str(alloc, "workgroupBarrier()"),
        4 => String::from_str(alloc, "subgroupBarrier()"),
        8 => String::from_str(alloc, "textureBarrier()"),
        flags => {
            let flags = flags_text(alloc, flags)?;
            format!(in alloc; "controlBarrier({flags})")
        }
    }
}

/// Returns a barrier that only orders memory. WGSL has none.
pub fn memory_barrier_text(alloc: Global, barrier: Barrier) -> Result<String, AllocError>
    ensures { IfOk result (λ text. string_bytes text ≡ memory_barrier_text barrier) }
{
    let flags = flags_text(alloc, barrier.0)?;
    format!(in alloc; "memoryBarrier({flags})")
}
