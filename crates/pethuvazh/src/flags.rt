//! The options of a report as bits.
ghost use Rattle.std.specs.Prelude.{◌≡◌};
ghost use Rattle.pethuvazh.specs.Flags.{options_of, policies_of, policy_of, set_options, with_if, with_policies};

use report_answers::{Flag, Options};
use shader_bounds::{BoundsCheckPolicies, BoundsCheckPolicy};

/// Doesn't check uniform flow.
const ANY_FLOW: u32 = 1;
/// Allows non-uniform indexes of arrays of sampled images and of samplers.
const INDEX_TEXTURES: u32 = 2;
/// Allows non-uniform indexes of arrays of storage images.
const INDEX_STORAGE_TEXTURES: u32 = 4;
/// Reports as text instead of JSON.
const FOR_PEOPLE: u32 = 8;
/// Checks uniform flow as naga specifies it, unless `ANY_FLOW` is set.
const NAGA_FLOW: u32 = 16;
/// Draws structs in the text output.
const DRAWING: u32 = 32;
/// Reports resources.
const RESOURCES: u32 = 64;
/// Reports bounds checks. Two bits with a policy for each kind of access follow; a policy implies this flag.
const BOUNDS_CHECKS: u32 = 128;
/// The lowest bit behind those of bounds checks.
const BEHIND_POLICIES: u32 = 65_536;
/// Declares all structs in the text output.
const ALL_STRUCTS: u32 = 65_536;
/// Explains codes and results in the text output.
const EXPLAIN: u32 = 131_072;
/// Shows all blocks, causes, entry points and globals in the text output.
const ALL: u32 = 262_144;
/// The lowest bit that is no flag.
const NO_FLAG: u32 = 524_288;

/// Adds a flag to the options if it is set.
#[tactic(auto, unfolding(crate::specs::Flags::with_if))]
fn with_if(options: Options, is_set: bool, flag: Flag) -> Options
    ensures { result ≡ with_if options is_set flag }
{
    if is_set { options.with(flag) } else { options }
}

/// Returns the options that single bits set.
fn set_options(bits: u32) -> Options
    ensures { result ≡ set_options bits }
{
    let output = with_if(Options::START, bits & FOR_PEOPLE == 0, Flag::Json);
    let naga = with_if(output, bits & NAGA_FLOW != 0, Flag::NagaFlow);
    let flow = with_if(naga, bits & ANY_FLOW != 0, Flag::AnyFlow);
    let textures = with_if(flow, bits & INDEX_TEXTURES != 0, Flag::IndexTextures);
    let is_storage = bits & INDEX_STORAGE_TEXTURES != 0;
    let indexing = with_if(textures, is_storage, Flag::IndexStorageTextures);
    let drawing = with_if(indexing, bits & DRAWING != 0, Flag::Drawing);
    let resources = with_if(drawing, bits & RESOURCES != 0, Flag::Resources);
    let structs = with_if(resources, bits & ALL_STRUCTS != 0, Flag::AllStructs);
    let explained = with_if(structs, bits & EXPLAIN != 0, Flag::Explain);
    with_if(explained, bits & ALL != 0, Flag::ShowAll)
}

/// Returns the policy with this number, if there is one.
fn policy_of(number: u32) -> Option<BoundsCheckPolicy>
    ensures { result ≡ policy_of number }
{
    match number {
        0 => Some(BoundsCheckPolicy::Unchecked),
        1 => Some(BoundsCheckPolicy::Restrict),
        2 => Some(BoundsCheckPolicy::ReadZeroSkipWrite),
        _ => None,
    }
}

/// Returns the policies in the bits, if each pair of bits is the number of a policy.
fn policies_of(bits: u32) -> Option<BoundsCheckPolicies>
    ensures { result ≡ policies_of bits }
{
    let index = policy_of(bits / 256 % 4)?;
    let buffer = policy_of(bits / 1024 % 4)?;
    let image_load = policy_of(bits / 4096 % 4)?;
    let binding_array = policy_of(bits / 16_384 % 4)?;
    Some(BoundsCheckPolicies {
        index,
        buffer,
        image_load,
        binding_array,
    })
}

/// Adds bounds checks under these policies to the options, if the bits ask for them.
fn with_policies(options: Options, bits: u32, policies: BoundsCheckPolicies) -> Options
    ensures { result ≡ with_policies options bits policies }
{
    if bits % BEHIND_POLICIES < BOUNDS_CHECKS {
        options
    } else {
        options.with(Flag::Policies(policies))
    }
}

/// Returns the options that the bits set, if each bit is a flag and each pair of bits for a kind of access is a policy.
pub fn options_from(bits: u32) -> Option<Options>
    ensures { result ≡ options_of bits }
{
    if bits >= NO_FLAG {
        return None;
    }
    match policies_of(bits) {
        Some(policies) => Some(with_policies(set_options(bits), bits, policies)),
        None => None,
    }
}
