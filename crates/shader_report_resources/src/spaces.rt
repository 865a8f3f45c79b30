//! The names in WGSL of address spaces, and of the accesses that they and storage images allow.
ghost use Rattle.std.specs.Prelude.{◌≡◌};
ghost use Rattle.std.specs.Option.{option_map};
ghost use Rattle.shader_report_resources.specs.Spaces.{access_word, accesses_word, space_word, stated_access};

use shader_ir::{AddressSpace, StorageAccess};

/// Returns the name of the access mode that allows these accesses.
fn accesses_word(load: bool, store: bool, atomic: bool) -> &'static str
    ensures { result.now ≡ accesses_word load store atomic }
{
    match (load, store, atomic) {
        (_, _, true) => "atomic",
        (true, true, false) => "read_write",
        (false, true, false) => "write",
        (_, false, false) => "read",
    }
}

/// Returns the access mode of a storage buffer or a storage image.
pub(crate) fn access_word(access: StorageAccess) -> &'static str
    ensures { result.now ≡ access_word access }
{
    let bits = access.0;
    accesses_word(bits & 1 == 1, bits & 2 == 2, bits & 4 == 4)
}

/// Returns the name of an address space.
pub(crate) fn space_word(space: AddressSpace) -> &'static str
    ensures { result.now ≡ space_word space }
{
    match space {
        AddressSpace::Function => "function",
        AddressSpace::Private => "private",
        AddressSpace::WorkGroup => "workgroup",
        AddressSpace::Uniform => "uniform",
        AddressSpace::Storage { .. } => "storage",
        AddressSpace::Handle => "handle",
        AddressSpace::Immediate => "immediate",
        AddressSpace::TaskPayload => "task_payload",
        AddressSpace::RayPayload => "ray_payload",
        AddressSpace::IncomingRayPayload => "incoming_ray_payload",
    }
}

/// Returns the access mode that an address space states, which only the storage space does.
pub(crate) fn stated_access(space: AddressSpace) -> Option<&'static str>
    ensures { option_map (λ word. word.now) result ≡ stated_access space }
{
    match space {
        AddressSpace::Storage { access } => Some(access_word(access)),
        _ => None,
    }
}
