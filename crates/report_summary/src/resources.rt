//! How many resources the entry points of a module use.
ghost use Rattle.std.specs.Prelude.{◌≡◌, length, slice_get};
ghost use Rattle.report_model.specs.Analyzed.{info_of};
ghost use Rattle.report_summary.specs.Resources.{is_resource, is_use, is_used, resource_count, resources_among};

use report_model::Analyzed;
use shader_analysis::ModuleInfo;
use shader_info::FunctionInfo;
use shader_interface::ResourceBinding;

/// Returns whether a function uses the global variable at an index, at any depth of calls.
fn is_used_by(info: &FunctionInfo, index: usize) -> bool
    ensures { result ≡ is_use (slice_get info.now.global_uses index) }
{
    match info.global_uses.as_slice().get(index) {
        Some(uses) => uses.known().0 != 0,
        None => false,
    }
}

/// Returns whether an entry point uses the global variable at an index.
#[tactic(auto, using(crate::proofs::ResourceLemmas::used_at, crate::proofs::ResourceLemmas::unused_more))]
fn is_used(infos: &ModuleInfo, index: usize) -> bool
    ensures { result ≡ is_used infos.now.entry_points index }
{
    for point in 0..infos.entry_point_count() {
        if is_used_by(infos.get_entry_point(point), index) {
            return true;
        }
    }
    false
}

/// Returns whether the host binds the global variable at an index, and an entry point uses it.
fn is_resource(infos: &ModuleInfo, bindings: &[Option<ResourceBinding>], index: usize) -> bool
    ensures { result ≡ is_resource infos.now.entry_points index (slice_get bindings.now index) }
{
    match bindings.get(index) {
        Some(binding) => binding.is_some() && is_used(infos, index),
        None => false,
    }
}

/// Returns how many of the global variables are resources.
fn resources_among(infos: &ModuleInfo, bindings: &[Option<ResourceBinding>]) -> usize
    ensures { result ≡ resources_among infos.now.entry_points bindings.now (length bindings.now) }
{
    let mut count = 0;
    for index in 0..bindings.len() {
        if is_resource(infos, bindings, index) {
            count += 1;
        }
    }
    count
}

/// Returns how many of the global variables that the host binds are used by entry points.
pub fn resource_count(analyzed: &Analyzed, bindings: &[Option<ResourceBinding>]) -> usize
    ensures { result ≡ resource_count (info_of analyzed.now) bindings.now }
{
    match analyzed.info() {
        Some(infos) => resources_among(infos, bindings),
        None => 0,
    }
}
