//! Declarations by handle.
ghost use Rattle.std.specs.Prelude.{◌≡◌, IfOk, option_and_then, option_map};
ghost use Rattle.json.specs.Value.{value_view};
ghost use Rattle.shader_interface.specs.Bound.{bound_at, bound_first};
ghost use Rattle.shader_interface.specs.Interface.{argument_binding_at, binding_of, entry_point_at, group_of, member_binding_at};
ghost use Rattle.shader_interface.specs.Interface.{global_expression_at, override_default_of, override_id_of};
ghost use Rattle.shader_interface.specs.Interface.{override_init_of, resource_binding_at, result_binding_at, seen};
ghost use Rattle.shader_interface.specs.Interface.{workgroup_override_of, workgroup_size_of};
ghost use Rattle.shader_interface.specs.Workgroups.{axis_at, workgroup_at, workgroups_first};

use crate::binding::Binding;
use crate::bound::ResourceBinding;
use crate::values::{integer, item, member, spelled};
use crate::workgroup::{AxisSize, WorkgroupSize};
use json::Value;
use std::alloc::{AllocError, Global};

/// The JSON of a module, as serde prints naga's. Positions are those of the module's items: of handles, and of entry points in their list.
/// A member that is absent or null is `None`. One of another form than naga prints is, too, but JSON with such a member denotes no module.
#[derive(Clone, Copy)]
pub struct Interface<'v, 'a>(pub &'v Value<'a>);

impl<'v, 'a> Interface<'v, 'a> {
    /// Returns the `binding` of a global variable.
    fn resource_binding(self, global: usize) -> Option<&'v Value<'a>>
        ensures { seen result ≡ resource_binding_at (value_view self.entry.0.now) global }
    {
        member(item(self.0.get("global_variables"), global), "binding")
    }

    /// Returns the bind group of a global variable.
    pub fn group(self, global: usize) -> Option<u32>
        ensures { result ≡ group_of (value_view self.entry.0.now) global }
    {
        integer(member(self.resource_binding(global), "group"))
    }

    /// Returns the number of a global variable within its bind group.
    pub fn binding(self, global: usize) -> Option<u32>
        ensures { result ≡ binding_of (value_view self.entry.0.now) global }
    {
        integer(member(self.resource_binding(global), "binding"))
    }

    /// Returns the binding of a global variable, if the JSON has both its bind group and its number there.
    pub fn bound(self, global: usize) -> Option<ResourceBinding>
        ensures { result ≡ bound_at (value_view self.entry.0.now) global }
    {
        match (self.group(global), self.binding(global)) {
            (Some(group), Some(binding)) => Some(ResourceBinding { group, binding }),
            _ => None,
        }
    }

    /// Returns the bindings of the first `count` global variables.
    ///
    /// # Errors
    ///
    /// `AllocError` if an allocation fails.
    pub fn bound_first(
        self,
        alloc: Global,
        count: usize,
    ) -> Result<Vec<Option<ResourceBinding>>, AllocError>
        ensures { IfOk result (λ bound. bound.items ≡ bound_first (value_view self.entry.0.now) count) }
    {
        let mut bound = Vec::new(alloc);
        for global in 0..count {
            bound.push(self.bound(global))?;
        }
        Ok(bound)
    }

    /// Returns the id by which a pipeline sets an override.
    pub fn override_id(self, position: usize) -> Option<u32>
        ensures { result ≡ override_id_of (value_view self.entry.0.now) position }
    {
        integer(member(item(self.0.get("overrides"), position), "id"))
    }

    /// Returns the initial value of an override.
    fn override_init(self, position: usize) -> Option<&'v Value<'a>>
        ensures { seen result ≡ option_and_then (global_expression_at (value_view self.entry.0.now))
            (override_init_of (value_view self.entry.0.now) position) }
    {
        match integer(member(item(self.0.get("overrides"), position), "init")) {
            Some(handle) => item(self.0.get("global_expressions"), handle as usize),
            None => None,
        }
    }

    /// Returns the number or bool that an override has if the pipeline sets none, as the JSON spells it. It is `None` if the initial value
    /// is no literal, and for an f16, of which naga writes the bits.
    pub fn override_default(self, position: usize) -> Option<&'a str>
        ensures { option_map (λ text. text.now) result ≡ override_default_of (value_view self.entry.0.now) position }
    {
        spelled(member(self.override_init(position), "Literal"))
    }

    /// Returns an entry point.
    fn entry_point(self, entry: usize) -> Option<&'v Value<'a>>
        ensures { seen result ≡ entry_point_at (value_view self.entry.0.now) entry }
    {
        item(self.0.get("entry_points"), entry)
    }

    /// Returns the number of invocations of a work group along an axis, from 0 to 2, which counts unless `workgroup_override` has an
    /// expression for it. naga writes 0 for stages without work groups.
    pub fn workgroup_size(self, entry: usize, axis: usize) -> Option<u32>
        ensures { result ≡ workgroup_size_of (value_view self.entry.0.now) entry axis }
    {
        integer(item(member(self.entry_point(entry), "workgroup_size"), axis))
    }

    /// Returns the position of the global expression that gives the number of invocations of a work group along an axis, if one does.
    pub fn workgroup_override(self, entry: usize, axis: usize) -> Option<u32>
        ensures { result ≡ workgroup_override_of (value_view self.entry.0.now) entry axis }
    {
        integer(item(
            member(self.entry_point(entry), "workgroup_size_overrides"),
            axis,
        ))
    }

    /// Returns the number of invocations of a work group along an axis.
    fn axis_size(self, entry: usize, axis: usize) -> AxisSize
        ensures { result ≡ axis_at (value_view self.entry.0.now) entry axis }
    {
        match self.workgroup_override(entry, axis) {
            Some(expression) => AxisSize::Expression(expression),
            None => match self.workgroup_size(entry, axis) {
                Some(count) => AxisSize::Count(count),
                None => AxisSize::Unknown,
            },
        }
    }

    /// Returns the size of the work groups of an entry point.
    pub fn workgroup(self, entry: usize) -> WorkgroupSize
        ensures { result ≡ workgroup_at (value_view self.entry.0.now) entry }
    {
        WorkgroupSize {
            x: self.axis_size(entry, 0),
            y: self.axis_size(entry, 1),
            z: self.axis_size(entry, 2),
        }
    }

    /// Returns the sizes of the work groups of the first `count` entry points.
    ///
    /// # Errors
    ///
    /// `AllocError` if an allocation fails.
    pub fn workgroups_first(
        self,
        alloc: Global,
        count: usize,
    ) -> Result<Vec<WorkgroupSize>, AllocError>
        ensures { IfOk result (λ sizes. sizes.items ≡ workgroups_first (value_view self.entry.0.now) count) }
    {
        let mut sizes = Vec::new(alloc);
        for entry in 0..count {
            sizes.push(self.workgroup(entry))?;
        }
        Ok(sizes)
    }

    /// Returns the binding of an argument of an entry point.
    pub fn argument(self, entry: usize, index: usize) -> Binding<'v, 'a>
        ensures { seen result.0 ≡ argument_binding_at (value_view self.entry.0.now) entry index }
    {
        let function = member(self.entry_point(entry), "function");
        Binding(member(item(member(function, "arguments"), index), "binding"))
    }

    /// Returns the binding of an entry point's result.
    pub fn result(self, entry: usize) -> Binding<'v, 'a>
        ensures { seen result.0 ≡ result_binding_at (value_view self.entry.0.now) entry }
    {
        let function = member(self.entry_point(entry), "function");
        Binding(member(member(function, "result"), "binding"))
    }

    /// Returns the binding of a member of a struct type.
    pub fn member(self, ty: usize, index: usize) -> Binding<'v, 'a>
        ensures { seen result.0 ≡ member_binding_at (value_view self.entry.0.now) ty index }
    {
        let inner = member(item(self.0.get("types"), ty), "inner");
        let members = member(member(inner, "Struct"), "members");
        Binding(member(item(members, index), "binding"))
    }
}
