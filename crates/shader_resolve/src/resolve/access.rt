//! Accesses to components of types, and vectors built from a scalar or from components.
ghost use Rattle.std.specs.Prelude.{◌≡◌, ◌<◌, length};
ghost use Rattle.shader_ir.specs.TypeTree.{PointsBelow};
ghost use Rattle.shader_resolve.specs.Outcome.{ForNothing, Meets};
ghost use Rattle.shader_resolve.specs.Component.{checked, indexed_member, lifted, component};
ghost use Rattle.shader_resolve.specs.TypingRules.{splat_type, swizzle_type};

use super::Resolved;
use super::values::vector_type;
use crate::ResolveError;
use shader_arena::{Handle, UniqueArena};
use shader_ir::proc::TypeResolution;
use shader_ir::{AddressSpace, Scalar, StructMember, Type, TypeInner, VectorSize, mark};

/// The component that an access selects in a type.
#[derive(Clone, Copy)]
pub enum Component {
    /// A component of a vector.
    Scalar(Scalar),
    /// A column of a matrix.
    Vector { size: VectorSize, scalar: Scalar },
    /// An element or a member.
    Type(Handle<mark::Type>),
}

/// The reason why an access selects no component.
#[derive(Clone, Copy)]
pub enum BadIndex {
    /// The index isn't below the number of components.
    PastEnd(u32),
    /// The type has no components, or none that this index may select.
    NotIndexable,
}

impl Component {
    ghost use Rattle.shader_resolve.specs.Component.{component_pointer, component_value};

    /// Returns the type of the component itself.
    pub fn into_resolution(self) -> TypeResolution
        ensures { result ≡ component_value self }
    {
        match self {
            Component::Scalar(scalar) => TypeResolution::Value(TypeInner::Scalar(scalar)),
            Component::Vector { size, scalar } => {
                TypeResolution::Value(TypeInner::Vector { size, scalar })
            }
            Component::Type(handle) => TypeResolution::Handle(handle),
        }
    }

    /// Returns the type of a pointer to the component.
    pub fn into_pointer(self, space: AddressSpace) -> TypeInner
        ensures { result ≡ component_pointer space self }
    {
        match self {
            Component::Scalar(scalar) => TypeInner::ValuePointer {
                size: None,
                scalar,
                space,
            },
            Component::Vector { size, scalar } => TypeInner::ValuePointer {
                size: Some(size),
                scalar,
                space,
            },
            Component::Type(base) => TypeInner::Pointer { base, space },
        }
    }
}

/// Returns the component if the index is below the count.
fn check_index(index: Option<u32>, count: u32, component: Component) -> Result<Component, BadIndex>
    ensures { result ≡ checked index count component }
{
    match index {
        Some(index) if index >= count => Err(BadIndex::PastEnd(index)),
        _ => Ok(component),
    }
}

/// Returns the component of a type that an index selects; `None` stands for a computed index.
pub fn find_component(inner: &TypeInner, index: Option<u32>) -> Result<Component, BadIndex>
    ensures { result ≡ component index inner.now }
{
    match inner {
        TypeInner::Vector { size, scalar } => {
            check_index(index, size.components(), Component::Scalar(*scalar))
        }
        TypeInner::Matrix {
            columns,
            rows,
            scalar,
        } => {
            let column = Component::Vector {
                size: *rows,
                scalar: *scalar,
            };
            check_index(index, columns.components(), column)
        }
        TypeInner::Array { base, .. } | TypeInner::BindingArray { base, .. } => {
            Ok(Component::Type(*base))
        }
        TypeInner::Struct { members, .. } => find_member(members.as_slice(), index),
        _ => Err(BadIndex::NotIndexable),
    }
}

fn find_member(members: &[StructMember], index: Option<u32>) -> Result<Component, BadIndex>
    ensures { result ≡ indexed_member index members.now }
{
    let index = index.ok_or(BadIndex::NotIndexable)?;
    match members.get(index as usize) {
        Some(member) => Ok(Component::Type(member.ty)),
        None => Err(BadIndex::PastEnd(index)),
    }
}

/// Returns the type of an access into a value or through a pointer.
#[inline(always)]
pub fn access(
    types: &UniqueArena<Type, mark::Type>,
    base: Handle<mark::Expression>,
    index: Option<u32>,
    inner: &TypeInner,
) -> Result<TypeResolution, ResolveError>
    requires { PointsBelow (length types.now) inner.now }
    ensures { Meets ForNothing result (lifted types.now base index inner.now) }
{
    let indexed = index.is_some();
    match inner {
        TypeInner::Pointer { base: ty, space } => match find_component(&types[*ty].inner, index) {
            Ok(component) => Ok(TypeResolution::Value(component.into_pointer(*space))),
            Err(BadIndex::PastEnd(index)) => Err(ResolveError::OutOfBoundsIndex {
                expr: base,
                index,
            }),
            Err(BadIndex::NotIndexable) => Err(ResolveError::InvalidSubAccess { ty: *ty, indexed }),
        },
        TypeInner::ValuePointer {
            size: Some(size),
            scalar,
            space,
        } => match check_index(index, size.components(), Component::Scalar(*scalar)) {
            Ok(component) => Ok(TypeResolution::Value(component.into_pointer(*space))),
            Err(bad_index) => Err(bad_index.into_error(base, indexed)),
        },
        _ => match find_component(inner, index) {
            Ok(component) => Ok(component.into_resolution()),
            Err(bad_index) => Err(bad_index.into_error(base, indexed)),
        },
    }
}

impl BadIndex {
    ghost use Rattle.std.specs.Prelude.{◌≡◌};
    ghost use Rattle.shader_resolve.specs.Outcome.{refusal_of};
    ghost use Rattle.shader_resolve.specs.Component.{bad_index_refusal};

    /// Returns the error of an access into an expression.
    fn into_error(self, expr: Handle<mark::Expression>, indexed: bool) -> ResolveError
        ensures { refusal_of result ≡ bad_index_refusal expr indexed self }
    {
        match self {
            BadIndex::PastEnd(index) => ResolveError::OutOfBoundsIndex { expr, index },
            BadIndex::NotIndexable => ResolveError::InvalidAccess { expr, indexed },
        }
    }
}

/// Returns a vector of `size` copies of a scalar.
pub fn splat(size: VectorSize, value: Handle<mark::Expression>, inner: &TypeInner) -> Resolved
    ensures { Meets ForNothing result (splat_type value size inner.now) }
{
    match inner {
        TypeInner::Scalar(scalar) => Ok(vector_type(size, *scalar)),
        _ => Err(ResolveError::InvalidScalar(value)),
    }
}

/// Returns a vector of `size` components of a vector.
pub fn swizzle(size: VectorSize, vector: Handle<mark::Expression>, inner: &TypeInner) -> Resolved
    ensures { Meets ForNothing result (swizzle_type vector size inner.now) }
{
    match inner {
        TypeInner::Vector { scalar, .. } => Ok(vector_type(size, *scalar)),
        _ => Err(ResolveError::InvalidVector(vector)),
    }
}
