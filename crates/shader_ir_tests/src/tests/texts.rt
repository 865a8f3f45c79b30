//! Tests of the texts of errors that no row shows.
use crate::tests::OUT_OF_MEMORY;
use shader_arena::Handle;
use shader_ir::proc::{LayoutError, LayoutErrorInner, UpdateError};
use std::alloc::{AllocError, Global};
use std::process::Abort;

#[test]
fn of_an_update_without_memory(rt: HostRuntime) {
    let reported = UpdateError::OutOfMemory.to_string(rt.alloc());
    assert!(rt; reported.expect(&rt, OUT_OF_MEMORY).as_str() == "OutOfMemory");
}

/// Asserts which sentence an error of an update reports.
fn reports<R: Abort>(rt: &R, alloc: Global, error: UpdateError, wanted: &str) {
    let sentence = error.report().to_string(alloc);
    assert!(rt; sentence.expect(rt, OUT_OF_MEMORY).as_str() == wanted);
}

#[test]
fn of_the_sentences_of_an_update(rt: HostRuntime) {
    let layout = UpdateError::Layout(LayoutError {
        ty: Handle::from_index(2),
        inner: LayoutErrorInner::NonPowerOfTwoWidth,
    });
    let wanted = "Error laying out type [2]: Type width must be a power of two";
    reports(&rt, rt.alloc(), layout, wanted);
    reports(
        &rt,
        rt.alloc(),
        UpdateError::from(AllocError),
        "Out of memory",
    );
}
