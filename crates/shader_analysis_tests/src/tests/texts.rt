//! Tests of the texts of errors.
use shader_analysis::ValidationError;
use shader_arena::Handle;
use shader_info::{
    AnalysisError, AnalysisLocation, Capabilities, ExpressionError, FunctionError,
    UniformityDisruptor, UniformityRequirements,
};
use shader_resolve::ResolveError;
use std::alloc::Global;
use std::process::Abort;

/// The message of a test that only an allocation failure makes fail.
const OUT_OF_MEMORY: &str = "out of memory";

fn expects(rt: &impl Abort, alloc: Global, disruptor: UniformityDisruptor, text: &str) {
    assert!(rt;
        disruptor
            .to_string(alloc)
            .expect(rt, OUT_OF_MEMORY)
            .as_str()
            == text
    );
}

#[test]
fn texts_of_disruptors(rt: HostRuntime) {
    let alloc = rt.alloc();
    expects(
        &rt,
        alloc,
        UniformityDisruptor::Expression(Handle::from_index(4)),
        "Expression [4] produced non-uniform result, and control flow depends on it",
    );
    expects(
        &rt,
        alloc,
        UniformityDisruptor::Return,
        "There is a Return earlier in the control flow of the function",
    );
    expects(
        &rt,
        alloc,
        UniformityDisruptor::Discard,
        "There is a Discard earlier in the entry point across all called functions",
    );
}

#[test]
fn an_error_shows_its_location_and_its_cause(rt: HostRuntime) {
    let alloc = rt.alloc();
    let error = AnalysisError {
        place: AnalysisLocation::Function(Handle::from_index(1)),
        cause: FunctionError::Expression {
            handle: Handle::from_index(2),
            source: ExpressionError::Resolve(ResolveError::FunctionArgumentNotFound(1)),
        },
    };
    let text = error.to_string(alloc).expect(&rt, OUT_OF_MEMORY);
    assert!(rt; text.as_str() == "Function([1]): Expression");
    let refused = ExpressionError::Resolve(ResolveError::FunctionArgumentNotFound(1));
    let text = refused.to_string(alloc).expect(&rt, OUT_OF_MEMORY);
    assert!(rt; text.as_str() == "Resolve");
}

/// Asserts which sentence an error in the first entry point reports, whose last words are `why`.
fn reports(rt: &impl Abort, alloc: Global, cause: FunctionError, what: &str, why: &str) {
    let error = AnalysisError {
        place: AnalysisLocation::EntryPoint(0),
        cause,
    };
    let sentence = error.report().to_string(alloc).expect(rt, OUT_OF_MEMORY);
    let wanted = format!(in alloc; "entry point 0: {what} {why}").expect(rt, OUT_OF_MEMORY);
    assert!(rt; sentence.as_str() == wanted.as_str());
}

#[test]
fn a_report_names_requirements_and_disruptor(rt: HostRuntime) {
    let cause = FunctionError::NonUniformControlFlow(
        UniformityRequirements(6),
        Handle::from_index(5),
        UniformityDisruptor::Return,
    );
    let what =
        "expression [5] requires uniform control flow (derivative, implicit level of detail):";
    let why = "There is a Return earlier in the control flow of the function";
    reports(&rt, rt.alloc(), cause, what, why);
}

#[test]
fn a_report_names_capabilities(rt: HostRuntime) {
    let cause = FunctionError::Expression {
        handle: Handle::from_index(3),
        source: ExpressionError::MissingCapabilities(Capabilities(2)),
    };
    let what = "expression [3]: resources are indexed by a non-uniform value, which requires";
    let why = "STORAGE_TEXTURE_BINDING_ARRAY_NON_UNIFORM_INDEXING";
    reports(&rt, rt.alloc(), cause, what, why);
}

#[test]
fn a_report_names_a_full_count(rt: HostRuntime) {
    let cause = FunctionError::CountFull(Handle::from_index(2));
    let what = "expression [2] has more references";
    reports(&rt, rt.alloc(), cause, what, "than can be counted");
}

/// Returns the refusal of an expression of the first function, with a text.
fn refusal(rt: &impl Abort, alloc: Global) -> ValidationError {
    let words = "As".to_string(alloc).expect(rt, OUT_OF_MEMORY);
    ValidationError::Analysis(AnalysisError {
        place: AnalysisLocation::Function(Handle::from_index(0)),
        cause: FunctionError::Expression {
            handle: Handle::from_index(3),
            source: ExpressionError::Resolve(ResolveError::IncompatibleOperands(words)),
        },
    })
}

#[test]
fn a_copy_of_a_refusal_has_its_text(rt: HostRuntime) {
    let alloc = rt.alloc();
    let first = refusal(&rt, alloc);
    let copy = first.copy(alloc).expect(&rt, OUT_OF_MEMORY);
    let wanted = format!(in alloc; "{first:?}").expect(&rt, OUT_OF_MEMORY);
    drop(first);
    let found = format!(in alloc; "{copy:?}").expect(&rt, OUT_OF_MEMORY);
    drop(copy);
    assert!(rt; found.as_str() == wanted.as_str());
}
