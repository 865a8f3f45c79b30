//! Pairs of an image and a sampler that are used together.
ghost use Rattle.std.specs.Prelude.{◌≡◌, [], ◌∷◌, ◌++◌, OnOk, IfOk, slice_get, Some, None, false, fold, map};
ghost use Rattle.std.specs.Option.{option_map, option_or};
ghost use Rattle.std.specs.List.{flat_map, enumerate_from, list_any};
ghost use Rattle.shader_analysis_spec.specs.Infos.{InGlobal};
ghost use Rattle.shader_analysis_spec.specs.Pairs.{global_resource, resource, in_caller};
ghost use Rattle.shader_ir.specs.BodyOf.{step_of};
ghost use Rattle.shader_ir.specs.Occurs.{statements, statements_within};
ghost use Rattle.shader_passes.specs.Calling.{is_call};
ghost use Rattle.shader_passes.specs.MissingResource.{missed_of, passed_for, sample_missed, pair_missed, call_missed};
ghost use Rattle.shader_passes.specs.RecordedPairs.{HaveArguments, SameMembers, pairs_in, resource_view};
ghost use Rattle.shader_passes.specs.Results.{computed_pairs};

use shader_arena::Handle;
use shader_info::{FunctionInfo, GlobalOrArgument, Sampling, SamplingKey};
use shader_ir::{Block, Expression, Function, Statement, mark};
use std::alloc::AllocError;
use std::collections::HashSet;

/// The pairs of two globals, and those with an argument, as they are collected.
#[derive(Drop)]
struct Pairs<'a> {
    sampling_set: &'a mut HashSet<SamplingKey>,
    sampling: &'a mut HashSet<Sampling>,
    /// The first expression with an image or a sampler that is no resource: one that samples it, or one that is passed for a sampled
    /// argument.
    missing_resource: Option<Handle<mark::Expression>>,
}

/// Returns the resource of an expression that is a global, and none of any other.
#[inline(always)]
fn global_resource(
    function: &Function,
    handle: Handle<mark::Expression>,
) -> Option<GlobalOrArgument>
    ensures { option_map resource_view result ≡ global_resource (slice_get function.now.expressions handle) }
{
    match function.expressions.try_get(handle) {
        Some(Expression::GlobalVariable(variable)) => Some(GlobalOrArgument::Global(*variable)),
        _ => None,
    }
}

/// Returns the resource of an image or a sampler, if it is a global, a component of one, or an argument.
#[inline(always)]
fn resource_of(function: &Function, handle: Handle<mark::Expression>) -> Option<GlobalOrArgument>
    ensures { option_map resource_view result ≡ resource function.now handle }
{
    match function.expressions.try_get(handle) {
        Some(Expression::GlobalVariable(variable)) => Some(GlobalOrArgument::Global(*variable)),
        Some(Expression::FunctionArgument(index)) => Some(GlobalOrArgument::Argument(*index)),
        Some(Expression::Access { base, .. }) => global_resource(function, *base),
        Some(Expression::AccessIndex { base, .. }) => global_resource(function, *base),
        _ => None,
    }
}

/// Returns the expression that is passed for a callee's resource, if the resource is an argument.
#[inline(always)]
fn passed_for(
    resource: GlobalOrArgument,
    arguments: &[Handle<mark::Expression>],
) -> Option<Handle<mark::Expression>>
    ensures { result ≡ passed_for arguments.now (resource_view resource) }
{
    match resource {
        GlobalOrArgument::Global(_) => None,
        GlobalOrArgument::Argument(index) => arguments.get(index as usize).copied(),
    }
}

/// Returns the caller's resource for a callee's resource.
#[inline(always)]
fn in_caller(
    resource: GlobalOrArgument,
    function: &Function,
    arguments: &[Handle<mark::Expression>],
) -> Option<GlobalOrArgument>
    ensures { option_map resource_view result ≡ in_caller function.now arguments.now (resource_view resource) }
{
    match resource {
        GlobalOrArgument::Global(global) => Some(GlobalOrArgument::Global(global)),
        GlobalOrArgument::Argument(index) => match arguments.get(index as usize) {
            Some(argument) => resource_of(function, *argument),
            None => None,
        },
    }
}

impl<'a> Pairs<'a> {
    ghost use Rattle.shader_passes.specs.RecordedPairs.{HasArgument, HaveArguments, pairs_of, key_pair, sampling_pair, SameMembers};
    ghost use Rattle.shader_passes.specs.RecordedPairs.{AreLent, pair_of};
    ghost use Rattle.shader_passes.specs.Results.{computed_pairs};
    ghost use Rattle.shader_passes.specs.RecordedPairs.{pairs_in_caller, info_pairs, recorded_pairs, callee_pairs, sampled_resources};

    /// Records the expression as one without a resource, unless there is an earlier one.
    fn miss(&mut self, expression: Option<Handle<mark::Expression>>)
        ensures members { pairs_of self.new ≡ pairs_of self.old }
        ensures missing_resource { self.new.missing_resource ≡ option_or self.old.missing_resource expression }
        ensures with_arguments { HaveArguments self.old.sampling.now.keys → HaveArguments self.new.sampling.now.keys }
        ensures lent { AreLent self.old self.new }
    {
        self.missing_resource = self.missing_resource.or(expression);
    }

    /// Adds a pair of two globals.
    fn insert_globals(&mut self, pair: SamplingKey) -> Result<(), AllocError>
        ensures members { OnOk result (SameMembers (pairs_of self.new) (key_pair pair ∷ pairs_of self.old)) }
        ensures missing_resource { OnOk result (self.new.missing_resource ≡ self.old.missing_resource) }
        ensures with_arguments { OnOk result (HaveArguments self.old.sampling.now.keys → HaveArguments self.new.sampling.now.keys) }
        ensures lent { OnOk result (AreLent self.old self.new) }
    {
        self.sampling_set.insert(pair)?;
        Ok(())
    }

    /// Adds a pair with an argument.
    #[inline(always)]
    fn insert_open(
        &mut self,
        image: GlobalOrArgument,
        sampler: GlobalOrArgument,
    ) -> Result<(), AllocError>
        requires { HasArgument (resource_view image) (resource_view sampler) }
        ensures members { OnOk result (SameMembers (pairs_of self.new) ((resource_view image, resource_view sampler) ∷ pairs_of self.old)) }
        ensures missing_resource { OnOk result (self.new.missing_resource ≡ self.old.missing_resource) }
        ensures with_arguments { OnOk result (HaveArguments self.old.sampling.now.keys → HaveArguments self.new.sampling.now.keys) }
        ensures lent { OnOk result (AreLent self.old self.new) }
    {
        self.sampling.insert(Sampling { image, sampler })?;
        Ok(())
    }

    /// Adds a pair.
    #[inline(always)]
    fn insert(
        &mut self,
        image: GlobalOrArgument,
        sampler: GlobalOrArgument,
    ) -> Result<(), AllocError>
        ensures members { OnOk result (SameMembers (pairs_of self.new) ((resource_view image, resource_view sampler) ∷ pairs_of self.old)) }
        ensures missing_resource { OnOk result (self.new.missing_resource ≡ self.old.missing_resource) }
        ensures with_arguments { OnOk result (HaveArguments self.old.sampling.now.keys → HaveArguments self.new.sampling.now.keys) }
        ensures lent { OnOk result (AreLent self.old self.new) }
    {
        match image {
            GlobalOrArgument::Global(image_global) => match sampler {
                GlobalOrArgument::Global(sampler_global) => {
                    let pair = SamplingKey {
                        image: image_global,
                        sampler: sampler_global,
                    };
                    self.insert_globals(pair)
                }
                GlobalOrArgument::Argument(_) => self.insert_open(image, sampler),
            },
            GlobalOrArgument::Argument(_) => self.insert_open(image, sampler),
        }
    }

    /// Adds a pair if both resources are known, and otherwise records the expression without one.
    #[inline(always)]
    fn insert_known(
        &mut self,
        image: Option<GlobalOrArgument>,
        sampler: Option<GlobalOrArgument>,
        image_expression: Option<Handle<mark::Expression>>,
        sampler_expression: Option<Handle<mark::Expression>>,
    ) -> Result<(), AllocError>
        ensures members { OnOk result (SameMembers (pairs_of self.new)
            (pair_of (option_map resource_view image) (option_map resource_view sampler) ++ pairs_of self.old)) }
        ensures missing_resource { OnOk result (self.new.missing_resource ≡ option_or
            (option_or self.old.missing_resource (missed_of (option_map resource_view image) image_expression))
            (missed_of (option_map resource_view sampler) sampler_expression)) }
        ensures with_arguments { OnOk result (HaveArguments self.old.sampling.now.keys → HaveArguments self.new.sampling.now.keys) }
        ensures lent { OnOk result (AreLent self.old self.new) }
    {
        match image {
            Some(image_resource) => match sampler {
                Some(sampler_resource) => self.insert(image_resource, sampler_resource)?,
                None => self.miss(sampler_expression),
            },
            None => {
                self.miss(image_expression);
                match sampler {
                    Some(_) => {}
                    None => self.miss(sampler_expression),
                }
            }
        }
        Ok(())
    }

    /// Adds the pairs of a callee that have an argument.
    #[tactic(auto, using(crate::proofs::PairLemmas::gains))]
    fn add_open_pairs(
        &mut self,
        function: &Function,
        arguments: &[Handle<mark::Expression>],
        open_pairs: &HashSet<Sampling>,
    ) -> Result<(), AllocError>
        ensures members { OnOk result (SameMembers (pairs_of self.new)
            (pairs_in_caller function.now arguments.now (map sampling_pair open_pairs.now.keys) ++ pairs_of self.old)) }
        ensures missing_resource { OnOk result (self.new.missing_resource
            ≡ fold (pair_missed function.now arguments.now) self.old.missing_resource
            (map sampling_pair open_pairs.now.keys)) }
        ensures with_arguments { OnOk result (HaveArguments self.old.sampling.now.keys → HaveArguments self.new.sampling.now.keys) }
        ensures lent { OnOk result (AreLent self.old self.new) }
    {
        for pair in open_pairs.iter() {
            let image = in_caller(pair.image, function, arguments);
            let sampler = in_caller(pair.sampler, function, arguments);
            let image_expression = passed_for(pair.image, arguments);
            let sampler_expression = passed_for(pair.sampler, arguments);
            self.insert_known(image, sampler, image_expression, sampler_expression)?;
        }
        Ok(())
    }

    /// Copies the pairs of a callee that are two globals, while there are none yet.
    fn copy_known_pairs(&mut self, known: &HashSet<SamplingKey>) -> Result<(), AllocError>
        requires { self.old.sampling_set.now.keys ≡ [] }
        ensures members { OnOk result (SameMembers (pairs_of self.new) (map key_pair known.now.keys ++ pairs_of self.old)) }
        ensures missing_resource { OnOk result (self.new.missing_resource ≡ self.old.missing_resource) }
        ensures with_arguments { OnOk result (HaveArguments self.old.sampling.now.keys → HaveArguments self.new.sampling.now.keys) }
        ensures lent { OnOk result (AreLent self.old self.new) }
    {
        *self.sampling_set = known.clone()?;
        Ok(())
    }

    /// Adds the pairs of a callee that are two globals to those that there are.
    fn join_known_pairs(&mut self, known: &HashSet<SamplingKey>) -> Result<(), AllocError>
        ensures members { OnOk result (SameMembers (pairs_of self.new) (map key_pair known.now.keys ++ pairs_of self.old)) }
        ensures missing_resource { OnOk result (self.new.missing_resource ≡ self.old.missing_resource) }
        ensures with_arguments { OnOk result (HaveArguments self.old.sampling.now.keys → HaveArguments self.new.sampling.now.keys) }
        ensures lent { OnOk result (AreLent self.old self.new) }
    {
        self.sampling_set.extend(known.iter())?;
        Ok(())
    }

    /// Adds the pairs of a callee that are two globals.
    #[tactic(auto, using(crate::proofs::PairLemmas::gains))]
    fn add_known_pairs(&mut self, known: &HashSet<SamplingKey>) -> Result<(), AllocError>
        ensures members { OnOk result (SameMembers (pairs_of self.new) (map key_pair known.now.keys ++ pairs_of self.old)) }
        ensures missing_resource { OnOk result (self.new.missing_resource ≡ self.old.missing_resource) }
        ensures with_arguments { OnOk result (HaveArguments self.old.sampling.now.keys → HaveArguments self.new.sampling.now.keys) }
        ensures lent { OnOk result (AreLent self.old self.new) }
    {
        if known.is_empty() {
            Ok(())
        } else if self.sampling_set.is_empty() {
            self.copy_known_pairs(known)
        } else {
            self.join_known_pairs(known)
        }
    }

    /// Adds the pairs of a callee.
    #[tactic(auto, using(crate::proofs::PairLemmas::gains, crate::proofs::MissingResourceLemmas::misses))]
    fn add_info_pairs(
        &mut self,
        function: &Function,
        arguments: &[Handle<mark::Expression>],
        info: &FunctionInfo,
    ) -> Result<(), AllocError>
        ensures members { OnOk result (SameMembers (pairs_of self.new)
            (pairs_in_caller function.now arguments.now (info_pairs info.now) ++ pairs_of self.old)) }
        ensures missing_resource { OnOk result (self.new.missing_resource
            ≡ fold (pair_missed function.now arguments.now) self.old.missing_resource
            (info_pairs info.now)) }
        ensures with_arguments { OnOk result (HaveArguments self.old.sampling.now.keys → HaveArguments self.new.sampling.now.keys) }
        ensures lent { OnOk result (AreLent self.old self.new) }
    {
        self.add_known_pairs(&info.sampling_set)?;
        self.add_open_pairs(function, arguments, &info.sampling)?;
        Ok(())
    }

    /// Adds the pairs of a callee, if it has an info. Not inlined, so that the recursion over blocks takes little of the stack.
    #[inline(never)]
    #[tactic(auto, using(crate::proofs::PairLemmas::gains))]
    fn add_callee_pairs(
        &mut self,
        infos: &[FunctionInfo],
        function: &Function,
        callee: Handle<mark::Function>,
        arguments: &[Handle<mark::Expression>],
    ) -> Result<(), AllocError>
        ensures members { OnOk result (SameMembers (pairs_of self.new)
            (pairs_in_caller function.now arguments.now (recorded_pairs infos.now callee) ++ pairs_of self.old)) }
        ensures missing_resource { OnOk result (self.new.missing_resource
            ≡ fold (pair_missed function.now arguments.now) self.old.missing_resource (recorded_pairs infos.now callee)) }
        ensures with_arguments { OnOk result (HaveArguments self.old.sampling.now.keys → HaveArguments self.new.sampling.now.keys) }
        ensures lent { OnOk result (AreLent self.old self.new) }
    {
        match infos.get(callee.index()) {
            Some(info) => self.add_info_pairs(function, arguments, info),
            None => Ok(()),
        }
    }

    /// Adds the pairs of the functions that a block calls, at any depth.
    #[cycle(callees)]
    #[tactic(auto, using(crate::proofs::PairLemmas::gains))]
    fn add_block(
        &mut self,
        infos: &[FunctionInfo],
        function: &Function,
        block: &Block,
    ) -> Result<(), AllocError>
        ensures members { OnOk result (SameMembers (pairs_of self.new)
            (flat_map (callee_pairs infos.now function.now) (statements block.now) ++ pairs_of self.old)) }
        ensures missing_resource { OnOk result (self.new.missing_resource
            ≡ fold (call_missed infos.now function.now) self.old.missing_resource (statements block.now)) }
        ensures with_arguments { OnOk result (HaveArguments self.old.sampling.now.keys → HaveArguments self.new.sampling.now.keys) }
        ensures lent { OnOk result (AreLent self.old self.new) }
    {
        for statement in &block.statements {
            self.add_statement(infos, function, statement)?;
        }
        Ok(())
    }

    /// Adds the pairs of the function that a statement calls, or of those that its blocks call.
    #[cycle(callees)]
    #[tactic(auto, using(crate::proofs::PairLemmas::gains))]
    fn add_statement(
        &mut self,
        infos: &[FunctionInfo],
        function: &Function,
        statement: &Statement,
    ) -> Result<(), AllocError>
        ensures members { OnOk result (SameMembers (pairs_of self.new) (flat_map (callee_pairs infos.now function.now)
            (step_of statement.now ∷ statements_within (step_of statement.now)) ++ pairs_of self.old)) }
        ensures missing_resource { OnOk result (self.new.missing_resource ≡ fold (call_missed infos.now function.now)
            self.old.missing_resource (step_of statement.now ∷ statements_within (step_of statement.now))) }
        ensures with_arguments { OnOk result (HaveArguments self.old.sampling.now.keys → HaveArguments self.new.sampling.now.keys) }
        ensures lent { OnOk result (AreLent self.old self.new) }
    {
        match statement {
            Statement::Call {
                function: callee,
                arguments,
                ..
            } => self.add_callee_pairs(infos, function, *callee, arguments.as_slice())?,
            Statement::Block(block) => self.add_block(infos, function, block)?,
            Statement::If { accept, reject, .. } => {
                self.add_block(infos, function, accept)?;
                self.add_block(infos, function, reject)?;
            }
            Statement::Switch { cases, .. } => {
                for case in cases {
                    self.add_block(infos, function, &case.body)?;
                }
            }
            Statement::Loop {
                body,
                continuing,
                ..
            } => {
                self.add_block(infos, function, body)?;
                self.add_block(infos, function, continuing)?;
            }
            _ => {}
        }
        Ok(())
    }

    /// Adds the pairs of the functions that the function calls. `calls` is false only if it has no call.
    #[inline(always)]
    fn add_callees(
        &mut self,
        infos: &[FunctionInfo],
        function: &Function,
        calls: bool,
    ) -> Result<(), AllocError>
        requires { (calls ≡ false) → list_any is_call (statements function.now.body) ≡ false }
        ensures members { OnOk result (SameMembers (pairs_of self.new)
            (flat_map (callee_pairs infos.now function.now) (statements function.now.body) ++ pairs_of self.old)) }
        ensures missing_resource { OnOk result (self.new.missing_resource
            ≡ fold (call_missed infos.now function.now) self.old.missing_resource (statements function.now.body)) }
        ensures with_arguments { OnOk result (HaveArguments self.old.sampling.now.keys → HaveArguments self.new.sampling.now.keys) }
        ensures lent { OnOk result (AreLent self.old self.new) }
    {
        if calls {
            self.add_block(infos, function, &function.body)
        } else {
            Ok(())
        }
    }

    /// Adds the pair that an expression samples.
    fn sample(
        &mut self,
        function: &Function,
        handle: Handle<mark::Expression>,
        expression: &Expression,
    ) -> Result<(), AllocError>
        ensures members { OnOk result
            (SameMembers (pairs_of self.new) (sampled_resources function.now expression.now ++ pairs_of self.old)) }
        ensures missing_resource { OnOk result (self.new.missing_resource
            ≡ sample_missed function.now self.old.missing_resource (handle, expression.now)) }
        ensures with_arguments { OnOk result (HaveArguments self.old.sampling.now.keys → HaveArguments self.new.sampling.now.keys) }
        ensures lent { OnOk result (AreLent self.old self.new) }
    {
        if let Expression::ImageSample { image, sampler, .. } = expression {
            let image_resource = resource_of(function, *image);
            let sampler_resource = resource_of(function, *sampler);
            self.insert_known(image_resource, sampler_resource, Some(handle), Some(handle))?;
        }
        Ok(())
    }

    /// Adds the pairs that the function's expressions sample.
    #[tactic(auto, using(crate::proofs::PairLemmas::gains))]
    #[inline(always)]
    fn sample_all(&mut self, function: &Function) -> Result<(), AllocError>
        ensures members { OnOk result (SameMembers (pairs_of self.new)
            (flat_map (sampled_resources function.now) function.now.expressions ++ pairs_of self.old)) }
        ensures missing_resource { OnOk result (self.new.missing_resource ≡ fold (sample_missed function.now) self.old.missing_resource
            (enumerate_from 0 function.now.expressions)) }
        ensures with_arguments { OnOk result (HaveArguments self.old.sampling.now.keys → HaveArguments self.new.sampling.now.keys) }
        ensures lent { OnOk result (AreLent self.old self.new) }
    {
        for (handle, expression) in function.expressions.iter() {
            self.sample(function, handle, expression)?;
        }
        Ok(())
    }

    /// Adds the pairs of a function.
    fn collect(
        &mut self,
        infos: &[FunctionInfo],
        function: &Function,
        calls: bool,
    ) -> Result<(), AllocError>
        requires calls { (calls ≡ false) → list_any is_call (statements function.now.body) ≡ false }
        requires none { pairs_of self.old ≡ [] }
        ensures members { OnOk result (SameMembers (pairs_of self.new) (computed_pairs infos.now function.now)) }
        ensures missing_resource { OnOk result (self.new.missing_resource ≡ fold (call_missed infos.now function.now)
            (fold (sample_missed function.now) self.old.missing_resource (enumerate_from 0 function.now.expressions))
            (statements function.now.body)) }
        ensures with_arguments { OnOk result (HaveArguments self.old.sampling.now.keys → HaveArguments self.new.sampling.now.keys) }
        ensures lent { OnOk result (AreLent self.old self.new) }
    {
        self.sample_all(function)?;
        self.add_callees(infos, function, calls)?;
        Ok(())
    }

    /// Returns the first expression with an image or a sampler that is no resource, if any.
    fn missing_resource(&self) -> Option<Handle<mark::Expression>>
        ensures { result ≡ self.now.missing_resource }
    {
        self.missing_resource
    }
}

/// Collects the pairs of a function in empty sets, those of two globals and those with an argument. Returns the first expression with an
/// image or a sampler that is no resource, if any: one that samples it, or one that is passed for a sampled argument. `calls` is false only
/// if the function's body has no call.
///
/// # Errors
///
/// `AllocError` if the memory for a pair can't be allocated.
pub fn collect_pairs(
    infos: &[FunctionInfo],
    function: &Function,
    calls: bool,
    sampling_set: &mut HashSet<SamplingKey>,
    sampling: &mut HashSet<Sampling>,
) -> Result<Option<Handle<mark::Expression>>, AllocError>
    requires calls { (calls ≡ false) → list_any is_call (statements function.now.body) ≡ false }
    requires no_globals { sampling_set.old.keys ≡ [] }
    requires no_arguments { sampling.old.keys ≡ [] }
    ensures members { OnOk result (SameMembers (pairs_in sampling_set.new.keys sampling.new.keys)
        (computed_pairs infos.now function.now)) }
    ensures missing_resource { IfOk result (λ missing. missing ≡ fold (call_missed infos.now function.now)
        (fold (sample_missed function.now) None (enumerate_from 0 function.now.expressions)) (statements function.now.body)) }
    ensures with_arguments { OnOk result (HaveArguments sampling.new.keys) }
{
    let mut pairs = Pairs {
        sampling_set,
        sampling,
        missing_resource: None,
    };
    match pairs.collect(infos, function, calls) {
        Ok(()) => Ok(pairs.missing_resource()),
        Err(failure) => Err(failure),
    }
}
