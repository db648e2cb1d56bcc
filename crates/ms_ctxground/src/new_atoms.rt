// The names of atoms that a base lacks, in term order.
ghost use Rattle.std.specs.Prelude.{◌≡◌, ◌<◌, All, IfOk, OnOk, length};
ghost use Rattle.std.specs.List.{filter_map};
ghost use Rattle.ms_term.specs.Terms.{AllDifferent};
ghost use Rattle.ms_copies.specs.Grounding.{gives_head, gives_external};
ghost use Rattle.ms_ctxground.specs.NewAtoms.{head_of, AreAdded, IsNewOf};

use ms_atombase::AtomBase;
use ms_core::rule::RuleKind;
use ms_instances::Instance;
use ms_join::ground_module::TermIds;
use ms_term::{OutOfMemory, TermId, Terms, in_term_order};
use std::alloc::Global;

/// The heads of normal rules and choices, in the order of the instances.
pub(crate) fn outputs(alloc: Global, instances: &[Instance]) -> Result<Vec<TermId>, OutOfMemory>
    ensures { IfOk result (λ names. names.items ≡ filter_map (head_of gives_head) instances.now) }
{
    let mut names = Vec::new(alloc);
    for instance in instances {
        if let Some(name) = output(instance) {
            names.push(name)?;
        }
    }
    Ok(names)
}

fn output(instance: &Instance) -> Option<TermId>
    ensures { result ≡ head_of gives_head instance.now }
{
    match instance.kind {
        RuleKind::Normal | RuleKind::Choice => instance.head,
        RuleKind::Constraint | RuleKind::External => None,
    }
}

/// The declared externals, in the order of the instances.
pub(crate) fn externals(alloc: Global, instances: &[Instance]) -> Result<Vec<TermId>, OutOfMemory>
    ensures { IfOk result (λ names. names.items ≡ filter_map (head_of gives_external) instances.now) }
{
    let mut names = Vec::new(alloc);
    for instance in instances {
        if let Some(name) = external(instance) {
            names.push(name)?;
        }
    }
    Ok(names)
}

fn external(instance: &Instance) -> Option<TermId>
    ensures { result ≡ head_of gives_external instance.now }
{
    match instance.kind {
        RuleKind::External => instance.head,
        RuleKind::Normal | RuleKind::Choice | RuleKind::Constraint => None,
    }
}

/// The names of either list that the base lacks, in term order and each once.
pub(crate) fn new_names(
    alloc: Global,
    base: &AtomBase,
    terms: &Terms,
    outputs: &[TermId],
    externals: &[TermId],
) -> Result<TermIds, OutOfMemory>
    requires different { AllDifferent terms.now }
    requires outputs { All (λ n. n < length terms.now) outputs.now }
    requires externals { All (λ n. n < length terms.now) externals.now }
    ensures { IfOk result (IsNewOf terms.now base.now outputs.now externals.now) }
{
    let mut names = Vec::new(alloc);
    add_unknown(base, outputs, &mut names)?;
    add_unknown(base, externals, &mut names)?;
    Ok(in_term_order(terms, names))
}

/// Appends those of the names that the base lacks.
fn add_unknown(base: &AtomBase, names: &[TermId], into: &mut Vec<TermId>) -> Result<(), OutOfMemory>
    ensures { OnOk result (AreAdded base.now names.now into.old.items into.new.items) }
{
    for name in names {
        if base.find(*name).is_none() {
            into.push(*name)?;
        }
    }
    Ok(())
}
