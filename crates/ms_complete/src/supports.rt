// The nogoods that say that an atom has a rule whose body holds.
ghost use Rattle.std.specs.Prelude.{◌≡◌, ◌-◌, ◌≤◌, Any, OnOk, IfOk, drop, length, take};
ghost use Rattle.ms_complete.specs.Bases.{AddsExactly};
ghost use Rattle.ms_complete.specs.Rules.{HeadSays, AreOwn, AreSupports, IsByHead, head_lits};

use crate::key::{NumberedRule, Support};
use crate::written::add_set;
use ms_base::memory::OutOfMemory;
use ms_lits::Lit;
use ms_nogood::Nogoods;
use std::alloc::Global;

/// The supports by rules that have a head, in the order of the heads.
pub(crate) fn supports_of(
    alloc: Global,
    rules: &[NumberedRule],
) -> Result<Vec<Support>, OutOfMemory>
    ensures supports { IfOk result (λ v. AreSupports rules.now v.items) }
    ensures sorted { IfOk result (λ v. IsByHead v.items) }
{
    let mut supports = Vec::with_capacity(alloc, rules.len())?;
    for rule in rules {
        match rule.head {
            None => (),
            Some(head) => supports.push(Support {
                head,
                body: rule.body,
            })?,
        }
    }
    supports.sort_unstable_by_key(|s| s.head);
    Ok(supports)
}

/// Where the supports of one head begin and end.
fn range_of(supports: &[Support], head: u32) -> (usize, usize)
    requires { IsByHead supports.now }
    ensures order { result.0 ≤ result.1 }
    ensures within { result.1 ≤ length supports.now }
    ensures own { AreOwn supports.now head (take (result.1 - result.0) (drop result.0 supports.now)) }
{
    let first = supports.partition_point(|s| s.head < head);
    let end = supports.partition_point(|s| s.head <= head);
    (first, end)
}

/// The supports of one head.
fn with_head(supports: &[Support], head: u32) -> &[Support]
    requires { IsByHead supports.now }
    ensures { AreOwn supports.now head result.now }
{
    let (first, end) = range_of(supports, head);
    &supports[first..end]
}

/// Adds the nogood of each head.
pub(crate) fn add_supports(
    alloc: Global,
    heads: &[u32],
    supports: &[Support],
    store: &mut Nogoods,
) -> Result<(), OutOfMemory>
    requires { IsByHead supports.now }
    ensures { OnOk result (AddsExactly store.old store.new (λ nogood. Any (λ head. HeadSays supports.now head nogood) heads.now)) }
{
    for head in heads {
        add_head(alloc, *head, supports, store)?;
    }
    Ok(())
}

fn add_head(
    alloc: Global,
    head: u32,
    supports: &[Support],
    store: &mut Nogoods,
) -> Result<(), OutOfMemory>
    requires { IsByHead supports.now }
    ensures { OnOk result (AddsExactly store.old store.new (HeadSays supports.now head)) }
{
    let own = with_head(supports, head);
    let mut lits = lits_of(alloc, head, own)?;
    add_set(alloc, lits.as_mut_slice(), store)?;
    Ok(())
}

/// The head, and the opposites of the bodies.
fn lits_of(alloc: Global, head: u32, own: &[Support]) -> Result<Vec<Lit>, OutOfMemory>
    ensures { IfOk result (λ v. v.items ≡ head_lits head own.now) }
{
    let mut lits = Vec::with_capacity(alloc, own.len() + 1)?;
    lits.push(Lit {
        var: head,
        truth: true,
    })?;
    for s in own {
        lits.push(Lit {
            var: s.body,
            truth: false,
        })?;
    }
    Ok(lits)
}
