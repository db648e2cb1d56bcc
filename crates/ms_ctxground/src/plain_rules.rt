// The ground module of core rules without aggregates.
ghost use Rattle.std.specs.Prelude.{◌≡◌, ◌≤◌, All, IsTrue, false, length};
ghost use Rattle.ms_base.specs.Limits.{most_things};
ghost use Rattle.ms_instances.specs.Naming.{IsHeadedRule};
ghost use Rattle.ms_copies.specs.Simplifying.{ArePlain};
ghost use Rattle.ms_ctxground.specs.Grounds.{Grounds, HasAggregates, IsBaseIn};

use crate::fault::GroundFault;
use crate::module::module_of;
use crate::size::has_large;
use ms_atombase::AtomBase;
use ms_core::rule::CoreRule;
use ms_instances::instances;
use ms_join::ground_module::GroundModule;
use ms_term::Terms;
use std::alloc::Global;

/// Whether a rule has an aggregate.
pub(crate) fn has_aggregates(rules: &[CoreRule]) -> bool
    ensures some { IsTrue result → HasAggregates rules.now }
    ensures none { result ≡ false → ArePlain rules.now }
{
    for rule in rules {
        if !rule.aggs.is_empty() {
            return true;
        }
    }
    false
}

/// The ground module of rules without aggregates.
pub(crate) fn ground_rules(
    alloc: Global,
    base: &mut AtomBase,
    terms: &mut Terms,
    rules: &[CoreRule],
) -> Result<GroundModule, GroundFault>
    requires plain { ArePlain rules.now }
    requires headed { All (λ r. IsHeadedRule r.kind r.head) rules.now }
    requires base { IsBaseIn terms.old base.old }
    requires few { length base.old ≤ most_things }
    ensures { Grounds rules.now terms.old terms.new base.old base.new result }
{
    let instances = instances(alloc, terms, rules)?;
    if has_large(base, terms, instances.as_slice()) {
        return Err(GroundFault::TooLarge);
    }
    Ok(module_of(alloc, base, terms, instances.as_slice())?)
}
