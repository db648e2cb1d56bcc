// The numbers of atoms in a base.
ghost use Rattle.std.specs.Prelude.{IfOk};
ghost use Rattle.ms_ctxground.specs.Numbering.{AreNumbersOf, AreNumbersOfAll, IsSetOf};

use ms_atombase::{AtomBase, AtomId};
use ms_base::seq::Seq;
use ms_join::ground_rule::AtomIds;
use ms_term::{OutOfMemory, TermId};
use std::alloc::Global;

/// The numbers of those of the names that are in the base.
pub(crate) fn numbers_of_known(
    alloc: Global,
    base: &AtomBase,
    names: &[TermId],
) -> Result<AtomIds, OutOfMemory>
    ensures { IfOk result (AreNumbersOf base.now names.now) }
{
    let mut numbers = Vec::with_capacity(alloc, names.len())?;
    for name in names {
        if let Some(number) = base.find(*name) {
            numbers.push(number)?;
        }
    }
    Ok(each_once(numbers))
}

/// The numbers of the names, or none where one of them is outside the base.
pub(crate) fn numbers_of_all(
    alloc: Global,
    base: &AtomBase,
    names: &[TermId],
) -> Result<Option<AtomIds>, OutOfMemory>
    ensures { IfOk result (AreNumbersOfAll base.now names.now) }
{
    let mut numbers = Vec::with_capacity(alloc, names.len())?;
    for name in names {
        let Some(number) = base.find(*name) else {
            return Ok(None);
        };
        numbers.push(number)?;
    }
    Ok(Some(each_once(numbers)))
}

/// The numbers in rising order, each of them once.
fn each_once(mut numbers: Vec<AtomId>) -> AtomIds
    ensures { IsSetOf numbers.items result }
{
    numbers.sort_unstable();
    numbers.dedup();
    Seq::from_vec(numbers)
}
