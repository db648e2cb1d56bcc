// Intervals in terms become ranges.
ghost use Rattle.std.specs.Prelude.{◌≡◌, ◌+◌, length, IfOk};
ghost use Rattle.ms_core.specs.Ranges.{ranged, all_ranged};
ghost use Rattle.ms_parts.specs.Makers.{IsMade};

use crate::duplicate::duplicate_bytes;
use ms_base::memory::OutOfMemory;
use ms_base::seq::Seq;
use ms_core::pattern::{Pattern, Patterns};
use ms_core::rule::{Range, Ranges};
use ms_grammar::term::TextTerm;
use sqlite_items::{Boxed, Items};
use std::alloc::Global;

/// The number of the next range, where `first` is that of the first one.
fn next_number(first: usize, ranges: &Ranges) -> Result<u32, OutOfMemory>
    ensures { IfOk result (λ n. n ≡ first + length ranges.now) }
{
    let number = first.checked_add(ranges.len()).ok_or(OutOfMemory)?;
    u32::try_from(number).map_err(|_| OutOfMemory)
}

/// The pattern of a term without pools. Its ranges go behind the others, of which `first` is the number of
/// the first one.
#[cycle(ranged)]
pub(crate) fn ranged(
    alloc: Global,
    first: usize,
    ranges: &mut Ranges,
    term: &TextTerm,
) -> Result<Pattern, OutOfMemory>
    ensures { IfOk result (λ made. IsMade (ranged term.now) first ranges.old made ranges.new) }
{
    match term {
        TextTerm::Number(n) => Ok(Pattern::Number(*n)),
        TextTerm::Text(bytes) => Ok(Pattern::Text(duplicate_bytes(alloc, bytes)?)),
        TextTerm::Function(name, lists) => {
            let args = match lists.as_slice() {
                [] => Items::new(alloc),
                [args, ..] => all_ranged(alloc, first, ranges, args.as_slice())?,
            };
            Ok(Pattern::Function(duplicate_bytes(alloc, name)?, args))
        }
        TextTerm::Pool(terms) => {
            let args = all_ranged(alloc, first, ranges, terms.as_slice())?;
            Ok(Pattern::Function(Seq::new(alloc), args))
        }
        TextTerm::Interval(low, high) => {
            let low = ranged(alloc, first, ranges, low.get())?;
            let high = ranged(alloc, first, ranges, high.get())?;
            let number = next_number(first, ranges)?;
            ranges.push(Range { low, high })?;
            Ok(Pattern::Range(number))
        }
        TextTerm::Neg(of) => {
            let of = ranged(alloc, first, ranges, of.get())?;
            Ok(Pattern::Neg(Boxed::new(alloc, of)?))
        }
        TextTerm::Abs(of) => {
            let of = ranged(alloc, first, ranges, of.get())?;
            Ok(Pattern::Abs(Boxed::new(alloc, of)?))
        }
        TextTerm::Binary(op, left, right) => {
            let left = Boxed::new(alloc, ranged(alloc, first, ranges, left.get())?)?;
            let right = Boxed::new(alloc, ranged(alloc, first, ranges, right.get())?)?;
            Ok(Pattern::Binary(*op, left, right))
        }
    }
}

/// The patterns of terms without pools, one after the other.
#[cycle(ranged)]
pub(crate) fn all_ranged(
    alloc: Global,
    first: usize,
    ranges: &mut Ranges,
    terms: &[TextTerm],
) -> Result<Patterns, OutOfMemory>
    ensures { IfOk result (λ made. IsMade (all_ranged terms.now) first ranges.old made ranges.new) }
{
    let mut made = Items::new(alloc);
    for term in terms {
        made.push(ranged(alloc, first, ranges, term)?)?;
    }
    Ok(made)
}
