// The answer sets of a join, found by trying every set of atoms. It is the plain form of solving.
#![tactic(auto)]

ghost use Rattle.std.specs.Prelude.{◌≡◌, ◌≢◌, ◌≤◌, IfOk, OnOk, length};
ghost use Rattle.ms_join.specs.AnswerSets.{AreRulesOver, IsAtomSet};
ghost use Rattle.ms_join.specs.Assumptions.{IsMeetingAnswer};
ghost use Rattle.ms_solving.specs.Listing.{AreAnswers, EndsAs};
ghost use Rattle.ms_answers.specs.Subsets.{KeepsWhere};

mod meeting;
mod subsets;

use meeting::meets_each;
use ms_base::seq::Seq;
use ms_join::assumption::AtomLit;
pub use ms_lits::Ending;
use ms_rules::{AtomSet, OutOfMemory, RuleScratch, Rules, is_answer_by};
use std::alloc::Global;
use subsets::next_set;

/// Answer sets, and whether they are all.
#[derive(Debug, Drop)]
pub struct Found {
    pub ending: Ending,
    pub sets: Seq<AtomSet>,
}

/// Adds the set to the list where it is an answer set that meets the assumptions.
fn keep_answer(
    alloc: Global,
    join: &Rules,
    assume: &[AtomLit],
    set: &AtomSet,
    scratch: &mut RuleScratch,
    sets: &mut Seq<AtomSet>,
) -> Result<(), OutOfMemory>
    requires over_base { AreRulesOver scratch.old.atoms join.now }
    requires rules { length join.now.rules ≤ scratch.old.rules }
    requires set { IsAtomSet scratch.old.atoms set.now }
    ensures room { scratch.new ≡ scratch.old }
    ensures kept { OnOk result
        (KeepsWhere (IsMeetingAnswer scratch.old.atoms join.now assume.now set.now) set.now sets.old sets.new) }
{
    if meets_each(set, assume) && is_answer_by(join, set, scratch) {
        sets.push(Seq::copied(alloc, set.as_slice())?)?;
    }
    Ok(())
}

/// The answer sets of a join over a base of so many atoms that meet the assumptions, or as many of them as were asked
/// for.
///
/// It may try each set of atoms, and each atom doubles their number. It fails only for want of memory.
pub fn answer_sets(
    alloc: Global,
    atoms: u32,
    join: &Rules,
    assume: &[AtomLit],
    asked: u64,
) -> Result<Found, OutOfMemory>
    requires { AreRulesOver atoms join.now }
    ensures true_ones { IfOk result (λ found. AreAnswers (IsMeetingAnswer atoms join.now assume.now) found.sets) }
    ensures ends { IfOk result
        (λ found. EndsAs found.ending asked (IsMeetingAnswer atoms join.now assume.now) found.sets) }
    ensures uncut { IfOk result (λ found. found.ending ≢ Ending.Cut) }
{
    let mut scratch = RuleScratch::new(alloc, atoms, join.rules.len())?;
    let mut sets = Seq::new(alloc);
    let mut candidate = Some(Seq::new(alloc));
    while let Some(set) = candidate {
        if sets.len() as u64 == asked {
            break;
        }
        keep_answer(alloc, join, assume, &set, &mut scratch, &mut sets)?;
        candidate = next_set(set, atoms)?;
    }
    let ending = if sets.len() as u64 == asked {
        Ending::StillOpen
    } else {
        Ending::Complete
    };
    Ok(Found { ending, sets })
}
