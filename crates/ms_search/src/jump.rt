ghost use Rattle.std.specs.Prelude.{◌≢◌, ◌<◌, ◌≤◌, All, AllPairs};
ghost use Rattle.ms_lits.specs.Assignment.{IsAssignment};
ghost use Rattle.ms_search.specs.Jumps.{IsFreeBelow, IsOpenBelow};

use ms_lits::{Lit, Trail};

/// The least level at which a nogood is whole or unit: the second greatest of the levels of its literals,
/// where an unassigned one has none, and counts as the greatest.
pub(crate) fn jump_level(lits: &[Lit], trail: &Trail) -> u32
    requires assignment { IsAssignment trail.now }
    requires room { All (λ l. l.var < trail.now.room) lits.now }
    requires different { AllPairs (λ l m. l.var ≢ m.var) lits.now }
    ensures level { result ≤ trail.now.level }
    ensures open_twice { IsOpenBelow trail.now.entries lits.now result }
{
    let mut greatest = 0;
    let mut second = 0;
    for lit in lits {
        let level = reach(*lit, trail);
        if level > greatest {
            second = greatest;
            greatest = level;
        } else if level > second {
            second = level;
        }
    }
    if second < trail.level() as u64 {
        second as u32
    } else {
        trail.level()
    }
}

/// The level of a literal's variable, or the greatest number where it is unassigned.
fn reach(lit: Lit, trail: &Trail) -> u64
    requires assignment { IsAssignment trail.now }
    requires room { lit.var < trail.now.room }
    ensures { IsFreeBelow trail.now.entries lit result }
{
    match trail.value(lit.var) {
        Some(_) => trail.level_of(lit.var) as u64,
        None => u64::MAX,
    }
}
