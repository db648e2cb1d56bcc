ghost use Rattle.std.specs.Prelude.{ℕ, ◌≡◌, ◌≤◌, Bool, List, [], IfOk, OnOk, take};
ghost use Rattle.ms_lits.specs.declared.lit.Lit.{Lit};
ghost use Rattle.ms_lits.specs.declared.trail.Entry.{Entry};
ghost use Rattle.ms_lits.specs.Literals.{IsClosed};
ghost use Rattle.ms_nogood.specs.Propagation.{held_in};
ghost use Rattle.ms_nogood.specs.Theories.{Agree, BeginWith, HasAll, IsTotal, Judges};

use ms_lits::{Lits, OutOfMemory, Trail};

/// What a theory says of a trail.
#[derive(Debug, PartialEq, Drop)]
pub enum Verdict {
    /// The trail is settled for the theory.
    Quiet,
    /// The theory gives this nogood, of which at most one literal doesn't hold on the trail. Its literals are
    /// in rising order of their variables.
    Nogood(Lits),
}

/// Nogoods that aren't written out: a theory looks at the trail, and gives one where it is needed.
///
/// A theory leans on nogoods, under which the trails that it checks are closed. It may keep what it has seen
/// of a trail, as long as it is told where the trail is cut.
pub trait Theory {
    /// The number of variables that it speaks of.
    ghost vars: { Self → ℕ };
    /// The nogoods on which it leans.
    ghost leans_on: { Self → List Lit → Type 0 };
    /// The entries that are settled for it.
    ghost Settled: { Self → List Entry → Type 0 };
    /// The nogoods that it may give.
    ghost Gives: { Self → List Lit → Type 0 };
    /// The entries that it has seen.
    ghost Seen: { Self → List Entry } = { λ _. [] };

    /// Says that the trail is settled, or gives a nogood that is violated or unit on it. What the theory means
    /// stays as it is.
    fn check(&mut self, trail: &Trail) -> Result<Verdict, OutOfMemory>
        requires room { vars self.old ≤ trail.now.room }
        requires closed { IsClosed (leans_on self.old) (held_in trail.now.entries) }
        requires seen { BeginWith trail.now.entries (Seen self.old) }
        ensures judges { IfOk result (Judges (Settled self.old) (Gives self.old) (vars self.old) trail.now.entries) }
        ensures seen { OnOk result (BeginWith trail.now.entries (Seen self.new)) }
        ensures vars { vars self.new ≡ vars self.old }
        ensures leans_on { Agree (leans_on self.new) (leans_on self.old) }
        ensures settled { Agree (Settled self.new) (Settled self.old) }
        ensures gives { Agree (Gives self.new) (Gives self.old) };

    /// Is told that the trail was cut to so many literals. What the theory means stays as it is.
    fn back_to(&mut self, len: usize)
        ensures seen { BeginWith (take len (Seen self.old)) (Seen self.new) }
        ensures vars { vars self.new ≡ vars self.old }
        ensures leans_on { Agree (leans_on self.new) (leans_on self.old) }
        ensures settled { Agree (Settled self.new) (Settled self.old) }
        ensures gives { Agree (Gives self.new) (Gives self.old) };

    /// A total assignment contains nothing that the theory gives, where its entries are settled and closed.
    ghost accepted: { (theory : Self) (entries : List Entry) (total : ℕ → Bool) (nogood : List Lit) → IsTotal (vars theory) entries total → Settled theory entries → IsClosed (leans_on theory) (held_in entries) → Gives theory nogood → ¬ HasAll total nogood };
}
