// Unit propagation by passes over the whole store: the plain form, which reads each nogood anew.
ghost use Rattle.std.specs.Prelude.{◌≡◌, ◌<◌, ◌∷◌, ◌++◌, [], ℕ, All, IfSome, IfNone, IsTrue, length, false};
ghost use Rattle.ms_lits.specs.Literals.{Nogood};
ghost use Rattle.ms_nogood.specs.Propagation.{IsWithin, Propagates, Answers, IsWholeAt};
ghost use Rattle.ms_nogood.specs.Looks.{IsLook, IsCalmAt};

use crate::nogoods::Nogoods;
use ms_lits::{Lit, Trail};

/// What a scan found.
#[derive(Clone, Copy, Debug, PartialEq, Eq)]
pub enum Scan {
    /// The trail is closed, and no nogood is whole on it.
    Closed,
    /// The nogood of this key is whole on the trail.
    Violated(usize),
}

/// What is known of a nogood on a trail, by the literals that were read.
#[derive(Clone, Copy)]
enum Look {
    /// All literals hold.
    Whole,
    /// All literals hold but this one, which is unassigned.
    Open(Lit),
    /// The nogood neither is whole nor forces anything new.
    Calm,
}

impl Look {
    /// What is known with one literal more.
    fn with(self, lit: Lit, trail: &Trail) -> Look
        requires { lit.var < trail.now.room }
        ensures { (seen : Nogood) → IsLook trail.now.entries seen self → IsLook trail.now.entries (seen ++ lit ∷ []) result }
    {
        match trail.value(lit.var) {
            Some(truth) => { if truth == lit.truth { self } else { Look::Calm } }
            None => match self {
                Look::Whole => Look::Open(lit),
                Look::Open(first) => { if first == lit { self } else { Look::Calm } }
                Look::Calm => Look::Calm,
            },
        }
    }
}

/// Reads a nogood, as far as it may still be whole or unit.
fn read_nogood(lits: &[Lit], trail: &Trail) -> Look
    requires { All (λ lit. lit.var < trail.now.room) lits.now }
    ensures { IsLook trail.now.entries lits.now result }
{
    let mut found = Look::Whole;
    for lit in lits {
        found = found.with(*lit, trail);
        if let Look::Calm = found {
            return Look::Calm;
        }
    }
    found
}

impl Nogoods {
    /// Assigns the unit closure of the store and the trail at the present level, as long as no nogood is
    /// whole. Reasons are the keys of the nogoods that were unit.
    pub fn scan(&self, trail: &mut Trail) -> Scan
        requires { IsWithin self.now trail.old.room }
        ensures propagates { Propagates self.now trail.old trail.new }
        ensures answers { Answers self.now trail.new.entries result }
    {
        loop {
            let before = trail.len();
            if let Some(key) = self.pass(trail) {
                return Scan::Violated(key);
            }
            if trail.len() == before {
                return Scan::Closed;
            }
        }
    }

    /// Visits each nogood once, and tells the key of a whole one.
    fn pass(&self, trail: &mut Trail) -> Option<usize>
        requires { IsWithin self.now trail.old.room }
        ensures propagates { Propagates self.now trail.old trail.new }
        ensures whole { IfSome result (λ key. IsWholeAt self.now trail.new.entries key) }
        ensures quiet { IfNone result (length trail.new.entries ≡ length trail.old.entries → (key : ℕ) → IsCalmAt self.now trail.new.entries key) }
    {
        for key in 0..self.end() {
            if self.visit(key, trail) {
                return Some(key);
            }
        }
        None
    }

    /// Assigns what the nogood of a key forces, or tells that it is whole.
    fn visit(&self, key: usize, trail: &mut Trail) -> bool
        requires { IsWithin self.now trail.old.room }
        ensures propagates { Propagates self.now trail.old trail.new }
        ensures whole { IsTrue result → IsWholeAt self.now trail.new.entries key }
        ensures calm { result ≡ false → length trail.new.entries ≡ length trail.old.entries → IsCalmAt self.now trail.new.entries key }
        ensures same { length trail.new.entries ≡ length trail.old.entries → trail.new.entries ≡ trail.old.entries }
    {
        let Some(lits) = self.find(key) else {
            return false;
        };
        match read_nogood(lits, trail) {
            Look::Whole => true,
            Look::Open(lit) => {
                trail.assign(lit.opposite(), Some(key));
                false
            }
            Look::Calm => false,
        }
    }
}
