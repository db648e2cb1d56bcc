ghost use Rattle.std.specs.Prelude.{ℕ, ◌≡◌, ◌<◌, ◌^◌, ◌∷◌, ◌++◌, [], List, not, ◌&&◌, option_to_list};
ghost use Rattle.ms_inc.specs.declared.turn.Last.{Last};
ghost use Rattle.ms_inc.specs.Turns.{is_fresh, is_made, is_same, is_start, loop_after, turns};

use crate::turn::{Last, Outcome, Turn};
use std::marker::Model;

/// The loop of turns: it goes on below `imin`, never reaches `imax`, and stops in between where a solve
/// ends as `istop` says. No call takes memory.
#[derive(Debug, Drop)]
pub struct IncLoop {
    imin: i64,
    imax: Option<i64>,
    istop: Outcome,
    /// How many turns were made.
    made: u64,
    over: bool,
}

impl Model for IncLoop {
    ghost use Rattle.ms_inc.specs.Turns.{Loop, loop_of};

    ghost Value = { Loop };

    ghost view = { λ l. loop_of l.imin l.imax l.istop l.made l.over };
}

fn is_same(outcome: Outcome, other: Outcome) -> bool
    ensures { result ≡ is_same outcome other }
{
    matches!(
        (outcome, other),
        (Outcome::Sat, Outcome::Sat)
            | (Outcome::Unsat, Outcome::Unsat)
            | (Outcome::Unknown, Outcome::Unknown)
    )
}

impl IncLoop {
    /// A loop that was told nothing yet.
    pub fn new(imin: i64, imax: Option<i64>, istop: Outcome) -> IncLoop
        ensures { result ≡ loop_after (record { imin = imin; imax = imax; istop = istop }) [] }
    {
        IncLoop {
            imin,
            imax,
            istop,
            made: 0,
            over: false,
        }
    }

    /// The next turn, or `None` where the loop has ended. `last` is `Start` in the first call alone.
    pub fn next(&mut self, last: Last) -> Option<Turn>
        requires start { is_start last ≡ is_fresh self.old }
        requires few { self.old.made < 2 ^ 63 }
        ensures told { (told : List Last) → self.old ≡ loop_after self.old.plan told → self.new ≡ loop_after self.old.plan (told ++ last ∷ []) }
        ensures turn { (told : List Last) → self.old ≡ loop_after self.old.plan told → turns self.old.plan (told ++ last ∷ []) ≡ turns self.old.plan told ++ option_to_list result }
    {
        if !self.goes_on(last) {
            self.over = true;
            return None;
        }
        let step = self.made;
        self.made += 1;
        Some(Turn { step })
    }

    /// Whether the turn that would come next is made.
    fn goes_on(&self, last: Last) -> bool
        requires { self.now.made < 2 ^ 63 }
        ensures { result ≡ (not self.now.over && is_made self.now.plan self.now.made last) }
    {
        if self.over {
            return false;
        }
        let turn = self.made as i64;
        if let Some(imax) = self.imax {
            if imax <= turn {
                return false;
            }
        }
        match last {
            Last::Start => true,
            Last::Ended(outcome) => turn < self.imin || !is_same(outcome, self.istop),
            Last::Refused => false,
        }
    }
}
