// Laws of the loop of turns. Each is the contract of a function that does nothing: it speaks of every plan and
// of all that a loop may be told.
ghost use Rattle.std.specs.Prelude.{ℕ, ◌≡◌, ◌<◌, ◌≤◌, ◌↔◌, ◌++◌, List, Some, length, slice_get};
ghost use Rattle.ms_inc.specs.declared.turn.Last.{Last};
ghost use Rattle.ms_inc.specs.Turns.{HasEnded, IsMadeIn, Plan, turn_of, turns};

/// After a loop has ended, nothing that it is told makes another turn.
pub fn an_ended_loop_stays_ended()
    ensures { (plan : Plan) (told more : List Last) → HasEnded plan told → turns plan (told ++ more) ≡ turns plan told }
{}

/// Turns count up by one from 0.
pub fn turns_count_up()
    ensures { (plan : Plan) (told : List Last) (t : ℕ) → t < length (turns plan told) → slice_get (turns plan told) t ≡ Some (turn_of t) }
{}

/// A turn is made exactly where what was told last before it, and before each earlier turn, wants one more.
pub fn turns_are_made_by_need()
    ensures { (plan : Plan) (told : List Last) (t : ℕ) → (t < length (turns plan told)) ↔ ((k : ℕ) → k ≤ t → IsMadeIn plan told k) }
{}
