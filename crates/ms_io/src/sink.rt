ghost use Rattle.std.specs.Prelude.{◌≡◌, ℕ, ◌≤◌, List, Option, OnOk, OnErr};
ghost use Rattle.ms_io.specs.Faults.{Rose};
ghost use Rattle.ms_io.specs.Streams.{Adds, AddsFront, AddsPiece};

use crate::failed::Failed;

/// Where bytes go. It may tell the bytes that it holds and the pieces that were put, and it counts its faults. A call that
/// is `Ok` counts none.
pub trait Sink {
    /// The bytes that it holds, where it tells them.
    ghost held: { Self → Option (List ℕ) };

    /// The pieces that were put, each by one call that was `Ok`, where it tells them.
    ghost pieces: { Self → Option (List (List ℕ)) };

    /// How many faults there were.
    ghost faults: { Self → ℕ };

    /// Adds the piece, or fails after adding a front of it.
    fn put(&mut self, piece: &[u8]) -> Result<(), Failed>
        ensures counts { faults self.old ≤ faults self.new }
        ensures quiet { OnOk result (faults self.new ≡ faults self.old) }
        ensures failed { OnErr result (Rose (faults self.old) (faults self.new)) }
        ensures added { OnOk result (Adds (held self.old) piece.now (held self.new)) }
        ensures front { OnErr result (AddsFront (held self.old) piece.now (held self.new)) }
        ensures piece { OnOk result (AddsPiece (pieces self.old) piece.now (pieces self.new)) }
        ensures no_piece { OnErr result (pieces self.new ≡ pieces self.old) };
}
