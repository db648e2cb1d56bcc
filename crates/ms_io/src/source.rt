ghost use Rattle.std.specs.Prelude.{◌≡◌, ℕ, ◌<◌, ◌≤◌, List, Option, length, IfOk, OnOk, OnErr};
ghost use Rattle.ms_io.specs.Faults.{Rose};
ghost use Rattle.ms_io.specs.Streams.{Moves, IsAtEnd};

use crate::failed::Failed;

/// Where bytes come from. It may tell the bytes that are left, and it counts its faults. A call that is `Ok` counts none.
pub trait Source {
    /// The bytes that are left, where it tells them.
    ghost left: { Self → Option (List ℕ) };

    /// How many faults there were.
    ghost faults: { Self → ℕ };

    /// Moves the first bytes of what is left into the front of the buffer, and answers how many. For a
    /// buffer that isn't empty 0 means the end.
    fn take(&mut self, buffer: &mut [u8]) -> Result<usize, Failed>
        ensures counts { faults self.old ≤ faults self.new }
        ensures quiet { OnOk result (faults self.new ≡ faults self.old) }
        ensures failed { OnErr result (Rose (faults self.old) (faults self.new)) }
        ensures stays { OnErr result (left self.new ≡ left self.old) }
        ensures within { IfOk result (λ n. n ≤ length buffer.old) }
        ensures moved { IfOk result (λ n. Moves (left self.old) n buffer.new (left self.new)) }
        ensures end { IfOk result (λ n. n ≡ 0 → 0 < length buffer.old → IsAtEnd (left self.old)) };
}
