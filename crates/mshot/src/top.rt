ghost use Rattle.std.specs.Prelude.{◌≡◌, ◌≢◌, ℕ, ◌≤◌, List, Some, length};
ghost use Rattle.ms_io.specs.Faults.{Rose};
ghost use Rattle.mshot.specs.Outcome.{IsComplete, Serves, most_bytes};
ghost use Rattle.mshot.specs.Sinks.{sinks};
ghost use Rattle.mshot.specs.Words.{AreRunWords};

use crate::serving::serve;
use crate::status::Status;
use crate::words::are_run_words;
use ms_io::{Sink, Source};
use std::alloc::Global;

/// Serves a script from `src`: the replies go to `out`, and the lines of the log to `log`.
///
/// The words are `run` or `log run`. Where the source tells its bytes and the sinks those that they hold, what was taken
/// and put is exact, whatever the script is and however the source cuts it.
pub fn mshot<S: Source, K: Sink, L: Sink>(
    alloc: Global,
    words: &Vec<String>,
    src: &mut S,
    out: &mut K,
    log: &mut L,
) -> Status
    // Usage, exactly for other words. Then nothing is taken or put.
    ensures usage { ¬ AreRunWords words.now.items → result ≡ Status.Usage }
    ensures no_usage { AreRunWords words.now.items → result ≢ Status.Usage }
    ensures untouched { result ≡ Status.Usage → (src.new ≡ src.old) × (out.new ≡ out.old) × (log.new ≡ log.old) }

    // What was taken, replied and logged, beside one run of the machine.
    ensures served { AreRunWords words.now.items → (script : List ℕ) → S.left src.old ≡ Some script → Serves result script (S.left src.new) (sinks (K.held out.old) (K.pieces out.old) (L.held log.old) (L.pieces log.old)) (sinks (K.held out.new) (K.pieces out.new) (L.held log.new) (L.pieces log.new)) }

    // Each fault ends the call, and its status names where it was.
    ensures read_fault { result ≡ Status.ReadFault → Rose (S.faults src.old) (S.faults src.new) }
    ensures read_quiet { result ≢ Status.ReadFault → S.faults src.new ≡ S.faults src.old }
    ensures write_fault { result ≡ Status.WriteFault → Rose (K.faults out.old) (K.faults out.new) }
    ensures write_quiet { result ≢ Status.WriteFault → K.faults out.new ≡ K.faults out.old }
    ensures log_fault { result ≡ Status.LogFault → Rose (L.faults log.old) (L.faults log.new) }
    ensures log_quiet { result ≢ Status.LogFault → L.faults log.new ≡ L.faults log.old }

    // Where no fault comes and the script isn't too long, the whole of it has its replies, unless memory ran out.
    ensures complete { AreRunWords words.now.items → (script : List ℕ) → S.left src.old ≡ Some script → length script ≤ most_bytes → ¬ Rose (S.faults src.old) (S.faults src.new) → ¬ Rose (K.faults out.old) (K.faults out.new) → ¬ Rose (L.faults log.old) (L.faults log.new) → IsComplete result }
{
    if are_run_words(words.as_slice()) {
        serve(alloc, src, out, log)
    } else {
        Status::Usage
    }
}
