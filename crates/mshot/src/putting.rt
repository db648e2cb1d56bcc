// What is put for one command.
ghost use Rattle.std.specs.Prelude.{◌≡◌, ◌≢◌, [], ◌∷◌, IfErr, OnOk, OnErr};
ghost use Rattle.ms_io.specs.Faults.{Rose};
ghost use Rattle.mshot.specs.Outcome.{IsOfPutting};
ghost use Rattle.mshot.specs.Sinks.{Puts, PutsFront, log_part, sinks, told};
ghost use Rattle.mshot.specs.Serving.{HasPut, HasFailed};

use crate::answer::Answer;
use crate::status::Status;
use ms_io::{Failed, Sink};

/// Puts the lines of the log of a command, where it has some, and then its reply.
pub fn put_answer<K: Sink, L: Sink>(answer: &Answer, out: &mut K, log: &mut L) -> Result<(), Status>
    ensures put { OnOk result (HasPut answer.now (sinks (K.held out.old) (K.pieces out.old) (L.held log.old) (L.pieces log.old)) (sinks (K.held out.new) (K.pieces out.new) (L.held log.new) (L.pieces log.new))) }
    ensures failed { IfErr result (λ status. HasFailed status answer.now (sinks (K.held out.old) (K.pieces out.old) (L.held log.old) (L.pieces log.old)) (sinks (K.held out.new) (K.pieces out.new) (L.held log.new) (L.pieces log.new))) }
    ensures ends { IfErr result IsOfPutting }

    // A fault ends it, and its status names the sink.
    ensures out_fault { result ≡ Err Status.WriteFault → Rose (K.faults out.old) (K.faults out.new) }
    ensures out_quiet { result ≢ Err Status.WriteFault → K.faults out.new ≡ K.faults out.old }
    ensures log_fault { result ≡ Err Status.LogFault → Rose (L.faults log.old) (L.faults log.new) }
    ensures log_quiet { result ≢ Err Status.LogFault → L.faults log.new ≡ L.faults log.old }
{
    if put_log(answer.log.as_slice(), log).is_err() {
        return Err(Status::LogFault);
    }
    if put_piece(answer.reply.as_slice(), out).is_err() {
        return Err(Status::WriteFault);
    }
    Ok(())
}

/// Puts a part of the log. One without lines isn't put.
fn put_log<L: Sink>(part: &[u8], log: &mut L) -> Result<(), Failed>
    ensures quiet { OnOk result (L.faults log.new ≡ L.faults log.old) }
    ensures fault { OnErr result (Rose (L.faults log.old) (L.faults log.new)) }
    ensures put { OnOk result (Puts (log_part part.now) (told (L.held log.old) (L.pieces log.old)) (told (L.held log.new) (L.pieces log.new))) }
    ensures failed { OnErr result (PutsFront [] part.now (told (L.held log.old) (L.pieces log.old)) (told (L.held log.new) (L.pieces log.new))) }
{
    if part.is_empty() {
        return Ok(());
    }
    put_piece(part, log)
}

/// Puts one piece.
fn put_piece<K: Sink>(piece: &[u8], out: &mut K) -> Result<(), Failed>
    ensures quiet { OnOk result (K.faults out.new ≡ K.faults out.old) }
    ensures fault { OnErr result (Rose (K.faults out.old) (K.faults out.new)) }
    ensures put { OnOk result (Puts (piece.now ∷ []) (told (K.held out.old) (K.pieces out.old)) (told (K.held out.new) (K.pieces out.new))) }
    ensures failed { OnErr result (PutsFront [] piece.now (told (K.held out.old) (K.pieces out.old)) (told (K.held out.new) (K.pieces out.new))) }
{
    out.put(piece)
}
