// Serving: a piece of the script is taken, and each whole command in it is answered before the next piece is taken.
ghost use Rattle.std.specs.Prelude.{◌≡◌, ◌≢◌, ◌<◌, ◌≤◌, ◌+◌, ◌^◌, ◌||◌, ◌⊎◌, ℕ, ◌++◌, Bool, false, true, List, [], Some, None, IfOk, IfErr, OnOk, IsSome, length, vec_len};
ghost use Rattle.ms_io.specs.Faults.{Rose};
ghost use Rattle.ms_lines.specs.Feeding.{item_of, IsShorter, GivesSome};
ghost use Rattle.ms_machine.specs.Machine.{start};
ghost use Rattle.ms_session.specs.Kept.{state_of};
ghost use Rattle.mshot.specs.Sinks.{Sinks, sinks};
ghost use Rattle.mshot.specs.Outcome.{HasStopped, IsAfterReading, IsOfPutting, Serves};
ghost use Rattle.mshot.specs.Serving.{Finishes, Goes, HasServed, SaysIn, SaysNoMore, TakesPiece};
ghost use Rattle.ms_lines.specs.declared.Lines.{Lines};

use crate::answer::{Answer, answer_command, answer_refusal};
use crate::putting::put_answer;
use crate::status::Status;
use ms_base::limits::MOST_BYTES;
use ms_base::memory::OutOfMemory;
use ms_io::{Sink, Source};
use ms_lines::{Fed, Lines};
use ms_machine::reply::Refusal;
use ms_session::Session;
use std::alloc::{AllocError, Global};

/// How many bytes are asked for at once.
const CHUNK: usize = 1 << 16;

/// Takes a piece of what is left, after so many bytes.
fn take_piece<S: Source>(src: &mut S, buffer: &mut [u8], taken: usize) -> Result<usize, Status>
    requires room { 0 < length buffer.old }
    requires few { taken ≤ 2 ^ 30 }
    ensures fault { result ≡ Err Status.ReadFault → Rose (S.faults src.old) (S.faults src.new) }
    ensures quiet { result ≢ Err Status.ReadFault → S.faults src.new ≡ S.faults src.old }
    ensures len { length buffer.new ≡ length buffer.old }
    ensures few_more { IfOk result (λ n. (n ≤ length buffer.old) × (taken + n ≤ 2 ^ 30)) }
    ensures only { IfErr result (λ status. (status ≡ Status.ReadFault) ⊎ (status ≡ Status.TooLong)) }
    ensures piece { (bytes : List ℕ) → S.left src.old ≡ Some bytes → TakesPiece taken result bytes (S.left src.new) buffer.new }
{
    let most = MOST_BYTES - taken;
    let room = most.max(1).min(buffer.len());
    let Ok(count) = src.take(&mut buffer[..room]) else {
        return Err(Status::ReadFault);
    };
    if count > most {
        return Err(Status::TooLong);
    }
    Ok(count)
}

/// What the script says next, where it has ended or more may come.
fn next_fed(alloc: Global, ended: bool, lines: &mut Lines) -> Result<Fed, OutOfMemory>
    ensures said { IfOk result (λ fed. SaysIn ended lines.old (item_of fed) lines.new) }
    ensures all { IfOk result (λ fed. item_of fed ≡ None → SaysNoMore ended lines.new) }
    ensures some { IfOk result GivesSome }
    ensures shorter { IfOk result (λ fed. IsShorter fed lines.old.rest lines.new.rest) }
{
    if ended {
        lines.end(alloc)
    } else {
        lines.next_command(alloc)
    }
}

/// The answer to what the script says next, and the step that it takes. None where it says nothing more.
fn next_answer(
    alloc: Global,
    ended: bool,
    lines: &mut Lines,
    session: &mut Session,
) -> Result<Option<Answer>, OutOfMemory>
    ensures { IfOk result (λ answer. Goes ended lines.old (state_of session.old) answer lines.new (state_of session.new)) }
{
    match next_fed(alloc, ended, lines)? {
        Fed::NotYet => Ok(None),
        Fed::BadCommand => Ok(Some(answer_refusal(alloc, session, Refusal::Command)?)),
        Fed::Command(command) => Ok(Some(answer_command(alloc, session, command)?)),
    }
}

/// Answers what the script says, one item after another, and says whether it refused one.
fn answer_all<K: Sink, L: Sink>(
    alloc: Global,
    ended: bool,
    lines: &mut Lines,
    session: &mut Session,
    out: &mut K,
    log: &mut L,
) -> Result<bool, Status>
    ensures served { IfOk result (λ refused. (taken : List ℕ) (before : Sinks) (some : Bool) → HasServed ended taken before (sinks (K.held out.old) (K.pieces out.old) (L.held log.old) (L.pieces log.old)) lines.old (state_of session.old) some → HasServed ended taken before (sinks (K.held out.new) (K.pieces out.new) (L.held log.new) (L.pieces log.new)) lines.new (state_of session.new) (some || refused)) }
    ensures all { OnOk result (SaysNoMore ended lines.new) }
    ensures stopped { IfErr result (λ status. (taken : List ℕ) (before : Sinks) (some : Bool) → HasServed ended taken before (sinks (K.held out.old) (K.pieces out.old) (L.held log.old) (L.pieces log.old)) lines.old (state_of session.old) some → HasStopped ended taken status before (sinks (K.held out.new) (K.pieces out.new) (L.held log.new) (L.pieces log.new))) }
    ensures ends { IfErr result IsOfPutting }
    ensures out_fault { result ≡ Err Status.WriteFault → Rose (K.faults out.old) (K.faults out.new) }
    ensures out_quiet { result ≢ Err Status.WriteFault → K.faults out.new ≡ K.faults out.old }
    ensures log_fault { result ≡ Err Status.LogFault → Rose (L.faults log.old) (L.faults log.new) }
    ensures log_quiet { result ≢ Err Status.LogFault → L.faults log.new ≡ L.faults log.old }
{
    let mut refused = false;
    loop {
        let answer = match next_answer(alloc, ended, lines, session) {
            Ok(Some(answer)) => answer,
            Ok(None) => return Ok(refused),
            Err(OutOfMemory) => return Err(Status::NoMemory),
        };
        match put_answer(&answer, out, log) {
            Ok(()) => refused |= answer.refused,
            Err(status) => return Err(status),
        }
    }
}

/// Answers the last line, where it lacks its line end, and a text that the end cuts off.
fn finish<K: Sink, L: Sink>(
    alloc: Global,
    lines: &mut Lines,
    session: &mut Session,
    refused: bool,
    out: &mut K,
    log: &mut L,
) -> Status
    ensures finished { (script : List ℕ) (before : Sinks) → HasServed false script before (sinks (K.held out.old) (K.pieces out.old) (L.held log.old) (L.pieces log.old)) lines.old (state_of session.old) refused → Finishes result script before (sinks (K.held out.new) (K.pieces out.new) (L.held log.new) (L.pieces log.new)) }
    ensures out_fault { result ≡ Status.WriteFault → Rose (K.faults out.old) (K.faults out.new) }
    ensures out_quiet { result ≢ Status.WriteFault → K.faults out.new ≡ K.faults out.old }
    ensures log_fault { result ≡ Status.LogFault → Rose (L.faults log.old) (L.faults log.new) }
    ensures log_quiet { result ≢ Status.LogFault → L.faults log.new ≡ L.faults log.old }
    ensures ends { IsAfterReading result }
{
    let refused = match answer_all(alloc, true, lines, session, out, log) {
        Ok(refusal) => refused | refusal,
        Err(status) => return status,
    };
    if lines.unfinished() {
        return put_unfinished(alloc, session, out, log);
    }
    if refused {
        Status::SomeRefused
    } else {
        Status::Done
    }
}

/// Refuses a text that the end cuts off.
fn put_unfinished<K: Sink, L: Sink>(
    alloc: Global,
    session: &mut Session,
    out: &mut K,
    log: &mut L,
) -> Status
    ensures finished { (script : List ℕ) (before : Sinks) (lines : Lines) (some : Bool) → lines.rest ≡ [] → IsSome lines.text → HasServed true script before (sinks (K.held out.old) (K.pieces out.old) (L.held log.old) (L.pieces log.old)) lines (state_of session.old) some → Finishes result script before (sinks (K.held out.new) (K.pieces out.new) (L.held log.new) (L.pieces log.new)) }
    ensures out_fault { result ≡ Status.WriteFault → Rose (K.faults out.old) (K.faults out.new) }
    ensures out_quiet { result ≢ Status.WriteFault → K.faults out.new ≡ K.faults out.old }
    ensures log_fault { result ≡ Status.LogFault → Rose (L.faults log.old) (L.faults log.new) }
    ensures log_quiet { result ≢ Status.LogFault → L.faults log.new ≡ L.faults log.old }
    ensures ends { IsAfterReading result }
{
    let Ok(answer) = answer_refusal(alloc, session, Refusal::Unfinished) else {
        return Status::NoMemory;
    };
    match put_answer(&answer, out, log) {
        Ok(()) => Status::SomeRefused,
        Err(status) => status,
    }
}

/// Serves a script. It takes a piece, and puts the lines of the log and the reply of each whole command before it takes
/// the next. The first fault ends it.
pub fn serve<S: Source, K: Sink, L: Sink>(
    alloc: Global,
    src: &mut S,
    out: &mut K,
    log: &mut L,
) -> Status
    // What was taken, replied and logged.
    ensures served { (script : List ℕ) → S.left src.old ≡ Some script → Serves result script (S.left src.new) (sinks (K.held out.old) (K.pieces out.old) (L.held log.old) (L.pieces log.old)) (sinks (K.held out.new) (K.pieces out.new) (L.held log.new) (L.pieces log.new)) }
    ensures no_usage { result ≢ Status.Usage }

    // Each fault ends the call, and its status names where it was.
    ensures read_fault { result ≡ Status.ReadFault → Rose (S.faults src.old) (S.faults src.new) }
    ensures read_quiet { result ≢ Status.ReadFault → S.faults src.new ≡ S.faults src.old }
    ensures out_fault { result ≡ Status.WriteFault → Rose (K.faults out.old) (K.faults out.new) }
    ensures out_quiet { result ≢ Status.WriteFault → K.faults out.new ≡ K.faults out.old }
    ensures log_fault { result ≡ Status.LogFault → Rose (L.faults log.old) (L.faults log.new) }
    ensures log_quiet { result ≢ Status.LogFault → L.faults log.new ≡ L.faults log.old }
{
    let mut lines = Lines::new(alloc);
    let mut session = Session::new(alloc);
    serve_pieces(alloc, src, &mut lines, &mut session, out, log)
}

/// Serves a script piece by piece, by a session before its first command.
fn serve_pieces<S: Source, K: Sink, L: Sink>(
    alloc: Global,
    src: &mut S,
    lines: &mut Lines,
    session: &mut Session,
    out: &mut K,
    log: &mut L,
) -> Status
    requires first { lines.old ≡ record { text = None; rest = [] } }
    requires begins { state_of session.old ≡ start }
    ensures served { (script : List ℕ) → S.left src.old ≡ Some script → Serves result script (S.left src.new) (sinks (K.held out.old) (K.pieces out.old) (L.held log.old) (L.pieces log.old)) (sinks (K.held out.new) (K.pieces out.new) (L.held log.new) (L.pieces log.new)) }
    ensures no_usage { result ≢ Status.Usage }
    ensures read_fault { result ≡ Status.ReadFault → Rose (S.faults src.old) (S.faults src.new) }
    ensures read_quiet { result ≢ Status.ReadFault → S.faults src.new ≡ S.faults src.old }
    ensures out_fault { result ≡ Status.WriteFault → Rose (K.faults out.old) (K.faults out.new) }
    ensures out_quiet { result ≢ Status.WriteFault → K.faults out.new ≡ K.faults out.old }
    ensures log_fault { result ≡ Status.LogFault → Rose (L.faults log.old) (L.faults log.new) }
    ensures log_quiet { result ≢ Status.LogFault → L.faults log.new ≡ L.faults log.old }
{
    let Ok(mut buffer) = zeros(alloc, CHUNK) else {
        return Status::NoMemory;
    };
    let mut refused = false;
    let mut taken = 0;
    loop {
        let count = match take_piece(src, buffer.as_mut_slice(), taken) {
            Ok(0) => return finish(alloc, lines, session, refused, out, log),
            Ok(count) => count,
            Err(status) => return status,
        };
        if lines.feed(&buffer[..count]).is_err() {
            return Status::NoMemory;
        }
        taken += count;
        match answer_all(alloc, false, lines, session, out, log) {
            Ok(refusal) => refused |= refusal,
            Err(status) => return status,
        }
    }
}

/// A buffer of so many bytes.
fn zeros(alloc: Global, len: usize) -> Result<Vec<u8>, AllocError>
    ensures { IfOk result (λ zeros. vec_len zeros ≡ len) }
{
    vec![in alloc; 0; len]
}
