// The texts of the answer to one command.
ghost use Rattle.std.specs.Prelude.{◌≡◌, [], length, IfOk, OnOk, List};
ghost use Rattle.ms_call.specs.Commands.{AsksForSome};
ghost use Rattle.ms_log.specs.NoteText.{notes_text};
ghost use Rattle.ms_machine.specs.Machine.{Step};
ghost use Rattle.ms_machine.specs.Replies.{Output, is_refused, refused, reply_text, said_by};
ghost use Rattle.ms_session.specs.Kept.{IsNamed, state_of};
ghost use Rattle.ms_tree.specs.Tree.{Tree};
ghost use Rattle.mshot.specs.Serving.{IsTextOf};

use ms_base::memory::OutOfMemory;
use ms_call::command::Command;
use ms_lits::Note;
use ms_log::write;
use ms_machine::reply::{Refusal, Reply};
use ms_session::Session;
use std::alloc::Global;

/// What is put for one command: its reply, and its lines of the log one after another.
#[derive(Drop)]
pub struct Answer {
    pub reply: Vec<u8>,
    pub log: Vec<u8>,
    /// Whether the reply is a refusal.
    pub refused: bool,
}

/// Takes the step of a command.
pub fn answer_command(
    alloc: Global,
    session: &mut Session,
    command: Command,
) -> Result<Answer, OutOfMemory>
    requires { AsksForSome command }
    ensures { IfOk result (λ answer. (output : Output) × Step (state_of session.old) command output (state_of session.new) × IsTextOf answer output) }
{
    let reply = match session.step(alloc, command) {
        Ok(reply) => reply,
        Err(OutOfMemory) => return Err(OutOfMemory),
    };
    let log = log_text(alloc, session.notes().as_slice())?;
    let text = text_of(alloc, session, &reply)?;
    Ok(Answer {
        reply: text,
        log,
        refused: is_refusal(&reply),
    })
}

/// Refuses what is no command. Nothing changes, and the log has no lines for it.
pub fn answer_refusal(
    alloc: Global,
    session: &mut Session,
    refusal: Refusal,
) -> Result<Answer, OutOfMemory>
    ensures text { IfOk result (λ answer. IsTextOf answer (record { reply = refused refusal; log = [] })) }
    ensures same { OnOk result (session.new ≡ session.old) }
{
    let reply = text_of(alloc, session, &Reply::Refused(refusal))?;
    Ok(Answer {
        reply,
        log: Vec::new(alloc),
        refused: true,
    })
}

/// The text of a reply.
fn text_of(alloc: Global, session: &mut Session, reply: &Reply) -> Result<Vec<u8>, OutOfMemory>
    requires { IsNamed (length session.old.table) reply.now }
    ensures text { IfOk result (λ text. text.items ≡ reply_text (said_by session.old.table reply.now)) }
    ensures same { OnOk result (session.new ≡ session.old) }
{
    let mut text = Vec::new(alloc);
    session.print(reply, &mut text)?;
    Ok(text)
}

/// The lines of the log, one after another.
fn log_text(alloc: Global, notes: &[Note]) -> Result<Vec<u8>, OutOfMemory>
    ensures { IfOk result (λ text. text.items ≡ notes_text notes.now) }
{
    let mut text = Vec::new(alloc);
    for note in notes {
        write(note, &mut text)?;
    }
    Ok(text)
}

fn is_refusal(reply: &Reply) -> bool
    ensures { (table : List Tree) → result ≡ is_refused (said_by table reply.now) }
{
    matches!(reply, Reply::Refused(_))
}
