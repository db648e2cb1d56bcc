// Adding a text.
ghost use Rattle.std.specs.Prelude.{IfOk};
ghost use Rattle.ms_call.specs.declared.command.Command.TheVariants.{Add};
ghost use Rattle.ms_session.specs.Steps.{StepsTexts};

use crate::text::{TextFault, read};
use ms_base::memory::OutOfMemory;
use ms_machine::reply::{Refusal, Reply};
use ms_parts::Parts;
use ms_texts::TextFault as PartsFault;
use std::alloc::Global;

/// Adds a text to the accepted ones, or refuses it.
pub(crate) fn add_text(alloc: Global, parts: &mut Parts, text: &[u8]) -> Result<Reply, OutOfMemory>
    ensures { IfOk result (StepsTexts parts.old (Add text.now) parts.new) }
{
    let statements = match read(alloc, text) {
        Ok(statements) => statements,
        Err(TextFault::Syntax { line }) => {
            return Ok(Reply::Refused(Refusal::Syntax { line }));
        }
        Err(TextFault::OutOfMemory) => return Err(OutOfMemory),
    };
    match parts.add(statements) {
        Ok(count) => Ok(Reply::Added { count }),
        Err(PartsFault::ConstTwice { line }) => Ok(Reply::Refused(Refusal::Const { line })),
        Err(PartsFault::OutOfMemory) => Err(OutOfMemory),
    }
}
