// A whole script, which comes in pieces.
ghost use Rattle.std.specs.Prelude.{ℕ, ◌≡◌, List, [], None, IfOk, OnOk};
ghost use Rattle.std.specs.List.{flat_map};
ghost use Rattle.ms_lines.specs.Whole.{items_of, SaysAll, HasTold, HasToldAtEnd};

use crate::{Fed, Lines};
use ms_base::memory::OutOfMemory;
use ms_base::seq::{Bytes, Seq};
use std::alloc::Global;

/// All that a script says, and whether an `@add` stands in it without its `@end`.
#[derive(Debug, Drop)]
pub struct Script {
    pub said: Seq<Fed>,
    pub unfinished: bool,
}

/// Reads a script that comes in these pieces. It says what the bytes say, however they are cut.
pub fn read_pieces(alloc: Global, pieces: &[Bytes]) -> Result<Script, OutOfMemory>
    ensures { IfOk result (λ script. SaysAll (flat_map (λ piece. piece) pieces.now) (items_of script.said) script.unfinished) }
{
    let mut lines = Lines::new(alloc);
    let mut said = Seq::new(alloc);
    for piece in pieces {
        lines.feed(piece.as_slice())?;
        take_whole(alloc, &mut lines, &mut said)?;
    }
    take_last(alloc, &mut lines, &mut said)?;
    Ok(Script {
        said,
        unfinished: lines.unfinished(),
    })
}

/// Takes what the whole lines say.
fn take_whole(alloc: Global, lines: &mut Lines, said: &mut Seq<Fed>) -> Result<(), OutOfMemory>
    ensures { OnOk result ((bytes : List ℕ) → HasTold bytes said.old lines.old → HasTold bytes said.new lines.new) }
{
    loop {
        match lines.next_command(alloc)? {
            Fed::NotYet => return Ok(()),
            fed => said.push(fed)?,
        }
    }
}

/// Takes what the last lines say.
fn take_last(alloc: Global, lines: &mut Lines, said: &mut Seq<Fed>) -> Result<(), OutOfMemory>
    ensures told { OnOk result ((bytes : List ℕ) → HasToldAtEnd bytes said.old lines.old → HasToldAtEnd bytes said.new lines.new) }
    ensures all { OnOk result (lines.new.rest ≡ []) }
{
    loop {
        match lines.end(alloc)? {
            Fed::NotYet => return Ok(()),
            fed => said.push(fed)?,
        }
    }
}
