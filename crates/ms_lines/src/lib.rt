// Commands of a script that comes in pieces, cut anywhere.
#![tactic(auto)]

ghost use Rattle.std.specs.Prelude.{◌≡◌, ◌↔◌, ◌<◌, ◌++◌, [], None, length, take, IfOk, OnOk, OnErr, IsTrue, IsSome, MatchOption};
ghost use Rattle.ms_call.specs.Items.{Says};
ghost use Rattle.ms_lines.specs.Finding.{IsOnly};
ghost use Rattle.ms_lines.specs.Buffers.{IsLineLen, HasNoLine, BeginsNotBlank, IsEndOf, LacksLine};
ghost use Rattle.ms_lines.specs.Feeding.{item_of, SaysThen, SaysAtEnd, IsShorter, LosesLine, GivesSome};

mod arguments;
mod buffer;
mod calls;
mod commands;
mod kinds;
mod literals;
mod pieces;
mod signs;
mod solve;
mod texts;
mod values;
mod words;

use buffer::Buffer;
use kinds::{LineKind, line_kind};
pub use ms_base::memory::OutOfMemory;
use ms_base::seq::Bytes;
pub use ms_call::command::{Assumption, Assumptions, Call, Calls, Command, Truth};
pub use pieces::{Script, read_pieces};
use std::alloc::Global;
use texts::{Text, ends_text};

/// What a script says next.
#[derive(Debug, Drop)]
pub enum Fed {
    Command(Command),
    /// A line that is no command.
    BadCommand,
    /// Nothing, until more of the script comes.
    NotYet,
}

/// A script of which some came and isn't given yet. Each call says what comes first of what is left, whatever
/// may come after it. So it doesn't matter how the script is cut into pieces: `read_pieces` says so of a whole
/// script.
#[derive(Drop)]
pub struct Lines {
    /// The lines of an `@add` without its `@end`.
    text: Option<Text>,
    /// What isn't read yet.
    rest: Buffer,
}

impl Lines {
    /// A script of which nothing came.
    pub fn new(alloc: Global) -> Lines
        ensures { result ≡ record { text = None; rest = [] } }
    {
        Lines {
            text: None,
            rest: Buffer::new(alloc),
        }
    }

    /// A script that came as one piece. It is taken over, which takes no memory.
    pub fn over(script: Bytes) -> Lines
        ensures { result ≡ record { text = None; rest = script } }
    {
        Lines {
            text: None,
            rest: Buffer::over(script),
        }
    }

    /// The next piece of the script comes.
    pub fn feed(&mut self, piece: &[u8]) -> Result<(), OutOfMemory>
        ensures ok { OnOk result (self.new ≡ record self.old { rest = self.old.rest ++ piece.now }) }
        ensures err { OnErr result (self.new ≡ self.old) }
    {
        self.rest.push(piece)
    }

    /// The next command or bad line among the whole lines. Where there is none, nothing is kept of the script but the
    /// lines of an open text and the front of one line, outside of a text without the blanks before it.
    pub fn next_command(&mut self, alloc: Global) -> Result<Fed, OutOfMemory>
        ensures said { IfOk result (λ fed. SaysThen self.old (item_of fed) self.new) }
        ensures whole { IfOk result (λ fed. item_of fed ≡ None → HasNoLine self.new.rest) }
        ensures passed { IfOk result (λ fed. item_of fed ≡ None → self.new.text ≡ None → BeginsNotBlank self.new.rest) }
        ensures some { IfOk result GivesSome }
        ensures kept { IsEndOf self.old.rest self.new.rest }
        ensures shorter { IfOk result (λ fed. LosesLine fed self.old.rest self.new.rest) }
        ensures err { OnErr result (SaysThen self.old None self.new) }
    {
        while let Some(len) = self.next_line() {
            match self.take_line(alloc, len)? {
                Fed::NotYet => {}
                fed => return Ok(fed),
            }
        }
        Ok(Fed::NotYet)
    }

    /// How many bytes the next line has before its line end, where one has it.
    fn next_line(&mut self) -> Option<usize>
        ensures said { SaysThen self.old None self.new }
        ensures found { MatchOption result (HasNoLine self.new.rest) (IsLineLen self.new.rest) }
        ensures passed { self.new.text ≡ None → BeginsNotBlank self.new.rest }
        ensures kept { IsEndOf self.old.rest self.new.rest }
    {
        self.pass_blanks();
        self.rest.line_len()
    }

    /// Passes over the spaces, tabs and line ends before a line outside of a text.
    fn pass_blanks(&mut self)
        ensures said { SaysThen self.old None self.new }
        ensures passed { self.new.text ≡ None → BeginsNotBlank self.new.rest }
        ensures kept { IsEndOf self.old.rest self.new.rest }
    {
        if self.text.is_none() {
            self.rest.pass_blanks();
        }
    }

    /// The next command or bad line where the script ends here: the last line may lack its line end.
    pub fn end(&mut self, alloc: Global) -> Result<Fed, OutOfMemory>
        ensures said { IfOk result (λ fed. SaysAtEnd self.old (item_of fed) self.new) }
        ensures all { IfOk result (λ fed. item_of fed ≡ None → self.new.rest ≡ []) }
        ensures some { IfOk result GivesSome }
        ensures shorter { IfOk result (λ fed. IsShorter fed self.old.rest self.new.rest) }
        ensures err { OnErr result (SaysAtEnd self.old None self.new) }
    {
        match self.next_command(alloc)? {
            Fed::NotYet => self.last_line(alloc),
            fed => Ok(fed),
        }
    }

    /// Reads the last line, which lacks its line end.
    fn last_line(&mut self, alloc: Global) -> Result<Fed, OutOfMemory>
        requires { HasNoLine self.old.rest }
        ensures said { IfOk result (λ fed. SaysAtEnd self.old (item_of fed) self.new) }
        ensures all { IfOk result (λ fed. item_of fed ≡ None → self.new.rest ≡ []) }
        ensures some { IfOk result GivesSome }
        ensures shorter { IfOk result (λ fed. IsShorter fed self.old.rest self.new.rest) }
        ensures err { OnErr result (SaysAtEnd self.old None self.new) }
    {
        if self.rest.is_empty() {
            return Ok(Fed::NotYet);
        }
        self.rest.push(b"\n")?;
        self.next_command(alloc)
    }

    /// Whether an `@add` stands without its `@end` in what was read.
    pub fn unfinished(&self) -> bool
        ensures { IsTrue result ↔ IsSome self.now.text }
    {
        self.text.is_some()
    }

    /// Reads the first line, which has so many bytes before its line end.
    fn take_line(&mut self, alloc: Global, len: usize) -> Result<Fed, OutOfMemory>
        requires { IsLineLen self.old.rest len }
        ensures said { IfOk result (λ fed. SaysThen self.old (item_of fed) self.new) }
        ensures some { IfOk result GivesSome }
        ensures shorter { OnOk result (LacksLine self.old.rest self.new.rest) }
        ensures kept { IsEndOf self.old.rest self.new.rest }
        ensures err { OnErr result (self.new ≡ self.old) }
    {
        let fed = read_line(alloc, &mut self.text, self.rest.bytes(), len)?;
        self.rest.advance(len + 1);
        Ok(fed)
    }
}

/// What a line of so many bytes says, which stands in front with its line end.
fn read_line(
    alloc: Global,
    text: &mut Option<Text>,
    bytes: &[u8],
    len: usize,
) -> Result<Fed, OutOfMemory>
    requires { IsLineLen bytes.now len }
    ensures said { IfOk result (λ fed. IsOnly (Says text.old (take len bytes.now)) (item_of fed, text.new)) }
    ensures err { OnErr result (text.new ≡ text.old) }
{
    match text.take() {
        None => read_outside(alloc, text, &bytes[..len]),
        Some(lines) => read_inside(text, lines, bytes, len),
    }
}

/// What a line says where no text is open.
fn read_outside(alloc: Global, text: &mut Option<Text>, line: &[u8]) -> Result<Fed, OutOfMemory>
    requires { text.old ≡ None }
    ensures said { IfOk result (λ fed. IsOnly (Says None line.now) (item_of fed, text.new)) }
    ensures err { OnErr result (text.new ≡ None) }
{
    match line_kind(alloc, line)? {
        LineKind::Passed => Ok(Fed::NotYet),
        LineKind::OpensText => {
            *text = Some(Text::new(alloc));
            Ok(Fed::NotYet)
        }
        LineKind::Command(command) => Ok(Fed::Command(command)),
        LineKind::Bad => Ok(Fed::BadCommand),
    }
}

/// What a line of so many bytes says, which stands in front with its line end, inside a text.
fn read_inside(
    text: &mut Option<Text>,
    mut lines: Text,
    bytes: &[u8],
    len: usize,
) -> Result<Fed, OutOfMemory>
    requires none { text.old ≡ None }
    requires line { IsLineLen bytes.now len }
    ensures said { IfOk result (λ fed. IsOnly (Says (Some lines) (take len bytes.now)) (item_of fed, text.new)) }
    ensures err { OnErr result (text.new ≡ Some lines) }
{
    if ends_text(&bytes[..len]) {
        return Ok(Fed::Command(Command::Add {
            text: lines.into_bytes(),
        }));
    }
    let added = lines.add(&bytes[..len + 1]);
    *text = Some(lines);
    added?;
    Ok(Fed::NotYet)
}
