// Reads the words of a value one by one.
ghost use Rattle.std.specs.Prelude.{◌≡◌, IfOk};
ghost use Rattle.ms_read_value.specs.declared.reader.Place.{Place};
ghost use Rattle.ms_read_value.specs.declared.reader.Progress.{Progress};
ghost use Rattle.ms_read_value.specs.Machine.{behind, behind_some, leave, leave_by_comma, begin, step_at, within};

use crate::groups::{Group, Groups, constant};
use crate::lexemes::Lexeme;
use crate::numbers::{negated, plain};
use ms_base::memory::OutOfMemory;
use ms_base::seq::Bytes;
use ms_grammar::part::ValuePart;
use ms_grammar::value::Value;
use std::alloc::Global;

/// Where a reader stands.
#[derive(Drop)]
pub(crate) enum Place {
    /// Behind an opening bracket.
    First,
    /// Behind a comma.
    Comma,
    /// Behind a `-`.
    Minus,
    /// Behind a name, which may have arguments.
    Name(Bytes),
    /// Behind a value, which the innermost bracket has.
    Value,
}

/// The brackets that are open, and where the reader stands in the innermost one.
#[derive(Drop)]
pub(crate) struct Reader {
    pub groups: Groups,
    pub place: Place,
}

/// What a word makes of a reader.
#[derive(Drop)]
pub(crate) enum Progress {
    /// The value isn't whole.
    Within(Reader),
    /// A value ends here.
    Done(ValuePart),
    /// No value begins like this.
    Failed,
}

impl Reader {
    /// Reads one word.
    pub fn step(self, alloc: Global, lexeme: Lexeme) -> Result<Progress, OutOfMemory>
        ensures { IfOk result (λ progress. progress ≡ step_at self.place self.groups lexeme) }
    {
        let Reader { groups, place } = self;
        match place {
            Place::First => after_opening(alloc, groups, lexeme),
            Place::Comma => after_comma(alloc, groups, lexeme),
            Place::Minus => after_minus(groups, lexeme),
            Place::Name(name) => after_name(alloc, groups, name, lexeme),
            Place::Value => after_value(alloc, groups, lexeme),
        }
    }
}

fn within(groups: Groups, place: Place) -> Result<Progress, OutOfMemory>
    ensures { IfOk result (λ progress. progress ≡ within groups place) }
{
    Ok(Progress::Within(Reader { groups, place }))
}

fn refuse(_groups: Groups, _lexeme: Lexeme) -> Result<Progress, OutOfMemory>
    ensures { IfOk result (λ progress. progress ≡ Progress.Failed) }
{
    Ok(Progress::Failed)
}

/// Behind a value: the innermost bracket has it, and where no bracket is open, it is all.
fn behind(mut groups: Groups, part: ValuePart) -> Result<Progress, OutOfMemory>
    ensures { IfOk result (λ progress. progress ≡ behind groups part) }
{
    match groups.pop() {
        Some(group) => within(groups.with(group.with_part(part)?)?, Place::Value),
        None => Ok(Progress::Done(part)),
    }
}

fn behind_some(groups: Groups, part: Option<ValuePart>) -> Result<Progress, OutOfMemory>
    ensures { IfOk result (λ progress. progress ≡ behind_some part groups) }
{
    match part {
        Some(part) => behind(groups, part),
        None => Ok(Progress::Failed),
    }
}

/// A value begins.
pub(crate) fn begin(alloc: Global, groups: Groups, lexeme: Lexeme) -> Result<Progress, OutOfMemory>
    ensures { IfOk result (λ progress. progress ≡ begin groups lexeme) }
{
    match lexeme {
        Lexeme::Name(name) => within(groups, Place::Name(name)),
        Lexeme::Number(number) => behind_some(groups, plain(number)),
        Lexeme::Text(bytes) => behind(
            groups,
            ValuePart {
                value: Value::Text(bytes),
                height: 1,
            },
        ),
        Lexeme::Minus => within(groups, Place::Minus),
        Lexeme::Open => within(groups.with(Group::new(alloc, None))?, Place::First),
        lexeme => refuse(groups, lexeme),
    }
}

/// Closes the innermost bracket.
fn leave(alloc: Global, mut groups: Groups) -> Result<Progress, OutOfMemory>
    ensures { IfOk result (λ progress. progress ≡ leave groups) }
{
    match groups.pop() {
        Some(group) => behind_some(groups, group.close(alloc)),
        None => Ok(Progress::Failed),
    }
}

/// Closes the innermost bracket behind a comma.
fn leave_by_comma(alloc: Global, mut groups: Groups) -> Result<Progress, OutOfMemory>
    ensures { IfOk result (λ progress. progress ≡ leave_by_comma groups) }
{
    match groups.pop() {
        Some(group) => behind_some(groups, group.close_by_comma(alloc)),
        None => Ok(Progress::Failed),
    }
}

fn after_opening(alloc: Global, groups: Groups, lexeme: Lexeme) -> Result<Progress, OutOfMemory>
    ensures { IfOk result (λ progress. progress ≡ step_at Place.First groups lexeme) }
{
    match lexeme {
        Lexeme::Close => leave(alloc, groups),
        lexeme => begin(alloc, groups, lexeme),
    }
}

fn after_comma(alloc: Global, groups: Groups, lexeme: Lexeme) -> Result<Progress, OutOfMemory>
    ensures { IfOk result (λ progress. progress ≡ step_at Place.Comma groups lexeme) }
{
    match lexeme {
        Lexeme::Close => leave_by_comma(alloc, groups),
        lexeme => begin(alloc, groups, lexeme),
    }
}

fn after_minus(groups: Groups, lexeme: Lexeme) -> Result<Progress, OutOfMemory>
    ensures { IfOk result (λ progress. progress ≡ step_at Place.Minus groups lexeme) }
{
    match lexeme {
        Lexeme::Number(number) => behind_some(groups, negated(number)),
        lexeme => refuse(groups, lexeme),
    }
}

fn after_name(
    alloc: Global,
    groups: Groups,
    name: Bytes,
    lexeme: Lexeme,
) -> Result<Progress, OutOfMemory>
    ensures { IfOk result (λ progress. progress ≡ step_at (Place.Name name) groups lexeme) }
{
    match lexeme {
        Lexeme::Open => within(groups.with(Group::new(alloc, Some(name)))?, Place::First),
        lexeme => match behind(groups, constant(alloc, name))? {
            Progress::Within(reader) => after_value(alloc, reader.groups, lexeme),
            _ => Ok(Progress::Failed),
        },
    }
}

fn after_value(alloc: Global, groups: Groups, lexeme: Lexeme) -> Result<Progress, OutOfMemory>
    ensures { IfOk result (λ progress. progress ≡ step_at Place.Value groups lexeme) }
{
    match lexeme {
        Lexeme::Comma => within(groups, Place::Comma),
        Lexeme::Close => leave(alloc, groups),
        lexeme => refuse(groups, lexeme),
    }
}
