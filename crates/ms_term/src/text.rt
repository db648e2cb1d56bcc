ghost use Rattle.std.specs.Prelude.{◌≡◌, ◌∷◌, [], ◌++◌, List, OnOk, OnErr};
ghost use Rattle.ms_term.specs.Fronts.{AppendsFront};
ghost use Rattle.ms_tree.specs.Tree.{Tree, number, text};
ghost use Rattle.ms_tree.specs.Text.{tree_text, escaped, escaped_byte, no_arguments_text, closing_text};
ghost use Rattle.ms_term.specs.Closings.{closing_bytes};
ghost use Rattle.ms_term.specs.Terms.{terms_at};

use crate::term_id::TermId;
use ms_base::memory::OutOfMemory;

// Appends an integer in decimal.
pub(crate) fn print_number(n: i64, into: &mut Vec<u8>) -> Result<(), OutOfMemory>
    ensures ok { OnOk result (into.new.items ≡ into.old.items ++ tree_text (number n)) }
    ensures err { OnErr result (AppendsFront into.old.items into.new.items (tree_text (number n))) }
{
    let mut buffer = itoa::Buffer::new();
    into.extend_from_slice(buffer.format(n).as_bytes())?;
    Ok(())
}

// Appends a string in double quotes.
pub(crate) fn print_string(bytes: &[u8], into: &mut Vec<u8>) -> Result<(), OutOfMemory>
    ensures ok { OnOk result (into.new.items ≡ into.old.items ++ tree_text (text bytes.now)) }
    ensures err { OnErr result (AppendsFront into.old.items into.new.items (tree_text (text bytes.now))) }
{
    into.push(b'"')?;
    print_escaped(bytes, into)?;
    into.push(b'"')?;
    Ok(())
}

fn print_escaped(bytes: &[u8], into: &mut Vec<u8>) -> Result<(), OutOfMemory>
    ensures ok { OnOk result (into.new.items ≡ into.old.items ++ escaped bytes.now) }
    ensures err { OnErr result (AppendsFront into.old.items into.new.items (escaped bytes.now)) }
{
    let mut rest = bytes;
    while let [byte, after @ ..] = rest {
        print_byte(*byte, into)?;
        rest = after;
    }
    Ok(())
}

fn print_byte(byte: u8, into: &mut Vec<u8>) -> Result<(), OutOfMemory>
    ensures ok { OnOk result (into.new.items ≡ into.old.items ++ escaped_byte byte) }
    ensures err { OnErr result (AppendsFront into.old.items into.new.items (escaped_byte byte)) }
{
    if byte == b'"' {
        into.extend_from_slice(b"\\\"")?;
    } else if byte == b'\\' {
        into.extend_from_slice(b"\\\\")?;
    } else if byte == b'\n' {
        into.extend_from_slice(b"\\n")?;
    } else {
        into.push(byte)?;
    }
    Ok(())
}

// What follows the name of a function without arguments.
pub(crate) fn end_without_arguments(name: &[u8]) -> &'static [u8]
    ensures { result.now ≡ no_arguments_text name.now }
{
    match name {
        [] => b"()",
        _ => b"",
    }
}

/// What ends the text of a function.
#[derive(Clone, Copy)]
pub(crate) enum Closing {
    Plain,
    /// A tuple of one has a `,` before the parenthesis.
    OfOne,
}

impl Closing {
    pub(crate) fn bytes(self) -> &'static [u8]
        ensures { result.now ≡ closing_bytes self }
    {
        match self {
            Closing::Plain => b")",
            Closing::OfOne => b",)",
        }
    }
}

// What ends the text of a function that has these arguments after its first.
pub(crate) fn closing_of(name: &[u8], after: &[TermId]) -> Closing
    ensures { (ts : List Tree) → closing_bytes result ≡ closing_text name.now (terms_at ts after.now) }
{
    match name {
        [] => closing_of_tuple(after),
        _ => Closing::Plain,
    }
}

fn closing_of_tuple(after: &[TermId]) -> Closing
    ensures { (ts : List Tree) → closing_bytes result ≡ closing_text [] (terms_at ts after.now) }
{
    match after {
        [] => Closing::OfOne,
        _ => Closing::Plain,
    }
}
