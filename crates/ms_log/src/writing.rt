// Notes as lines of text.
ghost use Rattle.std.specs.Prelude.{◌≡◌, ◌++◌, ◌∷◌, codes, OnOk, OnErr};
ghost use Rattle.ms_log.specs.NoteText.{note_text, words_text, number_text, literal_text, items_text};

use ms_base::memory::OutOfMemory;
use ms_lits::{Lit, Note};

/// Appends the line of a note, with its line end. Where there is no memory for it nothing was appended.
pub fn write(note: &Note, into: &mut Vec<u8>) -> Result<(), OutOfMemory>
    ensures ok { OnOk result (into.new.items ≡ into.old.items ++ note_text note.now) }
    ensures err { OnErr result (into.new.items ≡ into.old.items) }
{
    let mut line = Vec::new(*into.allocator());
    write_words(note, &mut line)?;
    line.push(b'\n')?;
    into.extend_from_slice(line.as_slice())?;
    Ok(())
}

/// Appends the line of a note without its line end.
fn write_words(note: &Note, into: &mut Vec<u8>) -> Result<(), OutOfMemory>
    ensures { OnOk result (into.new.items ≡ into.old.items ++ words_text note.now) }
{
    match note {
        Note::Atom(text) => write_named(b"v a ", text.as_slice(), into),
        Note::Body(lits) => write_literals(b"v b", lits.as_slice(), into),
        Note::Tuple(text, conditions) => {
            write_named(b"v t ", text.as_slice(), into)?;
            write_numbers(b" :", conditions.as_slice(), into)
        }
        Note::Aggregate(text, tuples) => {
            write_named(b"v g ", text.as_slice(), into)?;
            write_numbers(b" :", tuples.as_slice(), into)
        }
        Note::Start(outside, lits) => {
            let words: &[u8] = if *outside { b"s 0" } else { b"s" };
            write_literals(words, lits.as_slice(), into)
        }
        Note::Theory(lits) => write_literals(b"x", lits.as_slice(), into),
        Note::Kept(lits) => write_literals(b"k", lits.as_slice(), into),
        Note::Temporary(lits) => write_literals(b"t", lits.as_slice(), into),
        Note::Answer(atoms) => write_numbers(b"m", atoms.as_slice(), into),
        Note::Finish(text) => write_named(b"e ", text.as_slice(), into),
    }
}

/// Appends words, and a text as it is.
fn write_named(words: &[u8], text: &[u8], into: &mut Vec<u8>) -> Result<(), OutOfMemory>
    ensures { OnOk result (into.new.items ≡ into.old.items ++ (words.now ++ text.now)) }
{
    into.extend_from_slice(words)?;
    into.extend_from_slice(text)?;
    Ok(())
}

/// Appends words, and the numbers behind a space each.
fn write_numbers(words: &[u8], numbers: &[u32], into: &mut Vec<u8>) -> Result<(), OutOfMemory>
    ensures { OnOk result (into.new.items ≡ into.old.items ++ (words.now ++ items_text number_text numbers.now)) }
{
    into.extend_from_slice(words)?;
    for number in numbers {
        into.push(b' ')?;
        write_number(*number, into)?;
    }
    Ok(())
}

/// Appends words, and the literals behind a space each.
fn write_literals(words: &[u8], lits: &[Lit], into: &mut Vec<u8>) -> Result<(), OutOfMemory>
    ensures { OnOk result (into.new.items ≡ into.old.items ++ (words.now ++ items_text literal_text lits.now)) }
{
    into.extend_from_slice(words)?;
    for lit in lits {
        into.push(b' ')?;
        write_literal(*lit, into)?;
    }
    Ok(())
}

fn write_literal(lit: Lit, into: &mut Vec<u8>) -> Result<(), OutOfMemory>
    ensures { OnOk result (into.new.items ≡ into.old.items ++ literal_text lit) }
{
    if !lit.truth {
        into.push(b'-')?;
    }
    write_number(lit.var, into)
}

/// Appends the number of a thing, counted from 1.
fn write_number(number: u32, into: &mut Vec<u8>) -> Result<(), OutOfMemory>
    ensures { OnOk result (into.new.items ≡ into.old.items ++ number_text number) }
{
    let mut buffer = itoa::Buffer::new();
    into.extend_from_slice(buffer.format(u64::from(number) + 1).as_bytes())?;
    Ok(())
}
