// Words as they are printed.
ghost use Rattle.std.specs.Prelude.{◌≡◌, ◌++◌, [], ◌∷◌, decimal, OnOk};
ghost use Rattle.ms_tree.specs.Text.{escaped, escaped_byte};
ghost use Rattle.ms_grammar.specs.Words.{quoted};
ghost use Rattle.ms_ast.specs.Ink.{ink_text, word_text};
ghost use Rattle.ms_ast.specs.Values.{integer_ink};

use ms_base::memory::OutOfMemory;

/// Appends an integer in decimal.
pub(crate) fn print_integer(n: i64, into: &mut Vec<u8>) -> Result<(), OutOfMemory>
    ensures { OnOk result (into.new.items ≡ into.old.items ++ ink_text (integer_ink n)) }
{
    let mut buffer = itoa::Buffer::new();
    into.extend_from_slice(buffer.format(n).as_bytes())?;
    Ok(())
}

/// Appends a number in decimal.
pub(crate) fn print_number(n: u64, into: &mut Vec<u8>) -> Result<(), OutOfMemory>
    ensures { OnOk result (into.new.items ≡ into.old.items ++ decimal n) }
{
    let mut buffer = itoa::Buffer::new();
    into.extend_from_slice(buffer.format(n).as_bytes())?;
    Ok(())
}

/// Appends a string in double quotes.
pub(crate) fn print_string(bytes: &[u8], into: &mut Vec<u8>) -> Result<(), OutOfMemory>
    ensures { OnOk result (into.new.items ≡ into.old.items ++ word_text (quoted bytes.now)) }
{
    into.push(b'"')?;
    print_escaped(bytes, into)?;
    into.push(b'"')?;
    Ok(())
}

fn print_escaped(bytes: &[u8], into: &mut Vec<u8>) -> Result<(), OutOfMemory>
    ensures { OnOk result (into.new.items ≡ into.old.items ++ escaped bytes.now) }
{
    for byte in bytes {
        print_byte(*byte, into)?;
    }
    Ok(())
}

fn print_byte(byte: u8, into: &mut Vec<u8>) -> Result<(), OutOfMemory>
    ensures { OnOk result (into.new.items ≡ into.old.items ++ escaped_byte byte) }
{
    if byte == b'"' {
        into.extend_from_slice(b"\\\"")?;
    } else if byte == b'\\' {
        into.extend_from_slice(b"\\\\")?;
    } else if byte == b'\n' {
        into.extend_from_slice(b"\\n")?;
    } else {
        into.push(byte)?;
    }
    Ok(())
}
