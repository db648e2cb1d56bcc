// Strings in quotes.
ghost use Rattle.std.specs.Prelude.{◌≡◌, false, IfOk};
ghost use Rattle.ms_grammar.specs.Words.{escaped, unescaped};

use ms_base::memory::OutOfMemory;
use ms_base::seq::Bytes;
use std::alloc::Global;

/// The bytes that stand for those between the quotes.
pub(crate) fn unescaped(alloc: Global, quoted: &[u8]) -> Result<Bytes, OutOfMemory>
    ensures { IfOk result (λ bytes. bytes ≡ unescaped false quoted.now) }
{
    let mut bytes = Bytes::new(alloc);
    let mut behind = false;
    for byte in quoted {
        if behind {
            bytes.push(escaped(*byte))?;
            behind = false;
        } else if *byte == b'\\' {
            behind = true;
        } else {
            bytes.push(*byte)?;
        }
    }
    Ok(bytes)
}

/// The byte that stands for a byte behind a backslash.
fn escaped(byte: u8) -> u8
    ensures { result ≡ escaped byte }
{
    if byte == b'n' { b'\n' } else { byte }
}
