// The texts of replies.
ghost use Rattle.std.specs.Prelude.{◌≡◌, ◌++◌, ◌∷◌, ◌<◌, All, codes, IfOk, OnOk, OnErr, length};
ghost use Rattle.std.specs.Fmt.{decimal};
ghost use Rattle.ms_machine.specs.Replies.{ending_text, line, refusal_line, reply_text, said_by};
ghost use Rattle.ms_machine.specs.declared.reply.Reply.TheVariants.{Solved};
ghost use Rattle.ms_machine.specs.Replies.{grounded};
ghost use Rattle.ms_session.specs.Kept.{IsNamed};

use ms_base::memory::OutOfMemory;
use ms_lits::Ending;
use ms_machine::reply::{Refusal, Reply, Shown};
use ms_term::Terms;
use std::alloc::Global;

/// Appends the text of a reply whose names are in the table. Where there is no memory for it nothing was appended.
pub(crate) fn print(terms: &Terms, reply: &Reply, into: &mut Vec<u8>) -> Result<(), OutOfMemory>
    requires { IsNamed (length terms.now) reply.now }
    ensures ok { OnOk result (into.new.items ≡ into.old.items ++ reply_text (said_by terms.now reply.now)) }
    ensures err { OnErr result (into.new.items ≡ into.old.items) }
{
    match reply {
        Reply::Added { count } => print_counted("added ", *count, into),
        Reply::Grounded { atoms, rules } => print_grounded(*atoms, *rules, into),
        Reply::Assigned => put(b"assigned\n", into),
        Reply::Released => put(b"released\n", into),
        Reply::NoEffect => put(b"no effect\n", into),
        Reply::Solved {
            ending,
            count,
            limit,
            shown,
        } => print_solved(terms, *ending, *count, *limit, shown, into),
        Reply::Refused(refusal) => print_refusal(refusal, into),
    }
}

/// Appends the bytes of a text.
fn put(text: &[u8], into: &mut Vec<u8>) -> Result<(), OutOfMemory>
    ensures ok { OnOk result (into.new.items ≡ into.old.items ++ text.now) }
    ensures err { OnErr result (into.new.items ≡ into.old.items) }
{
    into.extend_from_slice(text)?;
    Ok(())
}

/// Appends a line that ends in a number.
fn print_counted(words: &str, number: u64, into: &mut Vec<u8>) -> Result<(), OutOfMemory>
    ensures ok { OnOk result (into.new.items ≡ into.old.items ++ line (words.now ++ decimal number)) }
    ensures err { OnErr result (into.new.items ≡ into.old.items) }
{
    let text = format!(in *into.allocator(); "{words}{number}\n")?;
    put(text.as_bytes(), into)
}

fn print_grounded(atoms: u64, rules: u64, into: &mut Vec<u8>) -> Result<(), OutOfMemory>
    ensures ok { OnOk result (into.new.items ≡ into.old.items ++ reply_text (grounded atoms rules)) }
    ensures err { OnErr result (into.new.items ≡ into.old.items) }
{
    let text = format!(in *into.allocator(); "grounded atoms={atoms} rules={rules}\n")?;
    put(text.as_bytes(), into)
}

fn print_refusal(refusal: &Refusal, into: &mut Vec<u8>) -> Result<(), OutOfMemory>
    ensures ok { OnOk result (into.new.items ≡ into.old.items ++ refusal_line refusal.now) }
    ensures err { OnErr result (into.new.items ≡ into.old.items) }
{
    match refusal {
        Refusal::Command => put(b"refused command\n", into),
        Refusal::Unfinished => put(b"refused unfinished\n", into),
        Refusal::Syntax { line } => print_counted("refused syntax ", *line, into),
        Refusal::Const { line } => print_counted("refused const ", *line, into),
        Refusal::Later => put(b"refused later\n", into),
        Refusal::TooLarge => put(b"refused too-large\n", into),
        Refusal::TooMany => put(b"refused too-many\n", into),
        Refusal::Redefined { atom } => print_named(b"refused redefined ", atom.as_slice(), into),
        Refusal::RecursiveAggregate { atom } => {
            print_named(b"refused aggregate ", atom.as_slice(), into)
        }
        Refusal::CrossLoop { new_head, old } => {
            print_loop(new_head.as_slice(), old.as_slice(), into)
        }
    }
}

/// Appends a line that ends in an atom.
fn print_named(words: &[u8], atom: &[u8], into: &mut Vec<u8>) -> Result<(), OutOfMemory>
    ensures ok { OnOk result (into.new.items ≡ into.old.items ++ line (words.now ++ atom.now)) }
    ensures err { OnErr result (into.new.items ≡ into.old.items) }
{
    let mut text = words.to_vec(*into.allocator())?;
    text.extend_from_slice(atom)?;
    text.push(b'\n')?;
    put(text.as_slice(), into)
}

fn print_loop(new_head: &[u8], old: &[u8], into: &mut Vec<u8>) -> Result<(), OutOfMemory>
    ensures ok { OnOk result
        (into.new.items ≡ into.old.items ++ line (codes "refused loop " ++ new_head.now ++ 32 ∷ old.now)) }
    ensures err { OnErr result (into.new.items ≡ into.old.items) }
{
    let mut text = b"refused loop ".to_vec(*into.allocator())?;
    text.extend_from_slice(new_head)?;
    text.push(b' ')?;
    text.extend_from_slice(old)?;
    text.push(b'\n')?;
    put(text.as_slice(), into)
}

/// How a solve ended, by the number of its answers.
pub(crate) fn ending_text(
    alloc: Global,
    ending: Ending,
    count: u64,
    limit: u64,
) -> Result<Vec<u8>, OutOfMemory>
    ensures { IfOk result (λ text. text.items ≡ ending_text ending count limit) }
{
    let text = match ending {
        Ending::Complete => format!(in alloc; "complete {count}")?,
        Ending::StillOpen => format!(in alloc; "open {count}")?,
        Ending::Cut => format!(in alloc; "cut {count} limit={limit}")?,
    };
    Ok(text.into_bytes())
}

/// Appends a line for each answer set, and the ending.
fn print_solved(
    terms: &Terms,
    ending: Ending,
    count: u64,
    limit: u64,
    shown: &Shown,
    into: &mut Vec<u8>,
) -> Result<(), OutOfMemory>
    requires { All (All (λ t. t < length terms.now)) shown.now }
    ensures ok { OnOk result (into.new.items
        ≡ into.old.items ++ reply_text (said_by terms.now (Solved ending count limit shown.now))) }
    ensures err { OnErr result (into.new.items ≡ into.old.items) }
{
    let mut text = Vec::new(*into.allocator());
    ms_show::print(terms, shown, &mut text)?;
    let last = ending_text(*into.allocator(), ending, count, limit)?;
    text.extend_from_slice(last.as_slice())?;
    text.push(b'\n')?;
    put(text.as_slice(), into)
}
