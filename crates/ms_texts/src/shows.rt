// What `#show` says.
ghost use Rattle.std.specs.Prelude.{◌≡◌, [], ◌++◌, IfOk, OnOk};
ghost use Rattle.std.specs.List.{cons_option, list_any};
ghost use Rattle.ms_texts.specs.Additions.{show_of, shows_in, is_shown, shown_by};

use crate::duplicate::duplicate_bytes;
use ms_base::memory::OutOfMemory;
use ms_base::seq::Bytes;
use ms_grammar::statement::{Form, Statement};
use std::alloc::Global;

/// A name and a number of arguments, or none where `#show.` stands.
pub(crate) type Show = Option<(Bytes, u64)>;

/// What the statements of a text show, in their order.
pub(crate) fn shows_in(alloc: Global, list: &[Statement]) -> Result<Vec<Show>, OutOfMemory>
    ensures { IfOk result (λ shows. shows.items ≡ shows_in list.now) }
{
    let mut shows = Vec::new(alloc);
    for statement in list {
        take_up(alloc, &mut shows, &statement.form)?;
    }
    Ok(shows)
}

/// Adds what a statement shows.
fn take_up(alloc: Global, shows: &mut Vec<Show>, form: &Form) -> Result<(), OutOfMemory>
    ensures { OnOk result (shows.new.items ≡ shows.old.items ++ cons_option (show_of form.now) []) }
{
    match form {
        Form::Show { name, arity } => shows.push(Some((duplicate_bytes(alloc, name)?, *arity)))?,
        Form::ShowNone => shows.push(None)?,
        _ => {}
    }
    Ok(())
}

/// Atoms of this name and number of arguments are shown: all are where nothing is said of it.
pub(crate) fn shown_by(shows: &[Show], name: &[u8], arity: usize) -> bool
    ensures { result ≡ shown_by name.now arity shows.now }
{
    shows.is_empty() || any_shown(shows, name, arity)
}

/// One of these shows atoms of this name and number of arguments.
fn any_shown(shows: &[Show], name: &[u8], arity: usize) -> bool
    ensures { result ≡ list_any (is_shown name.now arity) shows.now }
{
    shows.iter().any(|show| is_shown(name, arity, show))
}

/// Atoms of this name and number of arguments are shown by a `#show`.
fn is_shown(name: &[u8], arity: usize, show: &Show) -> bool
    ensures { result ≡ is_shown name.now arity show.now }
{
    match show {
        Some((shown, count)) => shown.as_slice() == name && *count == arity as u64,
        None => false,
    }
}
