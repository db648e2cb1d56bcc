// The names that a table has for the terms that values are.
ghost use Rattle.std.specs.Prelude.{IfOk, map};
ghost use Rattle.ms_solving.specs.Listing.{row, tree_of_value};
ghost use Rattle.ms_session.specs.Naming.{AreNamedIn, IsNamedIn};

use ms_base::memory::OutOfMemory;
use ms_grammar::value::Value;
use ms_term::{TermId, Terms};
use std::alloc::Global;

/// The name that the table has for the term that a value is, or none exactly where it has none. It calls itself as deep
/// as functions stand in one another.
#[cycle(find_term)]
pub(crate) fn find_term(
    alloc: Global,
    terms: &Terms,
    value: &Value,
) -> Result<Option<TermId>, OutOfMemory>
    ensures { IfOk result (IsNamedIn terms.now (tree_of_value value.now)) }
{
    // The table says that it has the arguments of its functions.
    let _ = terms.len();
    match value {
        Value::Number(n) => Ok(terms.find_number(*n)),
        Value::Text(bytes) => Ok(terms.find_text(bytes.as_slice())),
        Value::Function(name, args) => match find_terms(alloc, terms, args.as_slice())? {
            Some(args) => Ok(terms.find_function(name.as_slice(), args.as_slice())),
            None => Ok(None),
        },
    }
}

/// The names of the terms that values are, or none where the table lacks one of them.
#[cycle(find_term)]
fn find_terms(
    alloc: Global,
    terms: &Terms,
    values: &[Value],
) -> Result<Option<Vec<TermId>>, OutOfMemory>
    ensures { IfOk result (AreNamedIn terms.now (row (map tree_of_value values.now))) }
{
    let mut names = Vec::with_capacity(alloc, values.len())?;
    for value in values {
        match find_term(alloc, terms, value)? {
            Some(name) => names.push(name)?,
            None => return Ok(None),
        }
    }
    Ok(Some(names))
}
