// The values of terms, under their names in a table.
ghost use Rattle.std.specs.Prelude.{IfOk, map};
ghost use Rattle.ms_copies.specs.Evaluating.{value, all_values};
ghost use Rattle.ms_value.specs.Naming.{Gives, GivesAll};

use crate::integers::integer;
use ms_core::pattern::Pattern;
use ms_term::{OutOfMemory, TermId, Terms};
use std::alloc::Global;

/// The name of a term's value under a choice, or `None` exactly where it isn't defined. Names of the table stay
/// what they were. It calls itself as deep as functions stand in one another.
#[cycle(evaluate)]
pub fn evaluate(
    alloc: Global,
    terms: &mut Terms,
    pattern: &Pattern,
    chosen: &[i64],
) -> Result<Option<TermId>, OutOfMemory>
    ensures { IfOk result (Gives terms.old terms.new (value chosen.now pattern.now)) }
{
    match pattern {
        Pattern::Text(bytes) => Ok(Some(terms.text(bytes.as_slice())?)),
        Pattern::Function(name, args) => {
            match evaluate_all(alloc, terms, args.as_slice(), chosen)? {
                Some(args) => Ok(Some(terms.function(name.as_slice(), args.as_slice())?)),
                None => Ok(None),
            }
        }
        _ => match integer(pattern, chosen) {
            Some(n) => Ok(Some(terms.number(n)?)),
            None => Ok(None),
        },
    }
}

/// The names of the values of terms, or `None` exactly where one of them isn't defined.
#[cycle(evaluate)]
pub fn evaluate_all(
    alloc: Global,
    terms: &mut Terms,
    patterns: &[Pattern],
    chosen: &[i64],
) -> Result<Option<Vec<TermId>>, OutOfMemory>
    ensures { IfOk result (GivesAll terms.old terms.new (all_values (map (value chosen.now) patterns.now))) }
{
    let mut names = Vec::with_capacity(alloc, patterns.len())?;
    for pattern in patterns {
        match evaluate(alloc, terms, pattern, chosen)? {
            Some(name) => names.push(name)?,
            None => return Ok(None),
        }
    }
    Ok(Some(names))
}
