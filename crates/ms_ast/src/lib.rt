// Statements are printed as they are read.
#![tactic(auto)]

ghost use Rattle.std.specs.Prelude.{◌≡◌, ◌++◌, OnOk, OnErr};
ghost use Rattle.ms_ast.specs.Statements.{statement_text};
ghost use Rattle.ms_ast.specs.Law.{IsInGrammar, IsReadAs};

mod form;
mod line;
mod literal;
mod rule;
mod set;
mod term;
mod value;
mod word;

use form::print_statement;
pub use ms_base::memory::OutOfMemory;
pub use ms_grammar::statement::{
    AggElement, AggElements, AggFn, BodyLit, BodyLits, Cmp, Form, Head, Names, SetElement,
    SetElements, Statement, Statements, TextAgg, TextGuard, TextLit, TextLits, TextSet,
};
pub use ms_grammar::term::{TermLists, TextTerm, TextTerms};
pub use ms_grammar::value::{Value, Values};
use std::alloc::Global;

/// Appends a statement as a person would write it. What is printed is read back as this statement.
pub fn print(alloc: Global, statement: &Statement, into: &mut Vec<u8>) -> Result<(), OutOfMemory>
    requires { IsInGrammar statement.now.form }
    ensures printed { OnOk result (into.new.items ≡ into.old.items ++ statement_text statement.now.form) }
    ensures unchanged { OnErr result (into.new.items ≡ into.old.items) }
    ensures read_back { IsReadAs (statement_text statement.now.form) statement.now.form }
{
    let mut text = Vec::new(alloc);
    print_statement(&statement.form, &mut text)?;
    into.extend_from_slice(text.as_slice())?;
    Ok(())
}
