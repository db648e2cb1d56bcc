// Terms and atoms at the front.
ghost use Rattle.std.specs.Prelude.{◌≡◌, IfOk};
ghost use Rattle.ms_grammar.specs.declared.part.Counted.{Counted};
ghost use Rattle.ms_grammar.specs.declared.term.TextTerm.{TextTerm};
ghost use Rattle.ms_grammar.specs.Terms.{Term, term_words};
ghost use Rattle.ms_grammar.specs.Statements.{Atom, atom_words, atom_spelled, as_atom, bounded, term_spelled};
ghost use Rattle.ms_grammar.specs.Reading.{EndsTerm};
ghost use Rattle.ms_read_part.specs.declared.term.Lead.{Lead};
ghost use Rattle.ms_read_part.specs.Leads.{lead_spelled, is_function, atom_of};
ghost use Rattle.ms_read_part.specs.Cuts.{Reads};

use crate::input::{Found, Input};
use ms_base::limits::MOST_HEIGHT;
use ms_grammar::part::{Counted, Part};
use ms_grammar::term::TextTerm;
use ms_read_term::read_term;
use ms_text::token::TokenKind;

/// A term that may be an atom.
#[derive(Drop)]
pub(crate) struct Lead {
    part: Part,
    /// Whether it begins with a name.
    named: bool,
}

impl Lead {
    /// The atom that the term is.
    pub(crate) fn into_atom(self) -> Option<Counted<TextTerm>>
        ensures { result ≡ atom_of self }
    {
        let Lead { part, named } = self;
        if named && is_function(&part.term) {
            Some(counted(part))
        } else {
            None
        }
    }

    /// The term, where it isn't higher than a term may be.
    pub(crate) fn into_term(self) -> Option<Counted<TextTerm>>
        ensures { result ≡ bounded self.part }
    {
        let Lead { part, .. } = self;
        if part.height <= MOST_HEIGHT {
            Some(counted(part))
        } else {
            None
        }
    }
}

fn is_function(term: &TextTerm) -> bool
    ensures { result ≡ is_function term.now }
{
    matches!(term, TextTerm::Function(..))
}

fn counted(part: Part) -> Counted<TextTerm>
    ensures { result ≡ as_atom part }
{
    Counted {
        value: part.term,
        choices: part.choices,
        elements: 0,
    }
}

/// The term at the front.
pub(crate) fn read_lead<'a>(input: Input<'a>) -> Found<'a, Lead>
    ensures { IfOk result (Reads Term Lead term_words lead_spelled EndsTerm input.entry) }
{
    let named = input.begins_with(TokenKind::Name);
    let Some((part, len)) = read_term(input.alloc, input.text, input.tokens)? else {
        return Ok(None);
    };
    Ok(Some((Lead { part, named }, input.after(len))))
}

/// The term of a statement at the front.
pub(crate) fn read_bounded<'a>(input: Input<'a>) -> Found<'a, Counted<TextTerm>>
    ensures { IfOk result (Reads Term (Counted TextTerm) term_words term_spelled EndsTerm input.entry) }
{
    let Some((lead, rest)) = read_lead(input)? else {
        return Ok(None);
    };
    Ok(rest.behind(lead.into_term()))
}

/// The atom at the front.
pub(crate) fn read_atom<'a>(input: Input<'a>) -> Found<'a, Counted<TextTerm>>
    ensures { IfOk result (Reads Atom (Counted TextTerm) atom_words atom_spelled EndsTerm input.entry) }
{
    let Some((lead, rest)) = read_lead(input)? else {
        return Ok(None);
    };
    Ok(rest.behind(lead.into_atom()))
}
