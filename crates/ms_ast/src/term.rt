// Terms as they are printed.
ghost use Rattle.std.specs.Prelude.{◌≡◌, [], ◌∷◌, ◌++◌, map, OnOk};
ghost use Rattle.ms_ast.specs.Ink.{ink_text, sign_text};
ghost use Rattle.ms_ast.specs.Terms.{printed, at_line, op_kind, op_line, right_line, list_ink, lists_ink, tuple, function, alternatives_ink, are_no_arguments};

use crate::line::Line;
use crate::word::print_integer;
use ms_base::memory::OutOfMemory;
use ms_grammar::term::{TextTerm, TextTerms};
use ms_tree::{Op, print_string};

/// Appends a term. It calls itself as deep as the term is high, which in the grammar is at most 201.
#[cycle(print)]
pub(crate) fn print_term(term: &TextTerm, into: &mut Vec<u8>) -> Result<(), OutOfMemory>
    ensures { OnOk result (into.new.items ≡ into.old.items ++ ink_text (printed term.now).ink) }
{
    match term {
        TextTerm::Number(n) => print_integer(*n, into),
        TextTerm::Text(bytes) => print_string(bytes.as_slice(), into),
        TextTerm::Function(name, lists) => print_function(name.as_slice(), lists.as_slice(), into),
        TextTerm::Pool(alternatives) => {
            into.push(b'(')?;
            print_alternatives(alternatives.as_slice(), into)?;
            into.push(b')')?;
            Ok(())
        }
        TextTerm::Interval(low, high) => {
            print_at(Line::Sum, low.get(), into)?;
            into.extend_from_slice(b"..")?;
            print_at(Line::Sum, high.get(), into)?;
            Ok(())
        }
        TextTerm::Neg(of) => {
            into.push(b'-')?;
            print_at(Line::Unary, of.get(), into)?;
            Ok(())
        }
        TextTerm::Abs(of) => {
            into.push(b'|')?;
            print_at(Line::Sum, of.get(), into)?;
            into.push(b'|')?;
            Ok(())
        }
        TextTerm::Binary(op, left, right) => {
            print_at(op_line(*op), left.get(), into)?;
            into.push(op_sign(*op))?;
            print_at(right_line(*op), right.get(), into)?;
            Ok(())
        }
    }
}

/// Appends a term where this line is wanted, in parentheses where it doesn't stand there by itself.
#[cycle(print)]
fn print_at(line: Line, term: &TextTerm, into: &mut Vec<u8>) -> Result<(), OutOfMemory>
    ensures { OnOk result (into.new.items ≡ into.old.items ++ ink_text (at_line line (printed term.now))) }
{
    if line_of(term).may_stand_at(line) {
        print_term(term, into)
    } else {
        into.push(b'(')?;
        print_inside(term, into)?;
        into.push(b')')?;
        Ok(())
    }
}

/// Appends a term within parentheses that stand already: a tuple needs none of its own.
#[cycle(print)]
fn print_inside(term: &TextTerm, into: &mut Vec<u8>) -> Result<(), OutOfMemory>
    ensures { OnOk result (into.new.items ≡ into.old.items ++ ink_text (printed term.now).inside) }
{
    match term {
        TextTerm::Function(name, lists) if name.is_empty() => print_tuple(lists.as_slice(), into),
        _ => print_term(term, into),
    }
}

/// Appends a function, or a tuple where it has no name.
#[cycle(print)]
fn print_function(name: &[u8], lists: &[TextTerms], into: &mut Vec<u8>) -> Result<(), OutOfMemory>
    ensures { OnOk result (into.new.items ≡ into.old.items ++ ink_text (function name.now (map (map printed) lists.now)).ink) }
{
    if name.is_empty() {
        into.push(b'(')?;
        print_tuple(lists, into)?;
        into.push(b')')?;
        return Ok(());
    }
    into.extend_from_slice(name)?;
    if are_no_arguments(lists) {
        return Ok(());
    }
    into.push(b'(')?;
    print_lists(lists, into)?;
    into.push(b')')?;
    Ok(())
}

/// Whether the lists are those of a constant.
fn are_no_arguments(lists: &[TextTerms]) -> bool
    ensures { result ≡ are_no_arguments lists.now }
{
    match lists {
        [list] => list.is_empty(),
        _ => false,
    }
}

/// Appends a tuple without its parentheses: one term stands with a comma.
#[cycle(print)]
fn print_tuple(lists: &[TextTerms], into: &mut Vec<u8>) -> Result<(), OutOfMemory>
    ensures { OnOk result (into.new.items ≡ into.old.items ++ ink_text (tuple (map (map printed) lists.now)).inside) }
{
    let [list, ..] = lists else {
        return Ok(());
    };
    print_list(list.as_slice(), into)?;
    if list.len() == 1 {
        into.push(b',')?;
    }
    Ok(())
}

/// Appends lists of terms, with a semicolon between each two.
#[cycle(print)]
fn print_lists(lists: &[TextTerms], into: &mut Vec<u8>) -> Result<(), OutOfMemory>
    ensures { OnOk result (into.new.items ≡ into.old.items ++ ink_text (lists_ink (map (map printed) lists.now))) }
{
    let mut between = b"".as_slice();
    for list in lists {
        into.extend_from_slice(between)?;
        print_list(list.as_slice(), into)?;
        between = b";";
    }
    Ok(())
}

/// Appends terms, with a comma between each two.
#[cycle(print)]
pub(crate) fn print_list(terms: &[TextTerm], into: &mut Vec<u8>) -> Result<(), OutOfMemory>
    ensures { OnOk result (into.new.items ≡ into.old.items ++ ink_text (list_ink (map printed terms.now))) }
{
    let mut between = b"".as_slice();
    for term in terms {
        into.extend_from_slice(between)?;
        print_term(term, into)?;
        between = b",";
    }
    Ok(())
}

/// Appends the alternatives of a parenthesis, with a semicolon between each two.
#[cycle(print)]
fn print_alternatives(terms: &[TextTerm], into: &mut Vec<u8>) -> Result<(), OutOfMemory>
    ensures { OnOk result (into.new.items ≡ into.old.items ++ ink_text (alternatives_ink (map printed terms.now))) }
{
    let mut between = b"".as_slice();
    for term in terms {
        into.extend_from_slice(between)?;
        print_inside(term, into)?;
        between = b";";
    }
    Ok(())
}

/// The line on which a term stands.
fn line_of(term: &TextTerm) -> Line
    ensures { result ≡ (printed term.now).line }
{
    match term {
        TextTerm::Number(n) if *n < 0 => Line::Unary,
        TextTerm::Neg(_) => Line::Unary,
        TextTerm::Interval(_, _) => Line::Interval,
        TextTerm::Binary(op, _, _) => op_line(*op),
        _ => Line::Primary,
    }
}

/// The line of an operation, on which its left side stands too.
fn op_line(op: Op) -> Line
    ensures { result ≡ op_line op }
{
    match op {
        Op::Add | Op::Sub => Line::Sum,
        Op::Mul | Op::Div | Op::Rem => Line::Product,
    }
}

/// The line of the right side of an operation.
fn right_line(op: Op) -> Line
    ensures { result ≡ right_line op }
{
    match op {
        Op::Add | Op::Sub => Line::Product,
        Op::Mul | Op::Div | Op::Rem => Line::Unary,
    }
}

fn op_sign(op: Op) -> u8
    ensures { result ∷ [] ≡ sign_text (op_kind op) }
{
    match op {
        Op::Add => b'+',
        Op::Sub => b'-',
        Op::Mul => b'*',
        Op::Div => b'/',
        Op::Rem => b'\\',
    }
}
