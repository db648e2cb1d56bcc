use ms_grammar::statement::Head;
use ms_lex::lex;
use ms_parse::{Form, ParseFault, Statement, parse, read_value};
use std::alloc::Global;
use std::process::Abort;
use std::test::Fail;

// Each statement of a text with its line, or `!` and a line where a piece is none. Of a rule it has the sign of
// the head and the number of parts in the body.
fn outcome_of(rt: &impl Abort, alloc: Global, text: &[u8]) -> Result<Vec<u8>, Fail> {
    let tokens = lex(alloc, text)?;
    let mut outcome = Vec::new(alloc);
    match parse(alloc, text, &tokens) {
        Ok(statements) => {
            for statement in statements.as_slice() {
                write_statement(&mut outcome, statement)?;
            }
        }
        Err(ParseFault::BadStatement { line }) => {
            outcome.push(b'!')?;
            outcome.push(digit(line))?;
        }
        Err(fault) => return Err(fault.into()),
    }
    Ok(outcome)
}

fn write_statement(out: &mut Vec<u8>, statement: &Statement) -> Result<(), Fail> {
    match &statement.form {
        Form::Rule { head, body } => {
            out.push(head_sign(head))?;
            out.push(digit(body.len() as u64))?;
        }
        Form::Program { name, params } => {
            out.extend_from_slice(name.as_slice())?;
            for param in params.as_slice() {
                out.push(b',')?;
                out.extend_from_slice(param.as_slice())?;
            }
        }
        Form::External { .. } => out.extend_from_slice(b"external")?,
        Form::Const { name, .. } => {
            out.push(b'=')?;
            out.extend_from_slice(name.as_slice())?;
        }
        Form::Show { name, arity } => {
            out.extend_from_slice(name.as_slice())?;
            out.push(b'/')?;
            out.push(digit(*arity))?;
        }
        Form::ShowNone => out.extend_from_slice(b"none")?,
        Form::IncludeIncmode => out.extend_from_slice(b"incmode")?,
    }
    out.push(b'@')?;
    out.push(digit(statement.line))?;
    Ok(())
}

fn head_sign(head: &Head) -> u8 {
    match head {
        Head::Empty => b'-',
        Head::Atom(_) => b'a',
        Head::Set(_) => b's',
    }
}

fn digit(number: u64) -> u8 {
    b'0' + (number % 10) as u8
}

#[test]
fn texts_have_these_directives(rt: HostRuntime) -> Result<(), Fail> {
    let rows = [
        ("", "", "no tokens"),
        ("#program base.", "base@1", "a program part"),
        ("#program p(x,y).", "p,x,y@1", "parameters"),
        ("#program p().", "p@1", "no parameters"),
        ("#program p(x,x).", "!1", "parameters that are alike"),
        ("#program p(x,y,x).", "!1", "parameters that are alike"),
        ("#program p(x,).", "!1", "a comma at the end"),
        ("#program p(x y).", "!1", "no comma between parameters"),
        ("#program p(1).", "!1", "a number for a parameter"),
        ("#program p(x)", "!1", "no dot"),
        ("#program p(x)y.", "!1", "a name after the parenthesis"),
        ("#program.", "!1", "a part without a name"),
        ("#show p/2.", "p/2@1", "a signature"),
        ("#show p/-1.", "!1", "a signed number"),
        (
            "#show p/9223372036854775807.",
            "p/7@1",
            "the greatest number",
        ),
        ("#show p/9223372036854775808.", "!1", "too great a number"),
        ("#show.", "none@1", "no signature"),
        ("#show p.", "!1", "half a signature"),
        ("#show p/2/3.", "!1", "more than a signature"),
        ("#include <incmode>.", "incmode@1", "the one that is there"),
        ("#include <csp>.", "!1", "another name"),
        ("#include <incmode.", "!1", "half a bracket"),
        ("#const n==1.", "!1", "two signs for one"),
        ("#const n.", "!1", "no value"),
        (".", "!1", "a dot alone"),
        ("#show.\n#show q/1.", "none@1q/1@2", "lines"),
        (
            "#show.\n#show\nq.",
            "!2",
            "the line of a piece's first token",
        ),
        ("#show.\n#show", "!2", "no dot at the end"),
        (
            "#show .. \n.\n#program.",
            "!1",
            "the first of two bad pieces",
        ),
    ];
    for (text, wanted, case) in rows {
        let outcome = outcome_of(&rt, rt.alloc(), text.as_bytes())?;
        assert_eq!(rt; outcome.as_slice(), wanted.as_bytes(), "{case}");
    }
    Ok(())
}

#[test]
fn texts_have_these_rules(rt: HostRuntime) -> Result<(), Fail> {
    let rows = [
        ("a.", "a0@1", "a fact"),
        ("a(1,b) :- b.", "a1@1", "a rule"),
        ("a :- b; c, not d.", "a3@1", "parts with either separator"),
        ("{a; b : c} :- d.", "s1@1", "a choice"),
        (":- a.", "-1@1", "a constraint"),
        (":- 1 < 2, #count{b : p(b)} > 1.", "-2@1", "tests and sets"),
        (":-.", "-0@1", "a constraint of nothing"),
        ("a :- .", "a0@1", "an empty body"),
        ("a :- b", "!1", "no dot"),
        ("a :- b,.", "!1", "a comma at the end"),
        ("a :- b,", "!1", "a comma at the end, and no dot"),
        ("a :- ,b.", "!1", "a comma at the start"),
        ("a :- b c.", "!1", "no separator"),
        ("a :- b : c.", "!1", "a condition without a set"),
        ("a, b.", "!1", "two heads"),
        ("not a.", "!1", "a negated head"),
        ("a :- not.", "!1", "not without an atom"),
        ("a.\nb :-\na.\n:- b.", "a0@1a1@2-1@4", "lines"),
        ("#external p(1).", "external@1", "an external atom"),
        ("#external p(1) q.", "!1", "more than an atom"),
        ("#external 1.", "!1", "no atom"),
        ("#external a :- b.", "!1", "an external rule"),
        ("#const n = f(1,-2).", "=n@1", "a constant"),
        ("#const n = 1+1.", "!1", "no value"),
        ("#const 1 = n.", "!1", "no name"),
    ];
    for (text, wanted, case) in rows {
        let outcome = outcome_of(&rt, rt.alloc(), text.as_bytes())?;
        assert_eq!(rt; outcome.as_slice(), wanted.as_bytes(), "{case}");
    }
    Ok(())
}

// A fact whose pool has so many alternatives.
fn pool_of(alloc: Global, alternatives: usize) -> Result<Vec<u8>, Fail> {
    let mut text = Vec::new(alloc);
    text.extend_from_slice(b"a(0")?;
    for _ in 1..alternatives {
        text.extend_from_slice(b";1")?;
    }
    text.extend_from_slice(b").")?;
    Ok(text)
}

#[test]
fn copies_have_a_limit(rt: HostRuntime) -> Result<(), Fail> {
    let most = pool_of(rt.alloc(), 10_000)?;
    let outcome = outcome_of(&rt, rt.alloc(), most.as_slice())?;
    assert_eq!(rt; outcome.as_slice(), b"a0@1".as_slice(), "the most copies");
    let more = pool_of(rt.alloc(), 10_001)?;
    let outcome = outcome_of(&rt, rt.alloc(), more.as_slice())?;
    assert_eq!(rt; outcome.as_slice(), b"!1".as_slice(), "one copy too many");
    Ok(())
}

#[test]
fn values_begin_at_tokens(rt: HostRuntime) -> Result<(), Fail> {
    let rows = [
        ("p(1,2) q", 0, Some(6), "a function"),
        ("p q", 0, Some(1), "a constant"),
        ("p q", 1, Some(2), "the last token"),
        ("p q", 2, None, "behind the last token"),
        ("", 0, None, "no tokens"),
        (". a", 0, None, "a dot"),
        ("- 1", 0, Some(2), "a negative number"),
        ("(1,)", 0, Some(4), "a tuple of one"),
        ("p(1", 0, Some(1), "a bracket that stays open"),
    ];
    for (text, from, wanted, case) in rows {
        let tokens = lex(rt.alloc(), text.as_bytes())?;
        assert!(rt; from <= tokens.len(), "{case}");
        let found = read_value(rt.alloc(), text.as_bytes(), &tokens, from)?;
        assert_eq!(rt; found.map(|found| found.next), wanted, "{case}");
    }
    Ok(())
}
