use ms_base::seq::Seq;
use ms_grammar::statement::{Form, Statement};
use ms_texts::{TextFault, Texts, Value};
use std::alloc::Global;
use std::test::Fail;

type Added = Result<Result<u64, TextFault>, Fail>;

/// Adds a text of one statement.
fn add(texts: &mut Texts, alloc: Global, form: Form) -> Added {
    let mut list = Seq::new(alloc);
    list.push(Statement { line: 1, form })?;
    Ok(texts.add(list))
}

fn add_const(texts: &mut Texts, alloc: Global, name: &[u8], n: i64) -> Added {
    let name = Seq::copied(alloc, name)?;
    let value = Value::Number(n);
    add(texts, alloc, Form::Const { name, value })
}

/// The number that a constant stands for.
fn number(texts: &Texts, name: &[u8]) -> Option<i64> {
    match texts.constant(name) {
        Some(Value::Number(n)) => Some(*n),
        _ => None,
    }
}

/// A part says something.
fn says(texts: &Texts, name: &[u8], count: usize) -> bool {
    for section in texts.part(name, count) {
        if !section.forms.is_empty() {
            return true;
        }
    }
    false
}

#[test]
fn constants(rt: HostRuntime) -> Result<(), Fail> {
    let alloc = rt.alloc();
    let mut texts = Texts::new(alloc);
    let first = add_const(&mut texts, alloc, b"n", 1)?;
    assert_eq!(rt; first, Ok(1), "a constant");
    assert_eq!(rt; number(&texts, b"n"), Some(1), "its value");
    let again = add_const(&mut texts, alloc, b"n", 2)?;
    assert_eq!(rt;
        again,
        Err(TextFault::ConstTwice { line: 1 }),
        "a second value"
    );
    texts.set_const(b"n", Value::Number(3))?;
    assert_eq!(rt; number(&texts, b"n"), Some(3), "a given value wins");
    Ok(())
}

#[test]
fn parts(rt: HostRuntime) -> Result<(), Fail> {
    let alloc = rt.alloc();
    let mut texts = Texts::new(alloc);
    assert!(rt; texts.shows(b"p", 1), "no directive");
    add(&mut texts, alloc, Form::ShowNone)??;
    assert!(rt; !texts.shows(b"p", 1), "the directive that names none");
    add(&mut texts, alloc, Form::IncludeIncmode)??;
    assert!(rt; says(&texts, b"base", 0), "where each text begins");
    assert!(rt; says(&texts, b"check", 1), "the incremental mode");
    assert!(rt; !says(&texts, b"check", 0), "another number of parameters");
    Ok(())
}
