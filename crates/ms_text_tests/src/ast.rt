ghost use Rattle.std.specs.Prelude.{All};
ghost use Rattle.ms_ast.specs.Law.{IsInGrammar};

use ms_ast::{Form, Statement, print};
use ms_lex::lex;
use ms_parse::parse;
use std::alloc::Global;
use std::test::Fail;

/// Prints statements one after another.
fn print_each(alloc: Global, statements: &[Statement], into: &mut Vec<u8>) -> Result<(), Fail>
    requires { All (λ statement. IsInGrammar statement.form) statements.now }
{
    for statement in statements {
        print(alloc, statement, into)?;
    }
    Ok(())
}

/// The statements of a text as they are printed.
fn reprinted(alloc: Global, text: &[u8]) -> Result<Vec<u8>, Fail> {
    let tokens = lex(alloc, text)?;
    let statements = parse(alloc, text, &tokens)?;
    let mut printed = Vec::new(alloc);
    print_each(alloc, statements.as_slice(), &mut printed)?;
    Ok(printed)
}

/// Texts of one statement, each with what is printed of it. That is printed as it is.
const ROWS: &[(&str, &str)] = &[
    ("p(-9223372036854775808).", "p(-9223372036854775808)."),
    ("p( \"a\\\"b\\\\c\\nd\" ).", "p(\"a\\\"b\\\\c\\nd\")."),
    ("p(()).", "p(())."),
    ("p((1,)).", "p((1,))."),
    ("p((1 , b)).", "p((1,b))."),
    ("p(((b,c);(1..2))).", "p((b,c;1..2))."),
    ("p(q(1,2;)).", "p(q(1,2;))."),
    ("p(q()).", "p(q)."),
    ("p(((b))).", "p(b)."),
    ("p(t - 1).", "p(t-1)."),
    ("p(a-(b-c)).", "p(a-(b-c))."),
    ("p((a+b)-c).", "p(a+b-c)."),
    ("p((a*b)+c).", "p(a*b+c)."),
    ("p((a+b)*(c*d)).", "p((a+b)*(c*d))."),
    ("p((a/b)\\-c).", "p(a/b\\-c)."),
    ("p((1..2)+3).", "p((1..2)+3)."),
    ("p((1..2)..3).", "p((1..2)..3)."),
    ("p(-(-(a+b))).", "p(--(a+b))."),
    ("p(a-(-1)).", "p(a--1)."),
    (
        "p(|(--9223372036854775808)|).",
        "p(|--9223372036854775808|).",
    ),
    ("a:-.", "a."),
    (":-.", ":- ."),
    ("a:-b;not c,x<>y.", "a :- b, not c, x != y."),
    (":-1==2.", ":- 1 = 2."),
    ("{a;b:c,not d;e:}n.", "{a; b : c, not d; e} <= n."),
    (":-not l<{a}>u.", ":- not l < {a} > u."),
    (":-l #sum{1,x:q}.", ":- l <= #sum{1,x : q}."),
    (":-not#count{}>=u.", ":- not #count{} >= u."),
    ("#program base.", "#program base."),
    ("#program step( t,u ).", "#program step(t,u)."),
    ("#external q( t ).", "#external q(t)."),
    ("#const n = - 1.", "#const n=-1."),
    ("#const n = f((\"\\n\",),0).", "#const n=f((\"\\n\",),0)."),
    ("#show p / 2.", "#show p/2."),
    ("#show .", "#show."),
    ("#include<incmode>.", "#include <incmode>."),
];

#[test]
fn statements_are_printed_and_read_back(rt: HostRuntime) -> Result<(), Fail> {
    for (text, printed) in ROWS {
        let once = reprinted(rt.alloc(), text.as_bytes())?;
        assert_eq!(rt; once.as_slice(), printed.as_bytes(), "{text}");
        let twice = reprinted(rt.alloc(), once.as_slice())?;
        assert_eq!(rt; twice.as_slice(), printed.as_bytes(), "{text}, printed");
    }
    Ok(())
}

fn print_show_none(alloc: Global, into: &mut Vec<u8>) -> Result<(), Fail> {
    let statement = Statement {
        line: 1,
        form: Form::ShowNone,
    };
    print(alloc, &statement, into)?;
    Ok(())
}

#[test]
fn a_statement_is_appended(rt: HostRuntime) -> Result<(), Fail> {
    let mut into = b"a. ".to_vec(rt.alloc())?;
    print_show_none(rt.alloc(), &mut into)?;
    assert_eq!(rt;
        into.as_slice(),
        b"a. #show.".as_slice(),
        "behind what stands there"
    );
    Ok(())
}
