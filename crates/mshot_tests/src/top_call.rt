ghost use Rattle.std.specs.Prelude.{◌≤◌};

use ms_io::{MemSink, MemSource, NoSink};
use mshot::{Status, mshot};
use std::alloc::Global;
use std::test::Fail;

const ROOM: usize = 4096;

const TWO_RULES: &str = "@add\na :- not b. b :- not a.\n@end\n@ground base\n@solve all\n";

const TWO_REPLIES: &str = "added 2\ngrounded atoms=2 rules=2\nanswer: a\nanswer: b\ncomplete 2\n";

// How a call on a script ended, and what the sink then held.
#[derive(Drop)]
struct Outcome {
    status: Status,
    written: Vec<u8>,
}

fn numbers(alloc: Global, values: &[u64]) -> Result<Vec<u64>, Fail> {
    Ok(Vec::from_slice(alloc, values)?)
}

// Calls on a script in memory, where the given calls of the source and of the sink fail.
fn call(
    alloc: Global,
    words: &[&str],
    script: &[u8],
    takes: &[u64],
    puts: &[u64],
    room: usize,
) -> Result<Outcome, Fail> {
    call_in_pieces(alloc, words, script, 7, takes, puts, room)
}

// The same, where the source gives so many bytes a call.
fn call_in_pieces(
    alloc: Global,
    words: &[&str],
    script: &[u8],
    chunk: usize,
    takes: &[u64],
    puts: &[u64],
    room: usize,
) -> Result<Outcome, Fail>
    requires { 1 ≤ chunk }
{
    let mut list = Vec::new(alloc);
    for word in words {
        list.push(String::from_str(alloc, word)?)?;
    }
    let bytes = Vec::from_slice(alloc, script)?;
    let mut src = MemSource::new(bytes, chunk, numbers(alloc, takes)?);
    let mut out = MemSink::new(alloc, room, numbers(alloc, puts)?)?;
    let status = mshot(alloc, &list, &mut src, &mut out, &mut NoSink);
    Ok(Outcome {
        status,
        written: Vec::from_slice(alloc, out.bytes())?,
    })
}

#[test]
fn scripts_have_their_replies(rt: HostRuntime) -> Result<(), Fail> {
    let done = Status::Done;
    let refused = Status::SomeRefused;
    let rows: [(&str, &[u8], Status, &str); 13] = [
        ("empty input", b"", done, ""),
        (
            "two answers",
            b"@add\na :- not b. b :- not a.\n@end\n@ground base\n@solve all\n",
            done,
            "added 2\ngrounded atoms=2 rules=2\nanswer: a\nanswer: b\ncomplete 2\n",
        ),
        (
            "support in a circle",
            b"@add\na :- b. b :- a.\n@end\n@ground base\n@solve all\n",
            done,
            "added 2\ngrounded atoms=2 rules=2\nanswer:\ncomplete 1\n",
        ),
        (
            "support in a circle beside a choice",
            b"@add\n{c}. a :- b. b :- a. a :- c.\n@end\n@ground base\n@solve all\n",
            done,
            "added 4\ngrounded atoms=3 rules=4\nanswer:\nanswer: a b c\ncomplete 2\n",
        ),
        (
            "an input becomes an output",
            b"@add\n#external e. a :- e. b :- not e.\n@end\n@ground base\n@solve all\n@assign e true\n@solve all\n@assign e free\n@solve all\n@add\n#program late. e :- not f. {f}.\n@end\n@ground late\n@solve all\n@assign e true\n",
            done,
            "added 3\ngrounded atoms=3 rules=2\nanswer: b\ncomplete 1\nassigned\nanswer: a e\ncomplete 1\nassigned\nanswer: a e\nanswer: b\ncomplete 2\nadded 3\ngrounded atoms=1 rules=2\nanswer: a e\nanswer: b f\ncomplete 2\nno effect\n",
        ),
        (
            "a loop with an older module",
            b"@add\n#external e. a :- e. #program late. e :- a.\n@end\n@ground base\n@ground late\n@solve all\n",
            refused,
            "added 4\ngrounded atoms=2 rules=1\nrefused loop e a\nanswer:\ncomplete 1\n",
        ),
        (
            "a released atom stays false",
            b"@add\n#external e. a :- e. b :- not e.\n@end\n@ground base\n@release e\n@add\n#program late. e.\n@end\n@ground late\n@assign e true\n@solve all\n",
            refused,
            "added 3\ngrounded atoms=3 rules=2\nreleased\nadded 2\nrefused redefined e\nno effect\nanswer: b\ncomplete 1\n",
        ),
        (
            "a later definition doesn't reach back",
            b"@add\na :- not b. #program late. b.\n@end\n@ground base\n@ground late\n@solve all\n",
            done,
            "added 3\ngrounded atoms=1 rules=1\ngrounded atoms=1 rules=1\nanswer: a b\ncomplete 1\n",
        ),
        (
            "the same heads twice",
            b"@add\n#program f. d(1..3).\n@end\n@ground f\n@ground f\n",
            refused,
            "added 2\ngrounded atoms=3 rules=3\nrefused redefined d(1)\n",
        ),
        (
            "one copy more than there may be",
            b"@add\nq(1..1000001). #program ok. r.\n@end\n@ground base\n@ground ok\n@solve all\n",
            refused,
            "added 3\nrefused too-large\ngrounded atoms=1 rules=1\nanswer: r\ncomplete 1\n",
        ),
        (
            "a sum outside 64 bits",
            b"@add\np(9223372036854775807). q(9223372036854775807+1) :- p(9223372036854775807).\n@end\n@ground base\n",
            done,
            "added 2\ngrounded atoms=1 rules=1\n",
        ),
        (
            "what is shown, and assumptions",
            b"@add\na :- not b. b :- not a.\n@end\n@ground base\n@add\n#show a/0.\n@end\n@solve all\n@solve all with a not a\n",
            done,
            "added 2\ngrounded atoms=2 rules=2\nadded 1\nanswer:\nanswer: a\ncomplete 2\ncomplete 0\n",
        ),
        (
            "nothing is shown",
            b"@add\na :- not b. b :- not a.\n@end\n@ground base\n@add\n#show.\n@end\n@solve all\n",
            done,
            "added 2\ngrounded atoms=2 rules=2\nadded 1\nanswer:\nanswer:\ncomplete 2\n",
        ),
    ];
    for (name, script, status, replies) in rows {
        let outcome = call(rt.alloc(), &["run"], script, &[], &[], ROOM)?;
        assert_eq!(rt; outcome.status, status, "{name}");
        assert_eq!(rt; outcome.written.as_slice(), replies.as_bytes(), "{name}");
    }
    Ok(())
}

#[test]
fn more_scripts_have_their_replies(rt: HostRuntime) -> Result<(), Fail> {
    let done = Status::Done;
    let refused = Status::SomeRefused;
    let rows: [(&str, &[u8], Status, &str); 14] = [
        (
            "a variable, and a text without its end",
            b"@add\na.\np(X) :- not q(X).\n@end\n@add\n",
            refused,
            "refused syntax 2\nrefused unfinished\n",
        ),
        (
            "parameters and comparisons",
            b"@add\np(1;2). #program pair(x,y). q(x,y) :- p(x), p(y), |x-y| = 1.\n@end\n@ground base pair(1,1) pair(1,2) pair(2,1) pair(2,2)\n@solve all\n",
            done,
            "added 3\ngrounded atoms=4 rules=4\nanswer: p(1) p(2) q(1,2) q(2,1)\ncomplete 1\n",
        ),
        (
            "the order of atoms",
            b"@add\np(f(1)). p(b). p(\"a\"). p(3). a.\n@end\n@ground base\n@solve all\n",
            done,
            "added 5\ngrounded atoms=5 rules=5\nanswer: a p(3) p(\"a\") p(b) p(f(1))\ncomplete 1\n",
        ),
        (
            "texts and lines that are refused",
            b"@add\na.\nb c.\n@end\n@add\n#const n=1.\n#const n=2.\n@end\n@grond base\nhello\n",
            refused,
            "refused syntax 2\nrefused const 2\nrefused command\nrefused command\n",
        ),
        (
            "an external that is declared again keeps its value",
            b"@add\n#program x. #external e. #program y. #external e. a :- e.\n@end\n@ground x\n@assign e true\n@ground y\n@solve all\n",
            done,
            "added 5\ngrounded atoms=1 rules=0\nassigned\ngrounded atoms=1 rules=1\nanswer: a e\ncomplete 1\n",
        ),
        (
            "lines that are no commands",
            b"@solve all limit=0\n@solve 0\n@ground\n@assign p(X) true\n@end\n",
            refused,
            "refused command\nrefused command\nrefused command\nrefused command\nrefused command\n",
        ),
        (
            "division",
            b"@add\np(-7/2). p(-7\\2). p(7/0).\n@end\n@ground base\n@solve all\n",
            done,
            "added 3\ngrounded atoms=2 rules=2\nanswer: p(-3) p(-1)\ncomplete 1\n",
        ),
        (
            "atoms outside the base, and outputs",
            b"@add\na :- not b. b :- not a.\n@end\n@ground base\n@assign z true\n@release a\n@solve all with z\n@solve all with not z b\n",
            done,
            "added 2\ngrounded atoms=2 rules=2\nno effect\nno effect\ncomplete 0\nanswer: b\ncomplete 1\n",
        ),
        (
            "two choices",
            b"@add\n{a;b}.\n@end\n@ground base\n@solve all\n",
            done,
            "added 1\ngrounded atoms=2 rules=2\nanswer:\nanswer: a\nanswer: a b\nanswer: b\ncomplete 4\n",
        ),
        (
            "as many answers as are asked for",
            b"@add\n{a;b}.\n@end\n@ground base\n@solve 4\n@solve 5\n",
            done,
            "added 1\ngrounded atoms=2 rules=2\nanswer:\nanswer: a\nanswer: a b\nanswer: b\nopen 4\nanswer:\nanswer: a\nanswer: a b\nanswer: b\ncomplete 4\n",
        ),
        (
            "pools and intervals",
            b"@add\np(1;2,1..3).\n@end\n@ground base\n",
            done,
            "added 1\ngrounded atoms=4 rules=4\n",
        ),
        (
            "unknown atoms under not",
            b"@add\na :- not b. c :- not a. #program base. d :- not c, not z.\n@end\n@ground base\n",
            done,
            "added 4\ngrounded atoms=3 rules=3\n",
        ),
        (
            "21 atoms, grounded twice",
            b"@add\na1. a2. a3. a4. a5. a6. a7. a8. a9. a10. a11. a12. a13. a14. a15. a16. a17. a18. a19. a20. a21.\n@end\n@ground base\n@ground base\n@solve all\n",
            refused,
            "added 21\ngrounded atoms=21 rules=21\nrefused redefined a1\nanswer: a1 a10 a11 a12 a13 a14 a15 a16 a17 a18 a19 a2 a20 a21 a3 a4 a5 a6 a7 a8 a9\ncomplete 1\n",
        ),
        (
            "an aggregate waits",
            b"@add\na. {b} 1.\n@end\n@ground base\n@solve all\n",
            refused,
            "added 2\nrefused later\nanswer:\ncomplete 1\n",
        ),
    ];
    for (name, script, status, replies) in rows {
        let outcome = call(rt.alloc(), &["run"], script, &[], &[], ROOM)?;
        assert_eq!(rt; outcome.status, status, "{name}");
        assert_eq!(rt; outcome.written.as_slice(), replies.as_bytes(), "{name}");
    }
    Ok(())
}

#[test]
fn modules_are_tested(rt: HostRuntime) -> Result<(), Fail> {
    let done = Status::Done;
    let refused = Status::SomeRefused;
    let rows: [(&str, &[u8], Status, &str); 7] = [
        (
            "the least of the outputs that are heads again, which isn't the first met",
            b"@add\nb. c. a(1). #program late. a(1). c. b.\n@end\n@ground base\n@ground late\n",
            refused,
            "added 7\ngrounded atoms=3 rules=3\nrefused redefined b\n",
        ),
        (
            "an output that is a head again comes before a loop",
            b"@add\n#external e. a :- e. b. #program late. e :- a. b.\n@end\n@ground base\n@ground late\n",
            refused,
            "added 6\ngrounded atoms=3 rules=2\nrefused redefined b\n",
        ),
        (
            "the least head in a loop, and the least output there",
            b"@add\n#external e(1). #external d. a(2) :- e(1). b(1) :- d. c :- d. #program late. e(1) :- a(2). d :- b(1), c.\n@end\n@ground base\n@ground late\n",
            refused,
            "added 8\ngrounded atoms=5 rules=3\nrefused loop d c\n",
        ),
        (
            "a loop through a new atom",
            b"@add\n#external e. a :- e. #program late. n :- a. e :- n.\n@end\n@ground base\n@ground late\n",
            refused,
            "added 5\ngrounded atoms=2 rules=1\nrefused loop e a\n",
        ),
        (
            "a loop within one module",
            b"@add\n#external e. #program late. e :- n. n :- e.\n@end\n@ground base\n@ground late\n@solve all\n",
            done,
            "added 4\ngrounded atoms=1 rules=0\ngrounded atoms=1 rules=2\nanswer:\ncomplete 1\n",
        ),
        (
            "a negated atom makes no loop",
            b"@add\n#external e. a :- not e. #program late. e :- a.\n@end\n@ground base\n@ground late\n@solve all\n",
            done,
            "added 4\ngrounded atoms=2 rules=1\ngrounded atoms=0 rules=1\ncomplete 0\n",
        ),
        (
            "after a refusal all is as before",
            b"@add\n#external e. a :- e. #program late. e :- a. f.\n@end\n@ground base\n@assign e true\n@ground late\n@solve all with not f\n",
            refused,
            "added 5\ngrounded atoms=2 rules=1\nassigned\nrefused loop e a\nanswer: a e\ncomplete 1\n",
        ),
    ];
    for (name, script, status, replies) in rows {
        let outcome = call(rt.alloc(), &["run"], script, &[], &[], ROOM)?;
        assert_eq!(rt; outcome.status, status, "{name}");
        assert_eq!(rt; outcome.written.as_slice(), replies.as_bytes(), "{name}");
    }
    Ok(())
}

#[test]
fn texts_are_read(rt: HostRuntime) -> Result<(), Fail> {
    let done = Status::Done;
    let refused = Status::SomeRefused;
    let rows: [(&str, &[u8], Status, &str); 20] = [
        ("blanks and a comment", b" \t\n\r\n% @add\n", done, ""),
        (
            "a bad second line",
            b"@add\na.\nb c.\n@end\n@solve 3\n",
            refused,
            "refused syntax 2\nanswer:\ncomplete 1\n",
        ),
        (
            "bytes that begin no token",
            b"@add\na.\n% \xff\nb. \xff\n@end\n\x00\n",
            refused,
            "refused syntax 3\nrefused command\n",
        ),
        (
            "no dot",
            b"@add\na :- b\n@end\n",
            refused,
            "refused syntax 1\n",
        ),
        (
            "each form of a statement that there is",
            b"@add\n#program step(t,u). #external p(t). #const n = -3. #show p/2. #show. #include <incmode>.\n:- . a() :- b; not c, 1..2 < |x-3|. { p(1;2) : q, not r; s } <= 2. :- not 2 < #sum { -x, \"y\" : }.\n@end\n",
            done,
            "added 10\n",
        ),
        (
            "empty parentheses, an empty body and semicolons",
            b"@add\na(). b :- a; not c.\n@end\n@add\nd :- .\n@end\n@ground base\n@solve all\n",
            done,
            "added 2\nadded 1\ngrounded atoms=3 rules=3\nanswer: a b d\ncomplete 1\n",
        ),
        (
            "a constraint without a body",
            b"@add\n:- . a.\n@end\n@ground base\n@solve all\n",
            done,
            "added 2\ngrounded atoms=1 rules=2\ncomplete 0\n",
        ),
        (
            "more copies than a statement may have",
            b"@add\np((1;2),(1;2),(1;2),(1;2),(1;2),(1;2),(1;2),(1;2),(1;2),(1;2),(1;2),(1;2),(1;2),(1;2)).\n@end\n",
            refused,
            "refused syntax 1\n",
        ),
        (
            "constants twice",
            b"@add\n#const n=1.\n#const n=2.\n@end\n@add\n#const m=1.\n@end\n@add\n\n#const m=1.\n@end\n@add\np(m).\n@end\n@ground base\n@solve all\n",
            refused,
            "refused const 2\nadded 1\nrefused const 2\nadded 1\ngrounded atoms=1 rules=1\nanswer: p(1)\ncomplete 1\n",
        ),
        (
            "both kinds of show",
            b"@add\na :- not b. b :- not a. #show. #show b/0. #show b/1.\n@end\n@ground base\n@solve all\n",
            done,
            "added 5\ngrounded atoms=2 rules=2\nanswer:\nanswer: b\ncomplete 2\n",
        ),
        (
            "the incremental mode leaves the base as it is",
            b"@add\na.\n@end\n@add\n#include <incmode>. b.\n@end\n@ground base\n@ground check(0)\n@solve all\n@assign query(0) true\n@solve all\n",
            done,
            "added 1\nadded 2\ngrounded atoms=2 rules=2\ngrounded atoms=1 rules=0\nanswer: a b\ncomplete 1\nassigned\nanswer: a b query(0)\ncomplete 1\n",
        ),
        (
            "pieces that no statement is",
            b"@add\na.\n.\n@end\n@add\np(9223372036854775808).\n@end\n@add\na :- not not b.\n@end\n@add\n\na..b.\n@end\n",
            refused,
            "refused syntax 2\nrefused syntax 1\nrefused syntax 1\nrefused syntax 2\n",
        ),
        (
            "directives that are none",
            b"@add\n#show p/-1.\n@end\n@add\n#program p(x,x).\n@end\n@add\n#const n==1.\n@end\n",
            refused,
            "refused syntax 1\nrefused syntax 1\nrefused syntax 1\n",
        ),
        (
            "an unfinished string",
            b"@add\na.\n\nb :- \"x.\n@end\n",
            refused,
            "refused syntax 3\n",
        ),
        (
            "cut off inside a text",
            b"@add\na.\n",
            refused,
            "refused unfinished\n",
        ),
        (
            "an add inside a text",
            b"@add\n@add\n@end\n",
            refused,
            "refused syntax 1\n",
        ),
        (
            "an end with blanks, and one alone",
            b"@add\na.\r\n \t@end \r\n@end\n",
            refused,
            "added 1\nrefused command\n",
        ),
        (
            "no command",
            b"@grond base\nhello\n@solve\n\r@solve all\n",
            refused,
            "refused command\nrefused command\nrefused command\nrefused command\n",
        ),
        (
            "blanks and comments in commands",
            b" @add % text\na. :- not a.\n@end\n@ground\tbase%\n@solve  all",
            done,
            "added 2\ngrounded atoms=1 rules=2\nanswer: a\ncomplete 1\n",
        ),
        (
            "a refused text changes nothing",
            b"@add\na.\n@end\n@add\nb. c\n@end\n@ground base\n",
            refused,
            "added 1\nrefused syntax 1\ngrounded atoms=1 rules=1\n",
        ),
    ];
    for (name, script, status, replies) in rows {
        let outcome = call(rt.alloc(), &["run"], script, &[], &[], ROOM)?;
        assert_eq!(rt; outcome.status, status, "{name}");
        assert_eq!(rt; outcome.written.as_slice(), replies.as_bytes(), "{name}");
    }
    Ok(())
}

/// A script whose pieces are cut after each byte, and its replies.
#[test]
fn scripts_may_be_cut_anywhere(rt: HostRuntime) -> Result<(), Fail> {
    let rows: [(&str, &[u8], &str); 2] = [
        (
            "support in a circle beside a choice",
            b"@add\n{c}. a :- b. b :- a. a :- c.\n@end\n@ground base\n@solve all\n",
            "added 4\ngrounded atoms=3 rules=4\nanswer:\nanswer: a b c\ncomplete 2\n",
        ),
        (
            "the values of an external",
            b"@add\n#external e. a :- e. b :- not e.\n@end\n@ground base\n@solve all\n@assign e true\n@solve all\n@assign e free\n@solve all\n",
            "added 3\ngrounded atoms=3 rules=2\nanswer: b\ncomplete 1\nassigned\nanswer: a e\ncomplete 1\nassigned\nanswer: a e\nanswer: b\ncomplete 2\n",
        ),
    ];
    for (name, script, replies) in rows {
        let outcome = call_in_pieces(rt.alloc(), &["run"], script, 1, &[], &[], ROOM)?;
        assert_eq!(rt; outcome.status, Status::Done, "{name}");
        assert_eq!(rt; outcome.written.as_slice(), replies.as_bytes(), "{name}");
    }
    Ok(())
}

#[test]
fn a_grounding_may_have_a_million_copies(rt: HostRuntime) -> Result<(), Fail> {
    let outcome = call(
        rt.alloc(),
        &["run"],
        b"@add\nq(1..1000000).\n@end\n@ground base\n",
        &[],
        &[],
        ROOM,
    )?;
    assert_eq!(rt; outcome.status, Status::Done);
    assert_eq!(rt;
        outcome.written.as_slice(),
        b"added 1\ngrounded atoms=1000000 rules=1000000\n".as_slice()
    );
    Ok(())
}

#[test]
fn a_join_has_a_greatest_size(rt: HostRuntime) -> Result<(), Fail> {
    let outcome = call(
        rt.alloc(),
        &["run"],
        b"@add\n#program p(k). {q(k,1..600000)}.\n@end\n@ground p(1)\n@ground p(2)\n@ground p(3)\n@ground p(4)\n@ground p(5)\n@ground p(6)\n@ground p(7)\n",
        &[],
        &[],
        ROOM,
    )?;
    let grounded = "grounded atoms=600000 rules=600000\n";
    let mut wanted = String::from_str(rt.alloc(), "added 2\n")?;
    for _ in 0..6 {
        wanted.push_str(grounded)?;
    }
    wanted.push_str("refused too-many\n")?;
    assert_eq!(rt; outcome.status, Status::SomeRefused);
    assert_eq!(rt; outcome.written.as_slice(), wanted.as_bytes());
    Ok(())
}

#[test]
fn an_atom_has_a_greatest_size(rt: HostRuntime) -> Result<(), Fail> {
    let alloc = rt.alloc();
    for (count, replies) in [
        (1999, "added 1\ngrounded atoms=1 rules=1\n"),
        (2000, "added 1\nrefused too-large\n"),
    ] {
        let mut script = b"@add\np(1".to_vec(alloc)?;
        for _ in 1..count {
            script.extend_from_slice(b",1")?;
        }
        script.extend_from_slice(b").\n@end\n@ground base\n")?;
        let outcome = call(alloc, &["run"], script.as_slice(), &[], &[], ROOM)?;
        assert_eq!(rt;
            outcome.written.as_slice(),
            replies.as_bytes(),
            "{count} arguments"
        );
    }
    Ok(())
}

/// A fact whose one argument stands in so many brackets.
#[derive(Clone, Copy)]
struct Nested<'a> {
    opening: &'a str,
    count: usize,
    middle: &'a str,
    closing: &'a str,
}

fn nested_script(alloc: Global, nested: Nested) -> Result<Vec<u8>, Fail> {
    let mut script = b"@add\np(".to_vec(alloc)?;
    for _ in 0..nested.count {
        script.extend_from_slice(nested.opening.as_bytes())?;
    }
    script.extend_from_slice(nested.middle.as_bytes())?;
    for _ in 0..nested.count {
        script.extend_from_slice(nested.closing.as_bytes())?;
    }
    script.extend_from_slice(b").\n@end\n")?;
    Ok(script)
}

#[test]
fn brackets_may_be_deep(rt: HostRuntime) -> Result<(), Fail> {
    let rows = [
        ("parentheses", "(", 10_000, "b", ")", "added 1\n"),
        ("functions", "f(", 199, "1", ")", "added 1\n"),
        (
            "a function too many",
            "f(",
            200,
            "1",
            ")",
            "refused syntax 1\n",
        ),
        ("minuses", "-", 199, "1", "", "added 1\n"),
        ("a minus too many", "-", 200, "1", "", "refused syntax 1\n"),
        (
            "open parentheses",
            "(",
            10_000,
            "b",
            "",
            "refused syntax 1\n",
        ),
        ("open bars", "|", 10_000, "b", "", "refused syntax 1\n"),
    ];
    for (name, opening, count, middle, closing, replies) in rows {
        let nested = Nested {
            opening,
            count,
            middle,
            closing,
        };
        let script = nested_script(rt.alloc(), nested)?;
        let outcome = call(rt.alloc(), &["run"], script.as_slice(), &[], &[], ROOM)?;
        assert_eq!(rt; outcome.written.as_slice(), replies.as_bytes(), "{name}");
    }
    Ok(())
}

#[test]
fn each_fault_ends_the_call(rt: HostRuntime) -> Result<(), Fail> {
    let alloc = rt.alloc();
    let script = TWO_RULES.as_bytes();
    // The source gives 7 bytes a call: 9 calls for the script, and one that finds its end. The first command ends with
    // byte 34, the second with byte 47, and the last with byte 58.
    assert_eq!(rt; script.len(), 58);
    for (failing, replies) in [
        (0, ""),
        (4, ""),
        (5, "added 2\n"),
        (6, "added 2\n"),
        (7, "added 2\ngrounded atoms=2 rules=2\n"),
        (8, "added 2\ngrounded atoms=2 rules=2\n"),
        (9, TWO_REPLIES),
    ] {
        let outcome = call(alloc, &["run"], script, &[failing], &[], ROOM)?;
        assert_eq!(rt; outcome.status, Status::ReadFault, "take {failing}");
        assert_eq!(rt;
            outcome.written.as_slice(),
            replies.as_bytes(),
            "take {failing}"
        );
    }
    let whole = call(alloc, &["run"], script, &[10], &[3], ROOM)?;
    assert_eq!(rt; whole.status, Status::Done);
    let fronts = ["", "added 2\n", "added 2\ngrounded atoms=2 rules=2\n"];
    for (failing, front) in fronts.iter().enumerate() {
        let outcome = call(alloc, &["run"], script, &[], &[failing as u64], ROOM)?;
        assert_eq!(rt; outcome.status, Status::WriteFault, "put {failing}");
        assert_eq!(rt;
            outcome.written.as_slice(),
            front.as_bytes(),
            "put {failing}"
        );
    }
    let full = call(alloc, &["run"], script, &[], &[], 8)?;
    assert_eq!(rt; full.status, Status::WriteFault);
    assert_eq!(rt; full.written.as_slice(), b"added 2\n".as_slice());
    Ok(())
}

#[test]
fn other_words_do_nothing(rt: HostRuntime) -> Result<(), Fail> {
    let rows: [&[&str]; 5] = [&[], &["run", "x"], &["walk"], &["run", "run"], &[""]];
    for words in rows {
        let outcome = call(rt.alloc(), words, TWO_RULES.as_bytes(), &[0], &[0], ROOM)?;
        assert_eq!(rt; outcome.status, Status::Usage, "{words:?}");
        assert_eq!(rt; outcome.written.as_slice(), b"".as_slice(), "{words:?}");
    }
    Ok(())
}
