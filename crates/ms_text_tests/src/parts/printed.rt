// Core rules as text, for tests. A range stands in brackets, and `X0` is the integer of the first one.
use ms_base::seq::Bytes;
use ms_core::pattern::{Pattern, Patterns};
use ms_core::rule::{Agg, Conds, CoreRule, CoreRules, Element, Guard, Range, RuleKind, Test};
use ms_grammar::statement::{AggFn, Cmp};
use ms_tree::Op;
use std::fmt::Write;
use std::test::Fail;

/// The rules, one behind the other.
pub(crate) fn print_rules(text: &mut String, rules: &CoreRules) -> Result<(), Fail> {
    for rule in rules.as_slice() {
        print_rule(text, rule)?;
    }
    Ok(())
}

/// A rule, with a space before it if it isn't the first.
pub(crate) fn print_rule(text: &mut String, rule: &CoreRule) -> Result<(), Fail> {
    if !text.is_empty() {
        text.push(' ')?;
    }
    text.push_str(kind_word(rule.kind))?;
    if let Some(head) = &rule.head {
        print_pattern(text, head)?;
        text.push(' ')?;
    }
    text.push_str(":-")?;
    print_conds(text, &rule.conds)?;
    for agg in rule.aggs.as_slice() {
        print_agg(text, agg)?;
    }
    text.push('.')?;
    Ok(())
}

fn kind_word(kind: RuleKind) -> &'static str {
    match kind {
        RuleKind::Normal | RuleKind::Constraint => "",
        RuleKind::Choice => "choice ",
        RuleKind::External => "external ",
    }
}

fn print_conds(text: &mut String, conds: &Conds) -> Result<(), Fail> {
    print_all(text, " ", &conds.pos)?;
    print_all(text, " not ", &conds.neg)?;
    for test in conds.tests.as_slice() {
        print_test(text, test)?;
    }
    for range in conds.ranges.as_slice() {
        print_range(text, range)?;
    }
    Ok(())
}

/// Each of the patterns behind a word.
fn print_all(text: &mut String, word: &str, patterns: &Patterns) -> Result<(), Fail> {
    for pattern in patterns.as_slice() {
        text.push_str(word)?;
        print_pattern(text, pattern)?;
    }
    Ok(())
}

fn print_test(text: &mut String, test: &Test) -> Result<(), Fail> {
    text.push(' ')?;
    print_pattern(text, &test.left)?;
    text.push_str(sign(test.cmp))?;
    print_pattern(text, &test.right)
}

fn print_range(text: &mut String, range: &Range) -> Result<(), Fail> {
    text.push_str(" [")?;
    print_pattern(text, &range.low)?;
    text.push_str("..")?;
    print_pattern(text, &range.high)?;
    text.push(']')?;
    Ok(())
}

fn print_agg(text: &mut String, agg: &Agg) -> Result<(), Fail> {
    text.push_str(if agg.negated { " not" } else { "" })?;
    text.push_str(match agg.function {
        AggFn::Count => " count{",
        AggFn::Sum => " sum{",
    })?;
    for element in agg.elements.as_slice() {
        print_element(text, element)?;
    }
    text.push_str(" }")?;
    for guard in agg.guards.as_slice() {
        print_guard(text, guard)?;
    }
    Ok(())
}

fn print_element(text: &mut String, element: &Element) -> Result<(), Fail> {
    print_all(text, " ", &element.tuple)?;
    text.push(':')?;
    print_conds(text, &element.conds)?;
    text.push(';')?;
    Ok(())
}

fn print_guard(text: &mut String, guard: &Guard) -> Result<(), Fail> {
    text.push(' ')?;
    text.push_str(sign(guard.cmp))?;
    print_pattern(text, &guard.bound)
}

fn sign(cmp: Cmp) -> &'static str {
    match cmp {
        Cmp::Eq => "=",
        Cmp::Ne => "!=",
        Cmp::Lt => "<",
        Cmp::Le => "<=",
        Cmp::Gt => ">",
        Cmp::Ge => ">=",
    }
}

#[cycle(print)]
fn print_pattern(text: &mut String, pattern: &Pattern) -> Result<(), Fail> {
    match pattern {
        Pattern::Range(n) => write!(text, "X{n}")?,
        Pattern::Number(n) => write!(text, "{n}")?,
        Pattern::Text(bytes) => print_bytes(text, bytes)?,
        Pattern::Function(name, args) => {
            print_bytes(text, name)?;
            print_args(text, args.as_slice())?;
        }
        Pattern::Neg(of) => {
            text.push('-')?;
            print_pattern(text, of.get())?;
        }
        Pattern::Abs(of) => {
            text.push('|')?;
            print_pattern(text, of.get())?;
            text.push('|')?;
        }
        Pattern::Binary(op, left, right) => {
            print_pattern(text, left.get())?;
            text.push(op_sign(*op))?;
            print_pattern(text, right.get())?;
        }
    }
    Ok(())
}

/// The arguments of a function in parentheses, if there are any.
#[cycle(print)]
fn print_args(text: &mut String, args: &[Pattern]) -> Result<(), Fail> {
    let mut before = '(';
    for arg in args {
        text.push(before)?;
        print_pattern(text, arg)?;
        before = ',';
    }
    if before == ',' {
        text.push(')')?;
    }
    Ok(())
}

fn op_sign(op: Op) -> char {
    match op {
        Op::Add => '+',
        Op::Sub => '-',
        Op::Mul => '*',
        Op::Div => '/',
        Op::Rem => '\\',
    }
}

fn print_bytes(text: &mut String, bytes: &Bytes) -> Result<(), Fail> {
    for byte in bytes.as_slice() {
        text.push(char::from(*byte))?;
    }
    Ok(())
}
