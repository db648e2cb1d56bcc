// Bodies of statements become bodies of core rules.
ghost use Rattle.std.specs.Prelude.{◌≡◌, [], IfOk, map};
ghost use Rattle.ms_core.specs.Ranges.{only_ranges};
ghost use Rattle.ms_grammar.specs.declared.statement.AggFn.TheVariants.{Count};
ghost use Rattle.ms_core.specs.CoreRules.{turned, left_guard, right_guard, guards, counted_element, with_aggregate, with_part, with_parts, no_body};
ghost use Rattle.ms_parts.specs.Makers.{IsMade};

use crate::conds::{core_elements, counted_elements, only_ranges, with_literal};
use crate::ranges::ranged;
use crate::rows::single;
use ms_base::memory::OutOfMemory;
use ms_base::seq::Seq;
use ms_core::rule::{Agg, AggFn, Aggs, Cmp, Conds, Elements, Guard, Guards, Ranges};
use ms_grammar::statement::{BodyLit, TextGuard, TextSet};
use std::alloc::Global;
use std::marker::Model;

/// A body, as far as it was read.
#[derive(Debug, Drop)]
pub(crate) struct Body {
    pub conds: Conds,
    pub aggs: Aggs,
}

impl Model for Body {
    ghost use Rattle.std.specs.Coded.{codes};
    ghost use Rattle.ms_core.specs.contracts.pattern.Pattern as pattern;
    ghost use Rattle.ms_core.specs.CoreRules.{Body};

    ghost Value = { Body };

    ghost coded = { Prim.hlevel (codes, pattern.the_row.coded) };

    ghost view = { λ b. record { conds = b.conds; aggs = b.aggs } };

    ghost inverse = { λ b. record { conds = b.conds; aggs = b.aggs } };
}

/// The comparison with its sides exchanged.
fn turned(cmp: Cmp) -> Cmp
    ensures { result ≡ turned cmp }
{
    match cmp {
        Cmp::Eq => Cmp::Eq,
        Cmp::Ne => Cmp::Ne,
        Cmp::Lt => Cmp::Gt,
        Cmp::Le => Cmp::Ge,
        Cmp::Gt => Cmp::Lt,
        Cmp::Ge => Cmp::Le,
    }
}

/// A guard on the left stands on the right with its comparison turned round.
fn left_guard(
    alloc: Global,
    ranges: &mut Ranges,
    guard: &Option<TextGuard>,
) -> Result<Guards, OutOfMemory>
    ensures { IfOk result (λ made. IsMade (left_guard guard.now) 0 ranges.old made ranges.new) }
{
    match guard {
        None => Ok(Seq::new(alloc)),
        Some(guard) => {
            let bound = ranged(alloc, 0, ranges, &guard.bound)?;
            let cmp = turned(guard.cmp);
            single(alloc, Guard { cmp, bound })
        }
    }
}

fn right_guard(
    alloc: Global,
    ranges: &mut Ranges,
    guard: &Option<TextGuard>,
) -> Result<Guards, OutOfMemory>
    ensures { IfOk result (λ made. IsMade (right_guard guard.now) 0 ranges.old made ranges.new) }
{
    match guard {
        None => Ok(Seq::new(alloc)),
        Some(guard) => {
            let bound = ranged(alloc, 0, ranges, &guard.bound)?;
            let cmp = guard.cmp;
            single(alloc, Guard { cmp, bound })
        }
    }
}

fn guards(
    alloc: Global,
    ranges: &mut Ranges,
    left: &Option<TextGuard>,
    right: &Option<TextGuard>,
) -> Result<Guards, OutOfMemory>
    ensures { IfOk result (λ made. IsMade (guards left.now right.now) 0 ranges.old made ranges.new) }
{
    let mut all = left_guard(alloc, ranges, left)?.into_vec();
    let mut more = right_guard(alloc, ranges, right)?.into_vec();
    all.append(&mut more)?;
    Ok(Seq::from_vec(all))
}

/// The body with an aggregate of these elements.
fn with_aggregate(
    alloc: Global,
    body: Body,
    negated: bool,
    function: AggFn,
    left: &Option<TextGuard>,
    right: &Option<TextGuard>,
    elements: Elements,
) -> Result<Body, OutOfMemory>
    ensures { IfOk result (λ made. made ≡ with_aggregate negated function (guards left.now right.now) elements body) }
{
    let Body { conds, mut aggs } = body;
    let Conds {
        pos,
        neg,
        tests,
        mut ranges,
    } = conds;
    let guards = guards(alloc, &mut ranges, left, right)?;
    aggs.push(Agg {
        negated,
        function,
        elements,
        guards,
    })?;
    let conds = Conds {
        pos,
        neg,
        tests,
        ranges,
    };
    Ok(Body { conds, aggs })
}

/// The body with a set, which is a count. The ranges of elements are numbered from `first` on.
pub(crate) fn with_set(
    alloc: Global,
    first: usize,
    body: Body,
    negated: bool,
    set: &TextSet,
) -> Result<Body, OutOfMemory>
    ensures { IfOk result (λ made. made ≡ with_aggregate negated Count (guards set.now.left set.now.right) (map (counted_element first) set.now.elements) body) }
{
    let elements = counted_elements(alloc, first, set.elements.as_slice())?;
    with_aggregate(
        alloc,
        body,
        negated,
        AggFn::Count,
        &set.left,
        &set.right,
        elements,
    )
}

/// The body with one more part. The ranges of elements are numbered from `first` on.
fn with_part(alloc: Global, first: usize, body: Body, part: &BodyLit) -> Result<Body, OutOfMemory>
    ensures { IfOk result (λ made. made ≡ with_part first body part.now) }
{
    match part {
        BodyLit::Lit(literal) => {
            let Body { conds, aggs } = body;
            let conds = with_literal(alloc, 0, conds, literal)?;
            Ok(Body { conds, aggs })
        }
        BodyLit::Set { negated, set } => with_set(alloc, first, body, *negated, set),
        BodyLit::Agg { negated, agg } => {
            let elements = core_elements(alloc, first, agg.elements.as_slice())?;
            with_aggregate(
                alloc,
                body,
                *negated,
                agg.function,
                &agg.left,
                &agg.right,
                elements,
            )
        }
    }
}

/// The body with all parts. The ranges of elements are numbered from `first` on.
pub(crate) fn with_parts(
    alloc: Global,
    first: usize,
    body: Body,
    parts: &[BodyLit],
) -> Result<Body, OutOfMemory>
    ensures { IfOk result (λ made. made ≡ with_parts first body parts.now) }
{
    let mut body = body;
    for part in parts {
        body = with_part(alloc, first, body, part)?;
    }
    Ok(body)
}

/// A body of ranges alone.
pub(crate) fn body_of(alloc: Global, ranges: Ranges) -> Body
    ensures { result ≡ record { conds = only_ranges ranges; aggs = [] } }
{
    Body {
        conds: only_ranges(alloc, ranges),
        aggs: Seq::new(alloc),
    }
}
