// What is kept of a module.
ghost use Rattle.std.specs.Prelude.{ℕ, ◌≡◌, ◌≤◌, ◌<◌, ◌↔◌, All, Contains, IfOk, MatchOption, Some, length, slice_get};
ghost use Rattle.ms_join.specs.Modules.{IsWellFormed};
ghost use Rattle.ms_join.specs.Things.{body_of};
ghost use Rattle.ms_join.specs.Things.Thing.{atom, body};
ghost use Rattle.std.specs.List.Sorted.{IsStrictlyIncreasing};
ghost use Rattle.ms_unfound.specs.Taking.{AreSupports, AreVars, HasNoMember, IsHeadAt, IsInner, IsInnerAt, IsPartOf, IsPartOfModule, IsSupportBy};

use crate::members::{Members, cyclic_heads, place_in};
use crate::part::{Part, Places, Support};
use ms_base::atom_id::AtomId;
use ms_base::memory::OutOfMemory;
use ms_base::seq::Seq;
use ms_complete::Complete;
use ms_join::ground_module::GroundModule;
use ms_join::ground_rule::GroundRule;
use ms_lits::Numbers;
use std::alloc::Global;

/// The place of a member that is in the component with this number.
fn inner_place(members: &Members, number: u32, a: AtomId) -> Option<usize>
    requires rising { IsStrictlyIncreasing members.now.atoms }
    requires numbered { length members.now.numbers ≡ length members.now.atoms }
    ensures { MatchOption result ((i : ℕ) → ¬ IsInnerAt members.now number a i) (IsInnerAt members.now number a) }
{
    let numbers = members.numbers.as_slice();
    let Some(place) = place_in(members.atoms.as_slice(), a.0) else {
        return None;
    };
    if numbers[place] == number {
        Some(place)
    } else {
        None
    }
}

/// The places of those of the atoms that are members in the component with this number.
fn inner_places(
    alloc: Global,
    members: &Members,
    number: u32,
    atoms: &[AtomId],
) -> Result<Places, OutOfMemory>
    requires rising { IsStrictlyIncreasing members.now.atoms }
    requires numbered { length members.now.numbers ≡ length members.now.atoms }
    ensures { IfOk result (λ places. (i : ℕ) → Contains places i ↔ IsInner members.now number atoms.now i) }
{
    let mut places = Seq::new(alloc);
    for a in atoms {
        if let Some(place) = inner_place(members, number, *a) {
            places.push(place)?;
        }
    }
    Ok(places)
}

/// The place of a rule's head, where that is a member.
fn head_place(members: &Members, rule: &GroundRule) -> Option<usize>
    requires { IsStrictlyIncreasing members.now.atoms }
    ensures { MatchOption result
        ((h : ℕ) → rule.now.head ≡ Some h → ¬ Contains members.now.atoms h)
        (IsHeadAt members.now rule.now) }
{
    match rule.head {
        Some(head) => place_in(members.atoms.as_slice(), head.0),
        None => None,
    }
}

/// What the rule with the head in this place says of the members of the component of its head.
fn support_at(
    alloc: Global,
    members: &Members,
    rule: &GroundRule,
    c: &Complete,
    place: usize,
) -> Result<Support, OutOfMemory>
    requires rising { IsStrictlyIncreasing members.now.atoms }
    requires numbered { length members.now.numbers ≡ length members.now.atoms }
    requires body { Contains c.now.things (body (body_of rule.now)) }
    requires head { IsHeadAt members.now rule.now place }
    ensures { IfOk result (IsSupportBy c.now.things members.now rule.now) }
{
    let number = members.numbers.as_slice()[place];
    let inner = inner_places(alloc, members, number, rule.pos.as_slice())?;
    let body = c.body_of(rule)?;
    Ok(Support {
        head: place,
        body,
        inner,
    })
}

/// The rules whose heads are members.
fn supports_of(
    alloc: Global,
    members: &Members,
    rules: &[GroundRule],
    c: &Complete,
) -> Result<Seq<Support>, OutOfMemory>
    requires rising { IsStrictlyIncreasing members.now.atoms }
    requires numbered { length members.now.numbers ≡ length members.now.atoms }
    requires bodies { All (λ rule. Contains c.now.things (body (body_of rule))) rules.now }
    ensures { IfOk result (AreSupports c.now.things members.now rules.now) }
{
    let mut supports = Seq::new(alloc);
    for rule in rules {
        if let Some(place) = head_place(members, rule) {
            let support = support_at(alloc, members, rule, c, place)?;
            supports.push(support)?;
        }
    }
    Ok(supports)
}

/// The variables of atoms.
fn vars_of(alloc: Global, atoms: &[u32], c: &Complete) -> Result<Numbers, OutOfMemory>
    requires { All (λ a. Contains c.now.things (atom a)) atoms.now }
    ensures { IfOk result (AreVars c.now.things atoms.now) }
{
    let mut vars = Seq::with_capacity(alloc, atoms.len())?;
    for a in atoms {
        vars.push(c.thing_of(AtomId(*a)))?;
    }
    Ok(vars)
}

/// The part of a module with these members.
pub(crate) fn part_of(
    alloc: Global,
    members: Members,
    rules: &[GroundRule],
    c: &Complete,
) -> Result<Part, OutOfMemory>
    requires rising { IsStrictlyIncreasing members.atoms }
    requires numbered { length members.numbers ≡ length members.atoms }
    requires atoms { All (λ a. Contains c.now.things (atom a)) members.atoms }
    requires bodies { All (λ rule. Contains c.now.things (body (body_of rule))) rules.now }
    ensures { IfOk result (IsPartOf c.now.things members rules.now) }
{
    let atoms = vars_of(alloc, members.atoms.as_slice(), c)?;
    let supports = supports_of(alloc, &members, rules, c)?;
    Ok(Part {
        atoms,
        numbers: members.numbers,
        supports,
    })
}

/// The part of a module, or none exactly where no component is cyclic.
pub(crate) fn part_of_module(
    alloc: Global,
    m: &GroundModule,
    c: &Complete,
) -> Result<Option<Part>, OutOfMemory>
    requires well_formed { IsWellFormed m.now.first_new m.now }
    requires heads { All (λ a. Contains c.now.things (atom a)) m.now.heads }
    requires bodies { All (λ rule. Contains c.now.things (body (body_of rule))) m.now.rules }
    ensures { IfOk result (λ found. MatchOption found (HasNoMember m.now) (IsPartOfModule c.now.things m.now)) }
{
    let members = cyclic_heads(alloc, m)?;
    if members.atoms.is_empty() {
        return Ok(None);
    }
    let part = part_of(alloc, members, m.rules.as_slice(), c)?;
    Ok(Some(part))
}
