ghost use Rattle.std.specs.Prelude.{◌≡◌, ◌<◌, ◌≤◌, IfNone, IfSome, None, length};
ghost use Rattle.ms_lits.specs.Assignment.{value_in};
ghost use Rattle.ms_search.specs.Engines.{AllAssigned};

use ms_lits::{Lit, OutOfMemory, Trail};
use std::alloc::Global;
use std::collections::BinaryHeap;

/// How much a variable that was resolved upon gains at first.
const FIRST_GAIN: u64 = 1 << 10;

/// Where the gain reaches this, the activities and the gain are scaled down.
const GREATEST: u64 = 1 << 56;

/// A variable, ranked by the activity that it had when it was ranked.
#[derive(Clone, Copy, PartialEq, Eq, PartialOrd, Ord)]
struct Rank {
    activity: u64,
    var: u32,
}

/// Which variable is decided next, and its sign: the one with the most activity, and the truth that it had
/// last, or false.
#[derive(Drop)]
pub(crate) struct Choice {
    alloc: Global,
    /// Each unassigned variable has a rank here by its present activity, and there may be others.
    ranks: BinaryHeap<Rank>,
    activities: Vec<u64>,
    signs: Vec<bool>,
    gain: u64,
}

impl Choice {
    pub(crate) fn new(alloc: Global) -> Choice {
        Choice {
            alloc,
            ranks: BinaryHeap::new(alloc),
            activities: Vec::new(alloc),
            signs: Vec::new(alloc),
            gain: FIRST_GAIN,
        }
    }

    /// Takes in variables up to this number.
    pub(crate) fn grow(&mut self, vars: u32) -> Result<(), OutOfMemory> {
        let known = self.signs.len();
        self.signs.resize(known.max(vars as usize), false)?;
        self.activities.resize(known.max(vars as usize), 0)?;
        self.rank_all()
    }

    /// A variable was resolved upon.
    pub(crate) fn bump(&mut self, var: u32) -> Result<(), OutOfMemory> {
        if let Some(activity) = self.activities.get_mut(var as usize) {
            *activity = activity.saturating_add(self.gain);
        }
        self.rank(var)
    }

    /// These variables were resolved upon at a conflict.
    pub(crate) fn learn(&mut self, resolved: &[u32]) -> Result<(), OutOfMemory> {
        for var in resolved {
            self.bump(*var)?;
        }
        self.decay()
    }

    /// A conflict was looked at: what was bumped before counts for less from now on.
    pub(crate) fn decay(&mut self) -> Result<(), OutOfMemory> {
        self.gain = self.gain.saturating_add(self.gain / 16);
        if self.gain < GREATEST {
            return Ok(());
        }
        for activity in self.activities.iter_mut() {
            *activity /= GREATEST / FIRST_GAIN;
        }
        self.gain = FIRST_GAIN;
        self.rank_all()
    }

    /// A variable became free, and had this truth.
    pub(crate) fn free(&mut self, lit: Lit) -> Result<(), OutOfMemory> {
        if let Some(sign) = self.signs.get_mut(lit.var as usize) {
            *sign = lit.truth;
        }
        self.rank(lit.var)
    }

    /// The literal to decide, or None where each variable below this number is assigned.
    pub(crate) fn next(&mut self, trail: &Trail, vars: u32) -> Option<Lit>
        requires { vars ≤ trail.now.room }
        ensures within { IfSome result (λ lit. lit.var < vars) }
        ensures free { IfSome result (λ lit. value_in trail.now.entries lit.var ≡ None) }
        ensures none { IfNone result (AllAssigned vars trail.now.entries) }
    {
        while let Some(rank) = self.ranks.pop() {
            if rank.var < vars && trail.value(rank.var).is_none() {
                return Some(self.literal(rank.var));
            }
        }
        if trail.len() >= trail.room() as usize {
            return None;
        }
        let var = first_free(trail, vars)?;
        Some(self.literal(var))
    }

    fn literal(&self, var: u32) -> Lit
        ensures { result.var ≡ var }
    {
        let truth = self.signs.get(var as usize).copied().unwrap_or(false);
        Lit { var, truth }
    }

    fn rank(&mut self, var: u32) -> Result<(), OutOfMemory> {
        let activity = self.activities.get(var as usize).copied().unwrap_or(0);
        self.ranks.push(Rank { activity, var })?;
        if self.ranks.len() / 8 > self.activities.len() {
            self.rank_all()?;
        }
        Ok(())
    }

    /// Ranks all variables anew.
    fn rank_all(&mut self) -> Result<(), OutOfMemory> {
        self.ranks = BinaryHeap::new(self.alloc);
        let mut var = 0;
        for activity in self.activities.iter() {
            self.ranks.push(Rank {
                activity: *activity,
                var,
            })?;
            var = var.saturating_add(1);
        }
        Ok(())
    }
}

/// The least unassigned variable, or None where each below this number is assigned.
fn first_free(trail: &Trail, vars: u32) -> Option<u32>
    requires { vars ≤ trail.now.room }
    ensures within { IfSome result (λ var. var < vars) }
    ensures free { IfSome result (λ var. value_in trail.now.entries var ≡ None) }
    ensures none { IfNone result (AllAssigned vars trail.now.entries) }
{
    for var in 0..vars {
        if trail.value(var).is_none() {
            return Some(var);
        }
    }
    None
}
