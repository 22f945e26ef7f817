//! Ranks of waits, or a circle of them. No proof rests on these functions.
use crate::lock_order::{HeldWait, Obstacle};
use crate::setting::Setting;
use crate::wait_place::WaitPlace;
use std::alloc::{AllocError, Global};
use step_search::Budget;

/// Ranks of waits: each is above the waits that it may hold up, as far as there are such ranks.
#[derive(Drop)]
pub(crate) struct Ranking {
    /// The rank at each place of each program, or 0.
    pub(crate) ranks: Vec<Vec<usize>>,
    /// For each wait whether it has a rank.
    is_ranked: Vec<bool>,
}

impl Ranking {
    /// Gives ranks until the budget ends: a wait gets the next one once all waits that it may hold up have theirs.
    pub(crate) fn of<B: Budget>(
        alloc: Global,
        setting: Setting,
        waits: &[WaitPlace],
        budget: &mut B,
    ) -> Result<Ranking, AllocError> {
        let mut ranking = Ranking {
            ranks: no_ranks(alloc, setting)?,
            is_ranked: vec![in alloc; false; waits.len()]?,
        };
        let mut below = below_each(alloc, setting, waits, budget)?;
        let mut next = free_waits(alloc, below.as_slice())?;
        for rank in 0..waits.len() {
            let Some(at) = next.get(rank).copied() else {
                break;
            };
            if !budget.lasts(rank) {
                break;
            }
            ranking.give(waits, at, rank);
            lower(setting, waits, at, &mut below, &mut next)?;
        }
        Ok(ranking)
    }

    /// Gives a wait its rank.
    fn give(&mut self, waits: &[WaitPlace], at: usize, rank: usize) {
        let Some(wait) = waits.get(at) else {
            return;
        };
        if at < self.is_ranked.len() {
            self.is_ranked[at] = true;
        }
        if wait.program < self.ranks.len() {
            let ranks = &mut self.ranks[wait.program];
            if wait.place < ranks.len() {
                ranks[wait.place] = rank;
            }
        }
    }

    /// Adds two waits that may hold up each other, if there are two, or else another circle among those without a rank.
    pub(crate) fn add_circle<B: Budget>(
        &self,
        alloc: Global,
        setting: Setting,
        waits: &[WaitPlace],
        found: &mut Vec<Obstacle>,
        budget: &mut B,
    ) -> Result<(), AllocError> {
        let left = self.left(alloc, waits)?;
        for first in &left {
            if !budget.lasts(left.len()) {
                return Ok(());
            }
            if let Some(second) = opposite(setting, left.as_slice(), *first) {
                found.push(obstacle(*first, second))?;
                if second != *first {
                    found.push(obstacle(second, *first))?;
                }
                return Ok(());
            }
        }
        add_longer_circle(setting, left.as_slice(), found, budget)
    }

    /// Returns the waits without a rank: each is in a circle, or may hold up another wait without one.
    fn left(&self, alloc: Global, waits: &[WaitPlace]) -> Result<Vec<WaitPlace>, AllocError> {
        let mut left = Vec::new(alloc);
        for at in 0..waits.len() {
            if !self.is_ranked.get(at).copied().unwrap_or(true) {
                left.push(waits[at])?;
            }
        }
        Ok(left)
    }
}

/// Returns the first wait that may hold up this one and may be held up by it.
fn opposite(setting: Setting, left: &[WaitPlace], wait: WaitPlace) -> Option<WaitPlace> {
    left.iter()
        .find(|other| setting.may_be_held_up(wait, **other)
            && setting.may_be_held_up(**other, wait))
        .copied()
}

/// Adds the waits of a circle, if there is one.
fn add_longer_circle<B: Budget>(
    setting: Setting,
    left: &[WaitPlace],
    found: &mut Vec<Obstacle>,
    budget: &mut B,
) -> Result<(), AllocError> {
    let Some(some) = left.first() else {
        return Ok(());
    };
    let mut first = *some;
    for _ in 0..left.len() {
        if !budget.lasts(left.len()) {
            return Ok(());
        }
        first = before(setting, left, first);
    }
    let mut wait = first;
    for _ in 0..left.len() {
        if !budget.lasts(left.len()) {
            return Ok(());
        }
        let next = before(setting, left, wait);
        found.push(obstacle(wait, next))?;
        if next == first {
            break;
        }
        wait = next;
    }
    Ok(())
}

/// Returns the first wait that this one may hold up, or this one if there is none.
fn before(setting: Setting, left: &[WaitPlace], wait: WaitPlace) -> WaitPlace {
    match left
        .iter()
        .find(|other| setting.may_be_held_up(**other, wait))
    {
        Some(other) => *other,
        None => wait,
    }
}

/// Returns a rank of 0 for each place.
fn no_ranks(alloc: Global, setting: Setting) -> Result<Vec<Vec<usize>>, AllocError> {
    let mut ranks = Vec::with_capacity(alloc, setting.known.len())?;
    for held in setting.known {
        ranks.push(vec![in alloc; 0usize; held.len()]?)?;
    }
    Ok(ranks)
}

/// Returns for each wait how many waits it may hold up.
fn below_each<B: Budget>(
    alloc: Global,
    setting: Setting,
    waits: &[WaitPlace],
    budget: &mut B,
) -> Result<Vec<usize>, AllocError> {
    let mut below = Vec::with_capacity(alloc, waits.len())?;
    for wait in waits {
        if !budget.lasts(below.len()) {
            break;
        }
        below.push(
            waits
                .iter()
                .filter(|other| setting.may_be_held_up(**other, *wait))
                .count(),
        )?;
    }
    Ok(below)
}

/// Counts a wait off from those that it may be held up by, and adds each that it was the last for.
fn lower(
    setting: Setting,
    waits: &[WaitPlace],
    at: usize,
    below: &mut Vec<usize>,
    next: &mut Vec<usize>,
) -> Result<(), AllocError> {
    let Some(wait) = waits.get(at) else {
        return Ok(());
    };
    for other in 0..waits.len() {
        if other < below.len() && setting.may_be_held_up(*wait, waits[other]) {
            below[other] = below[other].saturating_sub(1);
            if below[other] == 0 {
                next.push(other)?;
            }
        }
    }
    Ok(())
}

/// Returns the waits that may hold up none.
fn free_waits(alloc: Global, below: &[usize]) -> Result<Vec<usize>, AllocError> {
    let mut free = Vec::new(alloc);
    for at in 0..below.len() {
        if below[at] == 0 {
            free.push(at)?;
        }
    }
    Ok(free)
}

/// Returns a wait as an obstacle: the party holds the lock that the other one wants.
fn obstacle(wait: WaitPlace, other: WaitPlace) -> Obstacle {
    Obstacle::Waits(HeldWait {
        party: wait.program,
        place: wait.place,
        held: other.lock,
        wanted: wait.lock,
    })
}
