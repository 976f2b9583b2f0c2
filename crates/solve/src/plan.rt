// What solving hands back.
use crate::verdict::Verdict;
use cells::Cell;
use refusal::Refusal;
use std::marker::PhantomData;

/// A plan: the final cells of a board's positions at the front of a list, and what was solved.
/// Only solving makes one, and it is closed, not copied or dropped.
pub struct Plan<'a, C> {
    pub(crate) cells: &'a [Cell],
    // kept: a count beside the list, since the whole list is given back.
    pub(crate) count: u32,
    pub(crate) start: u32,
    pub(crate) rounds: u32,
    pub(crate) budget: (u32, u32),
    pub(crate) verdict: Verdict,
    pub(crate) kind: PhantomData<C>,
}

/// Why a board was not solved, with the list that the plan would have kept.
#[derive(Drop)]
pub struct Unsolved<'a> {
    pub why: Refusal,
    pub cells: &'a mut [Cell],
}
