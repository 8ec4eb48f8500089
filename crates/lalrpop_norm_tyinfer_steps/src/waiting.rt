//! The worklist of a round: indices of rules to visit.
ghost use Rattle.std.specs.Prelude.{◌≡◌, ◌==◌, ◌||◌, ◌++◌, ◌∷◌, [], ℕ, true, false, IfOk, OnOk, MatchOption, if◌then◌else◌};
ghost use Rattle.std.specs.Bool.{OnTrue, OnFalse};
ghost use Rattle.std.specs.List.Sorted.{IsStrictlyIncreasing};
ghost use Rattle.lalrpop_norm_theory.specs.Rounds.{In};

use lalrpop_norm_tree::grammar::parse_tree::NoMemory;
use std::alloc::Global;
use std::collections::{BTreeSet, VecDeque};

/// The worklist: the indices of the rules that are to be visited.
// At first all indices come in rising order: a queue costs less than a set.
#[derive(Drop)]
pub struct Waiting {
    /// Those that came in rising order.
    queue: VecDeque<usize>,
    /// The others.
    others: BTreeSet<usize>,
    ghost rising: { IsStrictlyIncreasing queue.items },
}

impl Waiting {
    ghost use Rattle.lalrpop_norm_tyinfer_steps.specs.Waiting.{has, is_queued, IsLeast, TakesLeast};

    /// The empty worklist.
    pub fn new(alloc: Global) -> Waiting
        ensures { (k : ℕ) → has result k ≡ false }
    {
        Waiting {
            queue: VecDeque::new(alloc),
            others: BTreeSet::new(alloc),
        }
    }

    /// A worklist of these indices.
    pub fn of(alloc: Global, places: &[usize]) -> Result<Waiting, NoMemory>
        ensures all { IfOk result (λ p. (k : ℕ) → In k places.now → has p k ≡ true) }
        ensures only { IfOk result (λ p. (k : ℕ) → has p k ≡ true → In k places.now) }
    {
        let mut waiting = Waiting::new(alloc);
        for place in places {
            waiting.add(*place)?;
        }
        Ok(waiting)
    }

    /// Whether there is none.
    pub fn is_empty(&self) -> bool
        ensures none { OnTrue result ((k : ℕ) → has self.now k ≡ false) }
        ensures some { OnFalse result ((k : ℕ) × (has self.now k ≡ true)) }
    {
        self.least().is_none()
    }

    /// Adds an index.
    pub fn add(&mut self, place: usize) -> Result<(), NoMemory>
        ensures { OnOk result ((k : ℕ) → has self.new k ≡ ((place == k) || has self.old k)) }
    {
        if self.is_behind(place) {
            self.queue.push_back(place)?;
            return Ok(());
        }
        self.others.insert(place)?;
        Ok(())
    }

    /// Whether the index is greater than each in the queue.
    fn is_behind(&self, place: usize) -> bool
        ensures { OnTrue result (IsStrictlyIncreasing (self.now.queue.items ++ place ∷ [])) }
    {
        match self.queue.back() {
            Some(last) => *last < place,
            None => true,
        }
    }

    /// Takes the least index out, if there is one.
    pub fn take_least(&mut self) -> Option<usize>
        ensures { MatchOption result ((k : ℕ) → has self.old k ≡ false) (TakesLeast self.old self.new) }
    {
        let least = self.least();
        if let Some(place) = least {
            self.dequeue(place);
            self.others.remove(&place);
        }
        least
    }

    /// The least index, if there is one.
    fn least(&self) -> Option<usize>
        ensures { MatchOption result ((k : ℕ) → has self.now k ≡ false) (IsLeast self.now) }
    {
        match (self.queue.front(), self.others.first()) {
            (Some(first), Some(other)) => Some((*first).min(*other)),
            (Some(first), None) => Some(*first),
            (None, other) => other.copied(),
        }
    }

    /// Takes the least index out of the queue, if it is there.
    fn dequeue(&mut self, least: usize)
        requires { IsLeast self.old least }
        ensures queue { (k : ℕ) → is_queued self.new.queue.items k ≡ (if least == k then false else is_queued self.old.queue.items k) }
        ensures others { self.new.others ≡ self.old.others }
    {
        let Some(first) = self.queue.front() else {
            return;
        };
        if *first == least {
            self.queue.pop_front();
        }
    }
}
