//! Typing clauses that are blocked until a name has a type.
ghost use Rattle.std.specs.Prelude.{◌≡◌, ◌<◌, ◌≤◌, ◌==◌, ◌||◌, ℕ, true, false, IfOk, OnOk, length, slice_get, Some, None, MatchOption};
ghost use Rattle.lalrpop_norm_theory.specs.Rounds.{In};
ghost use Rattle.lalrpop_norm_tyinfer_steps.specs.declared.needs.Need.{Need};
ghost use Rattle.lalrpop_norm_tyinfer_steps.specs.declared.stops.Stop.{Stop};
ghost use Rattle.lalrpop_norm_tyinfer_steps.specs.Stops.{typed_at, is_typed, AreTypedFrom, IsFirstUntyped, IsStops, NeedsBelow};
ghost use Rattle.lalrpop_norm_tyinfer_steps.specs.Stops.{Seeks, Puts, PutsUnder, TakesOut, MovesOn, GivesType};
ghost use Rattle.lalrpop_norm_tyinfer_steps.specs.Stops.{AreUntyped, AreAtBeginnings, BeginsUntyped};

use crate::needs::Need;
use lalrpop_norm_tree::grammar::parse_tree::NoMemory;
use std::alloc::Global;
use std::mem;

/// Where the search for a name without a type has stopped in a clause.
#[derive(Clone, Copy)]
struct Stop<'n> {
    /// The clause.
    need: &'n Need,
    /// The index of the name among its numbers: all before it have types.
    next: usize,
}

/// Which numbers have types, and under each that has none the clauses that stopped there.
#[derive(Drop)]
pub struct Stops<'n> {
    typed: Vec<bool>,
    stopped: Vec<Vec<Stop<'n>>>,
}

impl<'n> Stops<'n> {
    /// Of so many numbers, none of which has a type, with no clause.
    pub fn new(alloc: Global, count: usize) -> Result<Stops<'n>, NoMemory>
        ensures { IfOk result (λ w. AreUntyped w count) }
    {
        let mut typed = Vec::with_capacity(alloc, count)?;
        let mut stopped = Vec::with_capacity(alloc, count)?;
        for _number in 0..count {
            typed.push(false)?;
            stopped.push(Vec::new(alloc))?;
        }
        Ok(Stops { typed, stopped })
    }

    /// Whether a number has a type.
    pub fn is_typed(&self, number: usize) -> bool
        requires { number < length self.now.typed.items }
        ensures { result ≡ typed_at self.now number }
    {
        self.typed[number]
    }

    /// The first number from an index on that has no type.
    fn first_untyped(&self, numbers: &[Option<usize>], from: usize) -> Option<usize>
        requires { (q : ℕ) → In (Some q) numbers.now → q < length self.now.typed.items }
        ensures { MatchOption result (AreTypedFrom self.now numbers.now from) (IsFirstUntyped self.now numbers.now from) }
    {
        for place in from..numbers.len() {
            match numbers[place] {
                Some(number) => {
                    if !self.is_typed(number) {
                        return Some(place);
                    }
                }
                None => return Some(place),
            }
        }
        None
    }

    /// Puts a clause where its first name from an index on that has no type is; whether there is none.
    fn seek(&mut self, stop: Stop<'n>) -> Result<bool, NoMemory>
        requires stops { IsStops self.old }
        requires fits { NeedsBelow (length self.old.typed.items) stop.need.now }
        ensures { IfOk result (λ all. Seeks self.old self.new stop.entry all) }
    {
        match self.first_untyped(&stop.need.numbers, stop.next) {
            None => Ok(true),
            Some(place) => {
                self.put(stop.need, place)?;
                Ok(false)
            }
        }
    }

    /// Puts a clause into the list of its number at an index, if there is one.
    fn put(&mut self, need: &'n Need, place: usize) -> Result<(), NoMemory>
        requires stops { IsStops self.old }
        requires fits { NeedsBelow (length self.old.typed.items) need.now }
        requires within { place < length need.now.numbers.items }
        ensures { OnOk result (Puts self.old self.new need.now place) }
    {
        match need.numbers[place] {
            Some(number) => self.put_under(number, Stop { need, next: place }),
            None => Ok(()),
        }
    }

    fn put_under(&mut self, number: usize, stop: Stop<'n>) -> Result<(), NoMemory>
        requires { number < length self.old.stopped.items }
        ensures { OnOk result (PutsUnder self.old self.new number stop.entry) }
    {
        self.stopped[number].push(stop)?;
        Ok(())
    }

    /// Takes the clauses that stopped at a number out.
    fn take(&mut self, alloc: Global, number: usize) -> Vec<Stop<'n>>
        requires { number < length self.old.stopped.items }
        ensures { TakesOut self.old self.new number result.items }
    {
        mem::replace(&mut self.stopped[number], Vec::new(alloc))
    }

    /// A number takes a type. The rules of the clauses that have all their types now, and had not before.
    pub fn give_type(&mut self, alloc: Global, number: usize) -> Result<Vec<usize>, NoMemory>
        requires stops { IsStops self.old }
        requires within { number < length self.old.typed.items }
        ensures { IfOk result (λ ready. GivesType self.old self.new number ready.items) }
    {
        self.typed[number] = true;
        let stopped = self.take(alloc, number);
        self.move_on(alloc, &stopped)
    }

    /// Advances clauses from where they stopped. The rules of those that have all their types.
    fn move_on(&mut self, alloc: Global, stopped: &[Stop<'n>]) -> Result<Vec<usize>, NoMemory>
        requires stops { IsStops self.old }
        requires fits { (e : Stop) → In e stopped.now → NeedsBelow (length self.old.typed.items) e.need.now }
        ensures { IfOk result (λ ready. MovesOn self.old self.new stopped.now ready.items) }
    {
        let mut ready = Vec::new(alloc);
        for stop in stopped {
            if self.seek(*stop)? {
                ready.push(stop.need.rule)?;
            }
        }
        Ok(ready)
    }

    /// Lets clauses stop at their first names, while no number has a type. The rules of those that have no name.
    pub fn begin(&mut self, alloc: Global, needs: &'n [Need]) -> Result<Vec<usize>, NoMemory>
        requires untyped { AreUntyped self.old (length self.old.typed.items) }
        requires fits { (n : Need) → In n needs.now → NeedsBelow (length self.old.typed.items) n }
        ensures { IfOk result (λ ready. BeginsUntyped self.new (length self.old.typed.items) needs.now ready.items) }
    {
        let stops = at_beginnings(alloc, needs)?;
        self.move_on(alloc, &stops)
    }
}

/// Clauses at their beginnings.
fn at_beginnings<'n>(alloc: Global, needs: &'n [Need]) -> Result<Vec<Stop<'n>>, NoMemory>
    ensures { IfOk result (λ es. AreAtBeginnings needs.now es.items) }
{
    let mut stops = Vec::with_capacity(alloc, needs.len())?;
    for need in needs {
        stops.push(Stop { need, next: 0 })?;
    }
    Ok(stops)
}
