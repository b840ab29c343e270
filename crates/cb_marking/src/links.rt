//! Sorts of linked things: each link passes sorts on, both ways.

ghost use Rattle.std.specs.Prelude.{◌≡◌, ◌<◌, ◌∷◌, ◌++◌, [], ℕ, Contains, OnOk, IfOk, MatchResult, length, replicate, get_or, slice_set, false};
ghost use Rattle.cb_model.specs.declared.Sort.TheVariants as sort;
ghost use Rattle.cb_marking.specs.Marks.{IsWithin, AreSorts, Stops};
ghost use Rattle.cb_marking.specs.Search.{IsTable, HasStarts, Visited, Reaches, one_of};

use crate::terms::is_sort;
use cb_model::Sort;
use sqlite_items::Items;
use std::alloc::{AllocError, Global};

/// Links between numbered things, and the sorts that some things are given.
#[derive(Drop)]
pub(crate) struct Links {
    /// Pairs of linked things.
    pub edges: Items<(usize, usize)>,
    /// Things, each with a sort that it is given.
    pub given: Items<(usize, Sort)>,
}

/// Why there is not one sort for each thing.
#[derive(Clone, Copy, PartialEq, Eq, Debug, Drop)]
pub enum Stop {
    /// One thing has two sorts.
    Clash,
    /// There was no memory left.
    Memory,
}

/// No thing is seen.
fn none(alloc: Global, things: usize) -> Result<Items<bool>, AllocError>
    ensures { IfOk result (λ seen. seen ≡ replicate things false) }
{
    let seen = Vec::from_elem(alloc, false, things)?;
    Ok(Items::from_vec(seen))
}

/// Lets a thing be seen; where it wasn't yet, it waits.
fn visit(seen: &mut Items<bool>, waiting: &mut Items<usize>, thing: usize) -> Result<(), AllocError>
    requires { thing < length seen.old }
    ensures { OnOk result (Visited (thing ∷ []) seen.old waiting.old seen.new waiting.new) }
{
    if seen.as_slice()[thing] {
        return Ok(());
    }
    seen.set(thing, true);
    waiting.push(thing)
}

/// Lets things be seen; those that weren't yet wait.
fn visit_all(
    seen: &mut Items<bool>,
    waiting: &mut Items<usize>,
    things: &[usize],
) -> Result<(), AllocError>
    requires { (x : ℕ) → Contains things.now x → x < length seen.old }
    ensures { OnOk result (Visited things.now seen.old waiting.old seen.new waiting.new) }
{
    for thing in things {
        visit(seen, waiting, *thing)?;
    }
    Ok(())
}

/// A table of things that are not linked.
fn unlinked(alloc: Global, things: usize) -> Result<Vec<Items<usize>>, AllocError>
    ensures { IfOk result (λ table. IsTable [] things table.items) }
{
    let mut table = Vec::new(alloc);
    for _ in 0..things {
        table.push(Items::new(alloc))?;
    }
    Ok(table)
}

/// Puts one thing among those that another is linked with.
fn put(table: &mut Vec<Items<usize>>, thing: usize, other: usize) -> Result<(), AllocError>
    requires { thing < length table.old.items }
    ensures { OnOk result (table.new.items ≡ slice_set table.old.items thing (get_or table.old.items thing [] ++ other ∷ [])) }
{
    table[thing].push(other)
}

/// What a thing is linked with.
fn row(table: &[Items<usize>], thing: usize) -> &[usize]
    requires { thing < length table.now }
    ensures { result.now ≡ get_or table.now thing [] }
{
    table[thing].as_slice()
}

/// The one sort of three marks; `None` where there are two.
fn one_sort(is_bool: bool, is_bus: bool, is_term: bool) -> Option<Sort>
    ensures { result ≡ one_of is_bool is_bus is_term }
{
    match (is_bool, is_bus, is_term) {
        (true, false, false) => Some(Sort::Bool),
        (false, true, false) => Some(Sort::Bus),
        (false, false, _) => Some(Sort::Term),
        _ => None,
    }
}

/// For each sort the things that have it.
#[derive(Drop)]
struct Marks {
    bools: Items<bool>,
    buses: Items<bool>,
    terms: Items<bool>,
}

impl Marks {
    /// The one sort of a thing, `Term` where it has none; `None` where it has two.
    fn sort(&self, thing: usize) -> Option<Sort>
        requires bools { thing < length self.now.bools }
        requires buses { thing < length self.now.buses }
        requires terms { thing < length self.now.terms }
        ensures { result ≡ one_of (get_or self.now.bools thing false) (get_or self.now.buses thing false) (get_or self.now.terms thing false) }
    {
        one_sort(
            self.bools.as_slice()[thing],
            self.buses.as_slice()[thing],
            self.terms.as_slice()[thing],
        )
    }
}

impl Links {
    /// No links.
    pub(crate) fn new(alloc: Global) -> Links
        ensures edges { result.edges ≡ [] }
        ensures given { result.given ≡ [] }
    {
        Links {
            edges: Items::new(alloc),
            given: Items::new(alloc),
        }
    }

    /// Links two things.
    pub(crate) fn link(&mut self, thing: usize, other: usize) -> Result<(), AllocError>
        ensures edges { OnOk result (self.new.edges ≡ self.old.edges ++ (thing, other) ∷ []) }
        ensures given { self.new.given ≡ self.old.given }
    {
        self.edges.push((thing, other))
    }

    /// Gives a thing a sort.
    pub(crate) fn give(&mut self, thing: usize, sort: Sort) -> Result<(), AllocError>
        ensures edges { self.new.edges ≡ self.old.edges }
        ensures given { OnOk result (self.new.given ≡ self.old.given ++ (thing, sort) ∷ []) }
    {
        self.given.push((thing, sort))
    }

    /// The things that are given a sort.
    fn starts(&self, alloc: Global, sort: Sort) -> Result<Items<usize>, AllocError>
        ensures { IfOk result (HasStarts self.now.given sort) }
    {
        let mut starts = Items::new(alloc);
        for (thing, given) in self.given.as_slice() {
            if is_sort(*given, sort) {
                starts.push(*thing)?;
            }
        }
        Ok(starts)
    }

    /// The table of what each thing is linked with.
    fn table(&self, alloc: Global, things: usize) -> Result<Vec<Items<usize>>, AllocError>
        requires { IsWithin self.now things }
        ensures { IfOk result (λ table. IsTable self.now.edges things table.items) }
    {
        let mut table = unlinked(alloc, things)?;
        for (thing, other) in self.edges.as_slice() {
            put(&mut table, *thing, *other)?;
            put(&mut table, *other, *thing)?;
        }
        Ok(table)
    }

    /// The things that have a sort: each is seen once, and passes it on once.
    fn reached(
        &self,
        alloc: Global,
        table: &[Items<usize>],
        sort: Sort,
    ) -> Result<Items<bool>, AllocError>
        requires table { IsTable self.now.edges (length table.now) table.now }
        requires within { IsWithin self.now (length table.now) }
        ensures { IfOk result (Reaches self.now sort (length table.now)) }
    {
        let starts = self.starts(alloc, sort)?;
        let mut seen = none(alloc, table.len())?;
        let mut waiting = Items::new(alloc);
        visit_all(&mut seen, &mut waiting, starts.as_slice())?;
        while let Some(thing) = waiting.pop() {
            visit_all(&mut seen, &mut waiting, row(table, thing))?;
        }
        Ok(seen)
    }

    /// For each sort the things that have it.
    fn spread(&self, alloc: Global, things: usize) -> Result<Marks, AllocError>
        requires { IsWithin self.now things }
        ensures bools { IfOk result (λ m. Reaches self.now sort.Bool things m.bools) }
        ensures buses { IfOk result (λ m. Reaches self.now sort.Bus things m.buses) }
        ensures terms { IfOk result (λ m. Reaches self.now sort.Term things m.terms) }
    {
        let table = self.table(alloc, things)?;
        let bools = self.reached(alloc, &table, Sort::Bool)?;
        let buses = self.reached(alloc, &table, Sort::Bus)?;
        let terms = self.reached(alloc, &table, Sort::Term)?;
        Ok(Marks {
            bools,
            buses,
            terms,
        })
    }

    /// The sort of each of the first things, to which all that is linked or given a sort belongs: the one that it has,
    /// or `Term` where it has none. The time is near linear in the number of things, links and given sorts.
    pub(crate) fn sorts(&self, alloc: Global, things: usize) -> Result<Items<Sort>, Stop>
        requires { IsWithin self.now things }
        ensures { MatchResult result (λ ss. AreSorts self.now things ss) (Stops self.now) }
    {
        let Ok(marks) = self.spread(alloc, things) else {
            return Err(Stop::Memory);
        };
        let mut sorts = Items::new(alloc);
        for thing in 0..things {
            let Some(sort) = marks.sort(thing) else {
                return Err(Stop::Clash);
            };
            let Ok(()) = sorts.push(sort) else {
                return Err(Stop::Memory);
            };
        }
        Ok(sorts)
    }
}
