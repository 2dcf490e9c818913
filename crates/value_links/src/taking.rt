// Which operations an operation takes its values from: links by the point that takes, and the times of what was done last at each point.
ghost use Rattle.std.specs.Prelude.{◌≡◌, ◌∷◌, ◌++◌, ◌<◌, [], List, IfOk, OnOk, if◌then◌else◌};
ghost use Rattle.std.specs.Prelude.{nat_le, nat_lt};
ghost use Rattle.value_links.specs.declared.link.Link.{Link as OneLink};
ghost use Rattle.value_links.specs.declared.link.Point.{Point as OnePoint};
ghost use Rattle.value_links.specs.contracts.link.PointPartialEq.TheImpl.{ghosts as points};
ghost use Rattle.value_links.specs.Taken.{Done, taken_at, unless_later, taken_by_links};
ghost use Rattle.value_links.specs.DoneMap.{IsDone, time_in};
ghost use Rattle.value_links.specs.Takings.{IsTaking, along, along_all, links_at, rival_by, with_link};

use crate::link::{Link, Point};
use indexmap::IndexMap;
use prov_base::Memory;
use std::alloc::Global;
use std::marker::Model;

/// Links in a row.
#[derive(Drop)]
pub(crate) struct Links {
    list: Vec<Link>,
}

impl Model for Links {
    ghost use Rattle.std.specs.Prelude.{List};
    ghost use Rattle.value_links.specs.declared.link.Link.{Link as OneLink};

    ghost Value = { List OneLink };

    ghost view = { λ l. l.list.items };
}

impl Links {
    // One link alone.
    fn only(alloc: Global, link: Link) -> Result<Links, Memory>
        ensures { IfOk result (λ links. links ≡ link ∷ []) }
    {
        let mut list = Vec::new(alloc);
        list.push(link)?;
        Ok(Links { list })
    }

    // Puts a link behind the others.
    fn push(&mut self, link: Link) -> Result<(), Memory>
        ensures { OnOk result (self.new ≡ self.old ++ link ∷ []) }
    {
        self.list.push(link)?;
        Ok(())
    }

    // The links.
    fn as_slice(&self) -> &[Link]
        ensures { result.now ≡ self.now }
    {
        self.list.as_slice()
    }
}

/// Links by the point that takes. Contracts see the pairs.
#[derive(Drop)]
pub struct Taking {
    by_point: IndexMap<Point, Links>,
}

impl Model for Taking {
    ghost use Rattle.std.specs.Prelude.{List};
    ghost use Rattle.value_links.specs.declared.link.Link.{Link as OneLink};
    ghost use Rattle.value_links.specs.declared.link.Point.{Point as OnePoint};

    ghost Value = { List (OnePoint × List OneLink) };

    ghost view = { λ t. t.by_point.entries };
}

impl Taking {
    // No links.
    fn new(alloc: Global) -> Taking
        ensures { result ≡ [] }
    {
        Taking {
            by_point: IndexMap::new(alloc),
        }
    }

    // The first link to its point.
    fn put_first(&mut self, alloc: Global, link: Link) -> Result<(), Memory>
        ensures { OnOk result ((p : OnePoint) → links_at self.new p ≡ (if points.eq link.to p then link ∷ [] else links_at self.old p)) }
    {
        self.by_point.insert(link.to, Links::only(alloc, link)?)?;
        Ok(())
    }

    // One more link.
    fn put(&mut self, alloc: Global, link: Link) -> Result<(), Memory>
        ensures { OnOk result ((p : OnePoint) → links_at self.new p ≡ with_link link p (links_at self.old p)) }
    {
        match self.by_point.get_mut(&link.to) {
            Some(links) => links.push(link),
            None => self.put_first(alloc, link),
        }
    }

    /// Links by the point that takes.
    pub fn of(alloc: Global, links: &[Link]) -> Result<Taking, Memory>
        ensures { IfOk result (λ taking. IsTaking links.now taking) }
    {
        let mut taking = Taking::new(alloc);
        for link in links {
            taking.put(alloc, *link)?;
        }
        Ok(taking)
    }

    // The links by which a point takes.
    fn links_to(&self, to: Point) -> &[Link]
        ensures { result.now ≡ links_at self.now to }
    {
        match self.by_point.get(&to) {
            Some(links) => links.as_slice(),
            None => &[],
        }
    }

    /// The times of the operations whose answers an operation with so many values takes.
    pub fn taken(
        &self,
        alloc: Global,
        to: Point,
        count: usize,
        done: &IndexMap<Point, usize>,
    ) -> Result<Vec<usize>, Memory>
        ensures { (links : List OneLink) (list : List Done) → IsTaking links self.now → IsDone done.now.entries list → IfOk result (λ times. times.items ≡ taken_by_links to count list links) }
    {
        taken_along_all(alloc, self.links_to(to), count, done)
    }
}

// The time of what was done last at a point.
fn last(done: &IndexMap<Point, usize>, at: Point) -> Option<usize>
    ensures { result ≡ time_in done.now.entries at }
{
    done.get(&at).copied()
}

// The time of what was done last at the rival of a link.
fn rival(done: &IndexMap<Point, usize>, at: Option<Point>) -> Option<usize>
    ensures { result ≡ rival_by (time_in done.now.entries) at }
{
    match at {
        None => None,
        Some(at) => last(done, at),
    }
}

// Puts a time behind the others, unless the other one is later.
fn put_unless_later(time: usize, other: Option<usize>, times: &mut Vec<usize>) -> Result<(), Memory>
    ensures { OnOk result (times.new.items ≡ times.old.items ++ unless_later time other) }
{
    match other {
        Some(other) if time < other => Ok(()),
        _ => {
            times.push(time)?;
            Ok(())
        }
    }
}

// Puts the time that is taken along a link behind the others, if there is one.
fn take_along(
    link: &Link,
    done: &IndexMap<Point, usize>,
    times: &mut Vec<usize>,
) -> Result<(), Memory>
    ensures { OnOk result (times.new.items ≡ times.old.items ++ along (time_in done.now.entries) link.now) }
{
    match last(done, link.from) {
        None => Ok(()),
        Some(time) => put_unless_later(time, rival(done, link.rival), times),
    }
}

// What is taken along links by an operation with so many values.
fn taken_along_all(
    alloc: Global,
    links: &[Link],
    count: usize,
    done: &IndexMap<Point, usize>,
) -> Result<Vec<usize>, Memory>
    ensures { IfOk result (λ times. times.items ≡ along_all count (time_in done.now.entries) links.now) }
{
    let mut times = Vec::new(alloc);
    for link in links {
        if link.least <= count {
            take_along(link, done, &mut times)?;
        }
    }
    Ok(times)
}
