//! The programs of a plan's rows, and the lines of their places.
use crate::alike::{Rows, alike_rows, is_copy, rows_of};
use crate::places::places_of;
use crate::tree::{Group, Tree};
use lock_plan::{Act, ProgramPlace, Signal};
use plan_lines::{Counter, LineAt, Origin, Origins};
use std::alloc::{AllocError, Global};

/// The programs of the rows: the parties, and then the counters. Parties of one line share a program.
#[derive(Drop)]
pub struct Programs {
    programs: Vec<Vec<ProgramPlace>>,
    /// The line of each place of each program.
    lines: Vec<Vec<LineAt>>,
    pub(crate) origins: Origins,
    /// The number of each row's program.
    numbers: Vec<usize>,
}

impl Programs {
    ghost use Rattle.std.specs.Prelude.{map, IfOk};
    ghost use Rattle.lock_plan.specs.Copies.{AreAlike};

    pub(crate) fn new(alloc: Global) -> Programs {
        Programs {
            programs: Vec::new(alloc),
            lines: Vec::new(alloc),
            origins: Origins::new(alloc),
            numbers: Vec::new(alloc),
        }
    }

    /// Elaborates a tree into the programs of all rows.
    pub(crate) fn add_all(&mut self, alloc: Global, tree: &Tree) -> Result<(), AllocError> {
        self.origins.add_all(alloc, &tree.origins)?;
        for group in &tree.groups {
            let places = places_of(alloc, tree, group.nodes.as_slice())?;
            let (places, lines) = (places.places.as_slice(), places.lines.as_slice());
            self.add_parties(alloc, tree, group, places, lines)?;
        }
        self.add_counters(alloc, tree.names.counters.as_slice())
    }

    /// Adds the rows of counters, after those of the parties.
    pub(crate) fn add_counters(
        &mut self,
        alloc: Global,
        counters: &[Counter],
    ) -> Result<(), AllocError> {
        for counter in counters {
            let number = self.programs.len();
            self.programs.push(values(alloc, *counter)?)?;
            self.lines.push(Vec::new(alloc))?;
            self.numbers.push(number)?;
        }
        Ok(())
    }

    /// Adds so many parties, which share a program.
    pub(crate) fn add_shared(
        &mut self,
        places: Vec<ProgramPlace>,
        lines: Vec<LineAt>,
        parties: usize,
    ) -> Result<(), AllocError> {
        let number = self.programs.len();
        self.programs.push(places)?;
        self.lines.push(lines)?;
        for _party in 0..parties {
            self.numbers.push(number)?;
        }
        Ok(())
    }

    /// Adds the parties of a line, with these places.
    fn add_parties(
        &mut self,
        alloc: Global,
        tree: &Tree,
        group: &Group,
        places: &[ProgramPlace],
        lines: &[LineAt],
    ) -> Result<(), AllocError> {
        let shared = self.programs.len();
        self.programs.push(Vec::from_slice(alloc, places)?)?;
        self.lines.push(Vec::from_slice(alloc, lines)?)?;
        for party in 0..group.count {
            let number = if tree.is_started(group.first.saturating_add(party)) {
                self.add_started(alloc, places, lines)?
            } else {
                shared
            };
            self.numbers.push(number)?;
        }
        Ok(())
    }

    /// Adds a program that begins where the party waits to be started.
    fn add_started(
        &mut self,
        alloc: Global,
        places: &[ProgramPlace],
        lines: &[LineAt],
    ) -> Result<usize, AllocError> {
        let number = self.programs.len();
        self.programs.push(started(alloc, places)?)?;
        let mut numbers = vec![in alloc; lines.first().copied().unwrap_or(LineAt::alone(0))]?;
        numbers.extend_from_slice(lines)?;
        self.lines.push(numbers)?;
        Ok(number)
    }

    /// Returns how many rows there are.
    pub fn rows(&self) -> usize {
        self.numbers.len()
    }

    /// Returns the places of a row.
    pub fn places(&self, row: usize) -> &[ProgramPlace] {
        let number = self.numbers.get(row).copied().unwrap_or(0);
        match self.programs.get(number) {
            Some(program) => program.as_slice(),
            None => &[],
        }
    }

    /// Returns where a row's place comes from. Past the last place it is line 0.
    pub fn origin(&self, row: usize, place: usize) -> Origin<'_> {
        let number = self.numbers.get(row).copied().unwrap_or(0);
        let line = match self.lines.get(number) {
            Some(lines) => lines.get(place).copied(),
            None => None,
        };
        Origin::new(line.unwrap_or(LineAt::alone(0)), &self.origins)
    }

    /// Returns whether a row is a copy of the row before it.
    pub(crate) fn is_copy(&self, servers: &[bool], row: usize) -> bool {
        is_copy(self.numbers.as_slice(), servers, row)
    }

    /// Makes the program of each row.
    pub fn all(&self, alloc: Global) -> Result<Vec<Vec<ProgramPlace>>, AllocError> {
        rows_of(alloc, self.programs.as_slice(), self.numbers.as_slice())
    }

    /// Makes the program of each row, and finds the copies.
    pub(crate) fn alike(&self, alloc: Global, servers: &[bool]) -> Result<Rows, AllocError>
        ensures { IfOk result (λ rows. AreAlike (map (λ v. v.items) rows.0.items) servers.now rows.1.items) }
    {
        alike_rows(
            alloc,
            self.programs.as_slice(),
            self.numbers.as_slice(),
            servers,
        )
    }
}

/// Makes the program of a counter: a place for each value, from the first one upward, and then from 0.
fn values(alloc: Global, counter: Counter) -> Result<Vec<ProgramPlace>, AllocError> {
    let mut program = Vec::new(alloc);
    let count = counter.values();
    for place in 0..count {
        let after = |steps: usize| place.saturating_add(steps).checked_rem(count).unwrap_or(0);
        program.push(ProgramPlace {
            act: Act::Signal(Signal::Idle(counter.value(place))),
            next: after(1),
            other: after(counter.most),
        })?;
    }
    Ok(program)
}

/// Makes the program of a party that is started, with these places after the one where it waits for its start.
fn started(alloc: Global, places: &[ProgramPlace]) -> Result<Vec<ProgramPlace>, AllocError> {
    let idle = ProgramPlace {
        act: Act::Signal(Signal::Idle(0)),
        next: 1,
        other: 1,
    };
    let mut program = vec![in alloc; idle]?;
    for place in places {
        program.push(ProgramPlace {
            act: place.act,
            next: place.next.saturating_add(1),
            other: place.other.saturating_add(1),
        })?;
    }
    Ok(program)
}
