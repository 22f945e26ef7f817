//! Where the parts of a picture are, in pixels.
use crate::answer::line_mark::write_mark;
use crate::answer::picture::svg::Spot;
use crate::answer::picture::waits::write_reason;
use crate::answer::run::Run;
use crate::answer::source::Source;
use crate::answer::stand::act_at;
use crate::answer::step::write_marked;
use crate::answer::stop::write_awaited;
use std::alloc::AllocError;

/// The sizes that a picture's places follow from. Numbers past the largest are the largest.
#[derive(Clone, Copy)]
pub(crate) struct Layout {
    parties: usize,
    steps: usize,
    /// How many locks have a slot in each column.
    slots: usize,
    /// The letters of the longest text of a column.
    letters: usize,
}

impl Layout {
    /// The width of a bar.
    pub(crate) const BAR: usize = 12;
    /// The width of a bar and of the space at its right.
    pub(crate) const SLOT: usize = 16;
    /// The width of a letter.
    pub(crate) const LETTER: usize = 8;
    /// The height of a step's row.
    const ROW: usize = 24;
    /// The space around a picture.
    const MARGIN: usize = 24;
    /// The first row's place.
    const TOP: usize = 96;
    /// The height of the arrows.
    const ARROWS: usize = 72;
    /// The letters that the text of a picture without steps has at most, and those of the four marks.
    const LINE: usize = 56;

    /// The layout where nothing stops, with so many lines below the answer.
    pub(crate) fn of_none(lines: usize) -> Layout {
        Layout {
            parties: 0,
            steps: lines,
            slots: 0,
            letters: 0,
        }
    }

    /// The layout of a run.
    pub(crate) fn of_run(source: &Source, run: &Run) -> Result<Layout, AllocError> {
        let mut letters = 10;
        for party in 0..source.names.parties() {
            letters = letters.max(source.names.party(party).len());
        }
        for made in &run.steps {
            let mut text = String::new(source.alloc);
            write_marked(&mut text, source, *made)?;
            letters = letters.max(text.len());
        }
        for party in 0..source.names.parties() {
            if let Some(act) = act_at(source.plan, run.last, party) {
                let mut text = String::new(source.alloc);
                write_awaited(&mut text, source, act)?;
                letters = letters.max(text.len());
            }
        }
        for stopped in &source.plan.stopped(source.alloc, run.last)? {
            let mut text = String::new(source.alloc);
            write_mark(&mut text, source, run.last, stopped.party)?;
            write_reason(&mut text, source, stopped)?;
            letters = letters.max(text.len());
        }
        Ok(Layout {
            parties: source.names.parties(),
            steps: run.steps.len(),
            slots: source.plan.locks().len(),
            letters,
        })
    }

    pub(crate) fn width(&self) -> usize {
        let columns = along(Self::MARGIN, self.parties, self.column());
        columns.max(along(Self::MARGIN, Self::LINE, Self::LETTER))
    }

    pub(crate) fn height(&self) -> usize {
        if self.parties == 0 {
            return along(Self::TOP, self.steps, Self::ROW);
        }
        self.stop_line().saturating_add(2 * Self::ROW)
    }

    /// The place of the answer's first word.
    pub(crate) fn title(&self) -> Spot {
        Spot {
            x: Self::MARGIN,
            y: Self::MARGIN,
        }
    }

    /// The place of a line below the answer's first word.
    pub(crate) fn below_title(&self, line: usize) -> Spot {
        Spot {
            x: Self::MARGIN,
            y: along(2 * Self::MARGIN, line, Self::ROW),
        }
    }

    /// The place of a mark in the legend.
    pub(crate) fn legend(&self, place: usize) -> Spot {
        Spot {
            x: along(Self::MARGIN, place, 14 * Self::LETTER),
            y: 36,
        }
    }

    /// The place of a party's name.
    pub(crate) fn head(&self, party: usize) -> Spot {
        Spot {
            x: self.x(party),
            y: 76,
        }
    }

    /// The place of a row on a party's line. Row 0 is before the first step.
    pub(crate) fn life(&self, party: usize, row: usize) -> Spot {
        Spot {
            x: self.x(party),
            y: along(Self::TOP, row, Self::ROW),
        }
    }

    /// The place of the text beside a row.
    pub(crate) fn beside(&self, party: usize, row: usize) -> Spot {
        let life = self.life(party, row);
        Spot {
            x: along(life.x, self.slots, Self::SLOT).saturating_add(Self::BAR),
            y: life.y.saturating_add(4),
        }
    }

    /// The place of a lock's bar at a row.
    pub(crate) fn bar(&self, party: usize, lock: usize, row: usize) -> Spot {
        let life = self.life(party, row);
        Spot {
            x: along(life.x.saturating_add(8), lock, Self::SLOT),
            y: life.y,
        }
    }

    /// The height of a bar over so many rows.
    pub(crate) fn bar_height(rows: usize) -> usize {
        rows.saturating_mul(Self::ROW)
    }

    /// The row below all steps, where the bars of what is still held end.
    pub(crate) fn last_row(&self) -> usize {
        self.steps.saturating_add(1)
    }

    /// The end of a party's line.
    pub(crate) fn end(&self, party: usize) -> Spot {
        self.life(party, self.last_row())
    }

    /// The place of the text of a party that waits.
    pub(crate) fn stop(&self, party: usize) -> Spot {
        Spot {
            x: self.x(party),
            y: self.stop_line(),
        }
    }

    /// Where an arrow begins.
    pub(crate) fn tail(&self, party: usize) -> Spot {
        let stop = self.stop(party);
        Spot {
            x: along(stop.x, 4, Self::LETTER),
            y: stop.y.saturating_sub(Self::BAR),
        }
    }

    /// Where an arrow to the holder of a lock ends.
    pub(crate) fn tip(&self, party: usize, lock: usize) -> Spot {
        let bar = self.bar(party, lock, self.last_row());
        Spot {
            x: bar.x.saturating_add(Self::BAR / 2),
            y: bar.y.saturating_add(2),
        }
    }

    fn stop_line(&self) -> usize {
        along(Self::TOP, self.last_row(), Self::ROW).saturating_add(Self::ARROWS)
    }

    fn x(&self, party: usize) -> usize {
        along(Self::MARGIN, party, self.column())
    }

    /// The width of a column.
    fn column(&self) -> usize {
        let bars = along(Self::MARGIN, self.slots, Self::SLOT);
        along(bars, self.letters, Self::LETTER)
    }
}

/// Returns `start` and so many lengths more.
fn along(start: usize, count: usize, length: usize) -> usize {
    start.saturating_add(count.saturating_mul(length))
}
