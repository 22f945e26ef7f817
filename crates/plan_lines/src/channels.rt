//! Channels without room, and channels that are closed: each has counters beside the one of its items.
//!
//! A receive from a channel that may be closed waits for a token: each item has one, and so has the close. If no item is
//! there, the token is that of the close, and goes back for the next receive.
use crate::counter::CounterKind;
use crate::fault::TextFault;
use crate::forms::Role;
use crate::line::{Line, Text, Written};
use crate::line_list::LineList;
use crate::reading::number;
use crate::rows::MOST;
use crate::templates::{Filling, Template, filled};
use crate::words::NameSet;
use indexmap::IndexSet;
use itoa::Buffer;
use std::alloc::{AllocError, Global};
use std::mem::replace;

/// Which channels have a line of a template, and what the line is.
#[derive(Clone, Copy, PartialEq, Eq)]
enum Of {
    /// A line of each channel.
    Each,
    /// A line of channels without room.
    Offered,
    /// A line of channels that may be closed.
    Closed,
    /// The first line of a block, with the counter of tokens behind the channel.
    Head,
    /// A line that no channel has.
    None,
}

type Templates = &'static [(Of, Template)];

static CHANNEL: [(Of, Template); 5] = [
    (Of::Each, &["channel", "@", "#"]),
    (Of::Offered, &["counter", "@.turn", "1", "=", "1"]),
    (Of::Offered, &["counter", "@.ack", "1"]),
    (Of::Closed, &["counter", "@.any", "#+1"]),
    (Of::Closed, &["flag", "@.closed"]),
];

/// A sender has its turn until its own item is received, so no other sender goes on in its place.
static SEND: [(Of, Template); 6] = [
    (Of::Closed, &["assert", "not", "@.closed"]),
    (Of::Offered, &["take", "@.turn"]),
    (Of::Each, &["send", "@"]),
    (Of::Closed, &["add", "@.any"]),
    (Of::Offered, &["take", "@.ack"]),
    (Of::Offered, &["add", "@.turn"]),
];

static TRY_SEND: [(Of, Template); 3] = [
    (Of::Closed, &["assert", "not", "@.closed"]),
    (Of::Each, &["try", "send", "@"]),
    (Of::Closed, &["add", "@.any"]),
];

static TRY_OFFER: [(Of, Template); 1] = [(Of::None, &["try", "send", "@"])];

static RECEIVE: [(Of, Template); 2] = [
    (Of::Each, &["receive", "@"]),
    (Of::Offered, &["add", "@.ack"]),
];

static TRY_RECEIVE: [(Of, Template); 2] = [
    (Of::Each, &["try", "receive", "@"]),
    (Of::Offered, &["add", "@.ack"]),
];

static RECEIVE_OR_CLOSED: [(Of, Template); 6] = [
    (Of::Closed, &["take", "@.any"]),
    (Of::Each, &["try", "receive", "@"]),
    (Of::Offered, &["add", "@.ack"]),
    (Of::Closed, &["else"]),
    (Of::Closed, &["add", "@.any"]),
    (Of::Closed, &["end"]),
];

static TRY_RECEIVE_OR_CLOSED: [(Of, Template); 2] = [
    (Of::Head, &["try", "receive", "@", "@.any"]),
    (Of::Offered, &["add", "@.ack"]),
];

static IF_RECEIVE: [(Of, Template); 2] = [
    (Of::Head, &["if", "receive", "@", "@.any"]),
    (Of::Offered, &["add", "@.ack"]),
];

static WHILE_RECEIVE: [(Of, Template); 2] = [
    (Of::Head, &["while", "receive", "@", "@.any"]),
    (Of::Offered, &["add", "@.ack"]),
];

static CLOSE: [(Of, Template); 3] = [
    (Of::Closed, &["assert", "not", "@.closed"]),
    (Of::Closed, &["set", "@.closed"]),
    (Of::Closed, &["add", "@.any"]),
];

/// A channel: whether it has no room, and whether it may be closed.
#[derive(Clone, Copy)]
struct Channel {
    is_offered: bool,
    is_closed: bool,
}

/// The channels so far.
#[derive(Drop)]
struct Channels {
    /// The names of the channels that some line closes, or receives from until they are closed.
    closed: NameSet,
    names: NameSet,
    channels: Vec<Channel>,
    made: LineList,
}

/// Puts the lines of channels without room, and of channels that may be closed, in the place of theirs.
pub(crate) fn with_channels(
    alloc: Global,
    text: &mut Text,
    lines: &[Line],
) -> Result<Vec<Line>, TextFault> {
    let closed = closed(alloc, text, lines)?;
    let mut channels = Channels {
        closed,
        names: IndexSet::new(alloc),
        channels: Vec::new(alloc),
        made: LineList::new(alloc),
    };
    channels.take_all(alloc, text, lines)
}

/// Returns the names of the channels that some line closes, or receives from until they are closed.
fn closed(alloc: Global, text: &Text, lines: &[Line]) -> Result<NameSet, AllocError> {
    let mut names: NameSet = IndexSet::new(alloc);
    for line in lines {
        let name = match (role_of(text, *line), text.fields(*line)) {
            (Some(Role::Close), [_, name]) => *name,
            (Some(Role::If | Role::While), [_, word, name]) if is_move(text, *word, false) => *name,
            _ => continue,
        };
        names.insert_full(name)?;
    }
    Ok(names)
}

fn role_of(text: &Text, line: Line) -> Option<Role> {
    let word = text.fields(line).first()?;
    text.words.form(*word).map(|form| form.2)
}

/// Returns whether a word is that of a send, or of a receive.
fn is_move(text: &Text, word: usize, is_up: bool) -> bool {
    let form = text.words.form(word);
    form.is_some_and(|form| form.2 == Role::Move(CounterKind::Channel, is_up))
}

impl Channels {
    /// Adds all lines, and takes what is written out.
    fn take_all(
        &mut self,
        alloc: Global,
        text: &mut Text,
        lines: &[Line],
    ) -> Result<Vec<Line>, TextFault> {
        for line in lines {
            self.add(alloc, text, *line)?;
        }
        Ok(replace(&mut self.made.lines, Vec::new(alloc)))
    }

    fn add(&mut self, alloc: Global, text: &mut Text, line: Line) -> Result<(), TextFault> {
        if let (Some(Role::Counter(CounterKind::Channel)), [_, name, room]) = (
            role_of(text, line),
            text.fields(line),
        ) {
            let (name, room) = (*name, *room);
            return self.declare(alloc, text, line, (name, room));
        }
        let Some((name, channel)) = self.channel_of(text, line) else {
            return self.made.push(line);
        };
        let filling = Filling {
            name,
            number: name,
            next: name,
        };
        match call_templates(text, line, channel) {
            None => self.made.push(line),
            Some(templates) => self.write(alloc, text, line, (templates, channel, filling)),
        }
    }

    /// Adds the lines of the line that declares a channel.
    fn declare(
        &mut self,
        alloc: Global,
        text: &mut Text,
        line: Line,
        named: (usize, usize),
    ) -> Result<(), TextFault> {
        let (name, room) = named;
        let Some(items) = number(text.words.text(room)).filter(|_| text.words.is_name(name)) else {
            return self.made.push(line);
        };
        let items = items as u64;
        let channel = Channel {
            is_offered: items == 0,
            is_closed: items < MOST && self.closed.contains(&name),
        };
        let most = items.max(1);
        let mut digits = Buffer::new();
        let number = text.words.number(alloc, digits.format(most))?;
        let next = text
            .words
            .number(alloc, digits.format(most.saturating_add(1)))?;
        let (_, is_new) = self.names.insert_full(name)?;
        if is_new {
            self.channels.push(channel)?;
        }
        let filling = Filling { name, number, next };
        self.write(alloc, text, line, (&CHANNEL, channel, filling))
    }

    /// Adds the lines of templates that a channel has, in the place of a line.
    fn write(
        &mut self,
        alloc: Global,
        text: &mut Text,
        line: Line,
        what: (Templates, Channel, Filling),
    ) -> Result<(), TextFault> {
        let (templates, channel, filling) = what;
        for (of, template) in templates {
            let written = match *of {
                Of::Offered if !channel.is_offered => continue,
                Of::Closed if !channel.is_closed => continue,
                Of::Head => Written::Block,
                Of::None => Written::Refused,
                _ => Written::No,
            };
            let made = filled(alloc, text, line, *template, filling)?;
            self.made.push(Line { written, ..made })?;
        }
        Ok(())
    }

    /// Returns the channel that a line calls, if it has more than the counter of its items.
    fn channel_of(&self, text: &Text, line: Line) -> Option<(usize, Channel)> {
        let name = *text.fields(line).last()?;
        let channel = self.channels.get(self.names.get_index_of(&name)?)?;
        if channel.is_offered || channel.is_closed {
            Some((name, *channel))
        } else {
            None
        }
    }
}

/// Returns the templates of a line that calls a channel, or `None` for another line.
fn call_templates(text: &Text, line: Line, channel: Channel) -> Option<Templates> {
    let is_closed = channel.is_closed;
    match (role_of(text, line)?, text.fields(line)) {
        (Role::Move(CounterKind::Channel, true), [_, _]) => Some(&SEND),
        (Role::Move(CounterKind::Channel, false), [_, _]) if is_closed => Some(&RECEIVE_OR_CLOSED),
        (Role::Move(CounterKind::Channel, false), [_, _]) => Some(&RECEIVE),
        (Role::Try, [_, word, _]) if is_move(text, *word, true) => {
            Some(if channel.is_offered {
                &TRY_OFFER
            } else {
                &TRY_SEND
            })
        }
        (Role::Try, [_, word, _]) if is_move(text, *word, false) => {
            Some(if is_closed {
                &TRY_RECEIVE_OR_CLOSED
            } else {
                &TRY_RECEIVE
            })
        }
        (Role::Close, [_, _]) if is_closed => Some(&CLOSE),
        (Role::If, [_, word, _]) if is_closed && is_move(text, *word, false) => Some(&IF_RECEIVE),
        (Role::While, [_, word, _]) if is_closed && is_move(text, *word, false) => {
            Some(&WHILE_RECEIVE)
        }
        _ => None,
    }
}
