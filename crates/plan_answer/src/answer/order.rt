//! The answer of a look for an order of the locks.
use lock_plan_order::{LockOrder, Obstacle};
use plan_text::{Names, Programs};
use std::alloc::{AllocError, Global};

/// Makes the text of the order of the locks, or that no waits make a circle, or of the lines that are in the way.
pub(crate) fn order_text(
    alloc: Global,
    names: &Names,
    lines: &Programs,
    order: &LockOrder,
) -> Result<String, AllocError> {
    let mut text = String::new(alloc);
    match order {
        LockOrder::Kept(locks) => write_kept(&mut text, names, locks.as_slice())?,
        LockOrder::NoCircle => text.push_str("no deadlock, no circle of waits\n")?,
        LockOrder::Broken(obstacles) => {
            text.push_str("no order\n")?;
            for obstacle in obstacles {
                write_obstacle(&mut text, names, lines, *obstacle)?;
            }
            if names.has_many() {
                text.push_str("give a number in place of * to search all interleavings\n")?;
            }
        }
    }
    Ok(text)
}

/// Appends the order of the locks.
fn write_kept(text: &mut String, names: &Names, locks: &[usize]) -> Result<(), AllocError> {
    text.push_str("no deadlock, in order:")?;
    let mut gap = " ";
    for lock in locks {
        write!(text, "{gap}{}", names.lock(*lock))?;
        gap = ", ";
    }
    text.push('\n')
}

/// Appends the line of an obstacle.
fn write_obstacle(
    text: &mut String,
    names: &Names,
    lines: &Programs,
    obstacle: Obstacle,
) -> Result<(), AllocError> {
    match obstacle {
        Obstacle::Waits(wait) => {
            let line = lines.origin(wait.party, wait.place);
            let party = names.party(wait.party);
            let (wanted, held) = (names.lock(wait.wanted), names.lock(wait.held));
            writeln!(
                text,
                "line {line}: {party} waits for {wanted} while it holds {held}"
            )
        }
        Obstacle::TooManyWaits => {
            text.push_str("more than 4096 waits: only an order of the locks is looked for\n")
        }
        Obstacle::Uncovered(party, place) if names.is_party(party) => {
            let line = lines.origin(party, place);
            writeln!(
                text,
                "line {line}: an order covers no upgrade, announcement or signal"
            )
        }
        Obstacle::Uncovered(row, _) => {
            writeln!(text, "an order covers no {}", names.kind_word(row))
        }
        Obstacle::Ends(party, lock) => {
            let (party, lock) = (names.party(party), names.lock(lock));
            writeln!(text, "{party} ends while it holds {lock}")
        }
        Obstacle::Unfit(lock) => {
            let lock = names.lock(lock);
            writeln!(text, "{lock}: no machine of guards is such a lock")
        }
    }
}
