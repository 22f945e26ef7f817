//! The memory of the machine.
use std::fs;
use std::rt::Files;

/// The default where the machine does not tell its memory.
const GIBIBYTE: usize = 1 << 30;

/// Returns half of the memory that the machine, or the control group of this program, has, in bytes.
pub(crate) fn half_of_memory<R: Files + AllocGlobal>(rt: &R) -> usize {
    let machine = told_by(rt, "/proc/meminfo");
    let group = told_by(rt, "/sys/fs/cgroup/memory.max");
    match (machine, group) {
        (None, None) => GIBIBYTE,
        (machine, group) => machine
            .unwrap_or(usize::MAX)
            .min(group.unwrap_or(usize::MAX))
            / 2,
    }
}

/// Returns how many bytes the first line of a file tells, if it does.
fn told_by<R: Files + AllocGlobal>(rt: &R, path: &str) -> Option<usize> {
    let text = fs::read_to_string(rt, path).ok()?;
    bytes_in(text.lines().next()?)
}

/// Returns how many bytes a line tells: a number, or `MemTotal:`, a number of KiB and `kB`.
fn bytes_in(line: &str) -> Option<usize> {
    match line.strip_prefix("MemTotal:") {
        None => line.trim().parse().ok(),
        Some(rest) => {
            let kibibytes: usize = rest.strip_suffix("kB")?.trim().parse().ok()?;
            kibibytes.checked_mul(1024)
        }
    }
}
