//! A report as text.
ghost use Rattle.std.specs.Prelude.{◌≡◌, ◌++◌, IfOk, OnOk, string_bytes};
ghost use Rattle.std.specs.List.{flat_map};
ghost use Rattle.lock_conform.specs.Texts.{entry_text, raw_call_lines, report_text};

use crate::report::{Report, ReportEntry};
use lock_machine::Reply;
use lock_recorder::RawCall;
use lock_script::{Answer, write_answer};
use std::alloc::{AllocError, Global};

/// Returns the answers, a line each, as `lockreplay` prints them. If `prints_calls` is set, a line for each raw call
/// follows, which begins with two spaces.
pub fn write_report(
    alloc: Global,
    report: &Report,
    prints_calls: bool,
) -> Result<String, AllocError>
    ensures { IfOk result (λ text. string_bytes text ≡ report_text prints_calls report.now) }
{
    let mut text = String::new(alloc);
    write_answer(&mut text, Answer::Reply(Reply::Done))?;
    write_entries(&mut text, &report.entries, prints_calls)?;
    write_raw_calls(&mut text, &report.last_calls, prints_calls)?;
    Ok(text)
}

/// Appends the answers, each with the raw calls of its line.
fn write_entries(
    text: &mut String,
    entries: &[ReportEntry],
    prints_calls: bool,
) -> Result<(), AllocError>
    ensures { OnOk result (string_bytes text.new
        ≡ string_bytes text.old ++ flat_map (entry_text prints_calls) entries.now) }
{
    for entry in entries {
        write_answer(text, Answer::Reply(entry.reply))?;
        write_raw_calls(text, &entry.raw_calls, prints_calls)?;
    }
    Ok(())
}

/// Appends a line for each raw call, if they are printed.
fn write_raw_calls(
    text: &mut String,
    calls: &[RawCall],
    prints_calls: bool,
) -> Result<(), AllocError>
    ensures { OnOk result (string_bytes text.new
        ≡ string_bytes text.old ++ raw_call_lines prints_calls calls.now) }
{
    if prints_calls {
        for call in calls {
            call.write_line(text)?;
        }
    }
    Ok(())
}
