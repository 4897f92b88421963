//! What is due of a run beside what came.
use crate::leaving::leaves_files;
use crate::left::Files;
use crate::stage::End;
use crate::telling::{Bytes, Case, no_memory};
use anyhow::Result;
use auditor_top::{Status, status_code, status_text};
use case_script::Once;

/// Whether all that was due of a run over these files came; each difference is printed.
pub fn is_as_due(
    rt: &HostRuntime,
    name: Case,
    start: &Files,
    once: &Once,
    end: &End,
) -> Result<bool> {
    let mut met = ends(rt, name, once, &end.status)?;
    met &= name.agrees(
        rt,
        "sent",
        &Bytes(&once.exchange.shown),
        &Bytes(end.benches.journal.sent()),
    )?;
    met &= leaves_files(rt, name, start, once, &end.benches)?;
    met &= calls(rt, name, "calls", once.calls, end.benches.journal.calls())?;
    met &= calls(
        rt,
        name,
        "spare's calls",
        once.spare_calls,
        end.benches.spare.calls(),
    )?;
    Ok(met)
}

// Whether a run ends with the status that is due, and its text.
fn ends(rt: &HostRuntime, name: Case, once: &Once, status: &Status) -> Result<bool> {
    let has_code = name.agrees(rt, "status", &once.status, &status_code(status))?;
    let text = status_text(rt.alloc(), status).map_err(no_memory)?;
    let has_text = name.agrees(rt, "text", &once.text, &text)?;
    Ok(has_code && has_text)
}

// Whether so many calls of a bench were due.
fn calls(rt: &HostRuntime, name: Case, what: &str, due: Option<u64>, came: u64) -> Result<bool> {
    match due {
        Some(due) => name.agrees(rt, what, &due, &came),
        None => Ok(true),
    }
}
