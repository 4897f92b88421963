//! Explaining the lines of an input.
ghost use Rattle.std.specs.Prelude.{◌≡◌, [], true, false};
ghost use Rattle.denial_proof.specs.Denied.{IsLegalIn};
ghost use Rattle.set_index.specs.Indexed.{public_setting, public_shape};
ghost use Rattle.line_wire.specs.Talks.{Talks, unrefused};
ghost use Rattle.certificate_lines.specs.Explained.{explanations};

use crate::deciding::write_line;
use crate::provers::Provers;
use audit_core::Core;
use audit_store::Store;
use bench_core::{Bench, Source, Stop};
use question_plan::Planner;
use set_index::Index;
use std::alloc::Global;
use table_load::lists_of_secrets;

// Explains the lines that are still to come.
fn explain_lines<P: Source, B: Bench>(
    alloc: Global,
    planner: &mut Planner,
    index: &Index,
    core: &Core,
    source: &mut P,
    bench: &mut B,
) -> Result<(), Stop>
    requires fresh { (planner.old.taken ≡ 0) × (planner.old.pending ≡ []) × (planner.old.ended ≡ false) }
    requires setting { core.now.setting ≡ public_setting index.now }
    requires legal { IsLegalIn core.now.setting core.now.history }
    ensures { Talks P.Source B.Bench (explanations index.now core.now.history) source.old source.new bench.old bench.new (unrefused result) }
{
    let mut provers = Provers::new();
    let mut line = Vec::new(alloc);
    while let Some(plan) = planner.next(alloc, index, source)? {
        write_line(alloc, core, &plan, &mut provers, &mut line)?;
        bench.send(&line)?;
    }
    Ok(())
}

/// Sends a line for each counted line of the input: the verdict on it after the store's history, and for a denial as unsafe its
/// certificate. Nothing is recorded, so that each line is decided after the same history, and nothing is written.
pub fn explain<P: Source, B: Bench>(
    alloc: Global,
    index: &Index,
    store: &Store,
    source: &mut P,
    bench: &mut B,
) -> Result<(), Stop>
    requires usable { store.now.usable ≡ true }
    requires entries { index.now.protected ≡ store.now.protected }
    requires shape { store.now.secret.shape ≡ public_shape index.now }

    // What is due to the lines is sent, by one call for each and no other. The file isn't touched, at the end and at every moment. It doesn't
    // give up by itself, passes over no failed call, and calls no spare.
    ensures { Talks P.Source B.Bench (explanations index.now store.now.history) source.old source.new bench.old bench.new (unrefused result) }
{
    // A store says of itself that its history is legal.
    let _history = store.history();
    lists_of_secrets();
    let mut planner = Planner::new(alloc)?;
    explain_lines(alloc, &mut planner, index, store.core(), source, bench)
}
