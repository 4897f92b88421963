//! The runs of a script, one after another.
use crate::due::is_as_due;
use crate::left::start_of;
use crate::stage::{Benches, EACH, ONCE, Stage};
use crate::stopping::play_each;
use crate::tally::Tally;
use crate::telling::Case;
use anyhow::Result;
use case_script::{Due, Once, Run};

/// Runs each case of a script, and counts it.
pub fn play(rt: &HostRuntime, path: &str, runs: &[Run], tally: &mut Tally) -> Result<()> {
    let mut before = None;
    for run in runs {
        let met = play_case(rt, path, run, &mut before)?;
        tally.count(met, run.differs);
    }
    Ok(())
}

// Whether what is due of a case came. The benches that it leaves stay for the next one.
fn play_case(
    rt: &HostRuntime,
    path: &str,
    run: &Run,
    before: &mut Option<Benches>,
) -> Result<bool> {
    let name = Case { script: path, run };
    let start = start_of(rt.alloc(), run, before)?;
    let start = &start;
    match &run.due {
        Due::Each(law) => {
            let most = EACH;
            play_each(rt, name, Stage { run, start, most }, law)
        }
        Due::Once(once) => {
            let most = ONCE;
            play_once(rt, name, Stage { run, start, most }, once, before)
        }
    }
}

// Whether what is due of a run came. Its benches then stand for those before.
fn play_once(
    rt: &HostRuntime,
    name: Case,
    stage: Stage,
    once: &Once,
    before: &mut Option<Benches>,
) -> Result<bool> {
    let end = stage.run(rt.alloc(), stage.start, &once.exchange, once.failures)?;
    let met = is_as_due(rt, name, stage.start, once, &end);
    *before = Some(end.benches);
    met
}
