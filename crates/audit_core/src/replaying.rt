//! The audit of a history that is at hand: each record's question is judged again after the records before it.
ghost use Rattle.std.specs.Prelude.{◌≡◌, ◌↔◌, ◌≤◌, ◌++◌, [], ◌∷◌, length, All, IfOk, IfErr, IsTrue, OnOk};
ghost use Rattle.audit_types.specs.Shapes.{IsShape};
ghost use Rattle.audit_types.specs.Limits.{most_records};
ghost use Rattle.audit_types.specs.declared.records.Verdict.TheVariants.{Released};
ghost use Rattle.audit_types.specs.History.{FitsShape, AreProtected, IsJudgementAfter, setting_of};
ghost use Rattle.audit_core.specs.Released.{IsJudgedReleased, ReplayCause, TellsUnreleased, WereReleased};

use crate::all_columns::Core;
use audit_types::{Answered, Asked, Guard, NoMemory, Shape, Verdict};
use std::alloc::Global;
use sum_basis::laws::sets_have_one_form;

/// Why a history wasn't gone on from.
#[derive(Clone, Copy, PartialEq, Eq)]
pub enum ReplayFault {
    /// The first record, from 0, whose question was not to be released, and the place in the schema of the first protected group that
    /// alone keeps it from being, if it would be released with no group protected.
    Unreleased { place: u32, group: Option<u8> },
    NoMemory,
}

impl From<NoMemory> for ReplayFault {
    ghost use Rattle.audit_core.specs.declared.replaying.ReplayFault.TheVariants.{NoMemory};

    ghost from_gives = { λ _ e. e ≡ NoMemory };

    fn from(_e: NoMemory) -> ReplayFault {
        ReplayFault::NoMemory
    }
}

// Whether a question is released after the records of the core.
fn is_released(core: &mut Core, asked: &Asked) -> Result<bool, NoMemory>
    requires { FitsShape core.old.setting.shape asked.now.column asked.now.rows }
    ensures judged { IfOk result (λ released. IsTrue released ↔ IsJudgementAfter core.old.setting core.old.history asked.now.column asked.now.rows.list Released) }
    ensures same { core.new ≡ core.old }
{
    sets_have_one_form();
    match core.weigh(asked)? {
        Verdict::Released => Ok(true),
        Verdict::DeniedUnsafe => Ok(false),
        Verdict::DeniedWide => Ok(false),
    }
}

// Takes a record again, if its question is released after those of the core.
fn take_again(core: &mut Core, place: u32, answered: &Answered) -> Result<(), ReplayFault>
    requires { FitsShape core.old.setting.shape answered.now.column answered.now.rows }
    ensures released { OnOk result (IsJudgedReleased core.old.setting core.old.history answered.now) }
    ensures takes { OnOk result (core.new ≡ record core.old { history = core.old.history ++ answered.now ∷ [] }) }
    ensures err { IfErr result (TellsUnreleased core.old place answered.now) }
{
    let asked = Asked {
        column: answered.column,
        rows: answered.rows,
    };
    if !is_released(core, &asked)? {
        let group = core.blame(&asked)?;
        return Err(ReplayFault::Unreleased { place, group });
    }
    core.take(answered)?;
    Ok(())
}

/// The audit of a history, if each record's question is judged as released after the records before it. That is all that may be seen of a
/// history without a secret: no answer is held to be true. What is guarded is dropped with a refusal.
pub fn replay(
    alloc: Global,
    shape: Shape,
    protected: Guard,
    list: &[Answered],
) -> Result<Core, ReplayFault>
    requires valid { IsShape shape }
    requires protected { AreProtected shape protected }
    requires fit { All (λ r. FitsShape shape r.column r.rows) list.now }
    requires few { length list.now ≤ most_records }
    ensures core { IfOk result (λ core. core ≡ record { setting = setting_of shape protected; history = list.now }) }
    ensures released { OnOk result (WereReleased (setting_of shape protected) list.now) }
    ensures cause { IfErr result (λ fault. ReplayCause fault (setting_of shape protected) list.now) }
{
    let mut core = Core::new(alloc, shape, protected)?;
    for (place, answered) in list.iter().enumerate() {
        take_again(&mut core, place as u32, answered)?;
    }
    Ok(core)
}
