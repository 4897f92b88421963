//! What is due of a run.
use crate::keys::Keys;
use crate::law::Law;
use crate::once::Once;
use anyhow::Result;

/// What is due of a run.
#[derive(Drop)]
pub enum Due {
    /// It is made once.
    Once(Once),
    /// It is made with a fault at each call of an object in turn, until one is done.
    Each(Law),
}

impl Due {
    pub(crate) fn of(rt: &HostRuntime, common: Keys, run: Keys) -> Result<Due> {
        match run.table("each", &Law::KEYS)? {
            Some(each) => Ok(Due::Each(Law::of(rt, run, each)?)),
            None => Ok(Due::Once(Once::of(rt, common, run)?)),
        }
    }
}
