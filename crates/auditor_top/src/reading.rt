//! Reads a source to its end, or past a limit.
ghost use Rattle.std.specs.Prelude.{◌≡◌, IfOk, Err};
ghost use Rattle.auditor_top.specs.Reading.{ReadsAll, TellsRead};

use bench_core::{Failed, Source};
use std::alloc::Global;

const PIECE: usize = 4096;

/// Why a source wasn't read.
#[derive(Drop)]
pub enum ReadFault {
    /// The source failed.
    Failed,
    /// Memory ran out.
    NoMemory,
}

/// Reads all bytes of a source, or stops after more than `most`.
pub fn read_all<P: Source>(alloc: Global, source: &mut P, most: usize) -> Result<Vec<u8>, ReadFault>
    ensures bytes { P.told → IfOk result (λ v. ReadsAll most (P.left source.old) (P.left source.new) v.items) }
    ensures fault { TellsRead P.Source most source.old source.new (result ≡ Err ReadFault.Failed) }
{
    let mut bytes = Vec::new(alloc);
    let mut piece = [0u8; PIECE];
    while bytes.len() <= most {
        match source.read(&mut piece) {
            Ok(0) => return Ok(bytes),
            Ok(count) => match bytes.extend_from_slice(&piece[..count]) {
                Ok(()) => {}
                Err(_) => return Err(ReadFault::NoMemory),
            },
            Err(Failed) => return Err(ReadFault::Failed),
        }
    }
    Ok(bytes)
}
