//! The record of a bench's calls, in memory that is taken at its start.
ghost use Rattle.std.specs.Prelude.{◌≡◌, ◌<◌, ◌≤◌, ◌+◌, ◌++◌, ◌∷◌, [], ℕ, length, IfOk};
ghost use Rattle.std.specs.Vec.{vec_len, vec_capacity};
ghost use Rattle.bench_core.specs.Machine.{wrote, unwritten, synced, sending, other};
ghost use Rattle.bench_core.specs.LogContents.{LogContents};

use audit_types::NoMemory;
use std::alloc::Global;
use std::marker::Model;

/// A call. The piece that it wrote or sent stands among the pieces written, or among the bytes sent.
#[derive(Clone, Copy)]
pub enum Past {
    Wrote {
        at: usize,
        from: usize,
        count: usize,
    },
    Unwritten {
        at: usize,
        count: usize,
    },
    Synced,
    Sent {
        from: usize,
        count: usize,
    },
    Other,
}

/// The calls in order, with their pieces.
#[derive(Drop)]
pub struct Log {
    past: Vec<Past>,
    pieces: Vec<u8>,
    sent: Vec<u8>,
    most_calls: usize,
    most_written: usize,
    most_sent: usize,
}

impl Model for Log {
    ghost use Rattle.std.specs.Prelude.{◌≤◌, length, map};
    ghost use Rattle.std.specs.List.{AllByRecursion};
    ghost use Rattle.std.specs.Vec.{vec_capacity};
    ghost use Rattle.bench_core.specs.LogContents.{LogContents, call_of, IsKept};

    ghost Value = { LogContents };

    ghost view = { λ l. record { calls = map (call_of l.pieces.items l.sent.items) l.past.items; written = length l.pieces.items; sent = l.sent.items; most_calls = l.most_calls; most_written = l.most_written; most_sent = l.most_sent } };

    ghost invariant = { λ l. (l.most_calls ≤ vec_capacity l.past) × (l.most_written ≤ vec_capacity l.pieces) × (l.most_sent ≤ vec_capacity l.sent) × AllByRecursion (IsKept (length l.pieces.items) (length l.sent.items)) l.past.items };
}

// Keeps a call, for which there is room.
fn keep(past: &mut Vec<Past>, call: Past)
    requires { vec_len past.old < vec_capacity past.old }
    ensures items { past.new.items ≡ past.old.items ++ call ∷ [] }
    ensures capacity { vec_capacity past.old ≤ vec_capacity past.new }
{
    let _ = past.push(call);
}

impl Log {
    /// No call, and room for so many calls and bytes.
    pub fn new(
        alloc: Global,
        most_calls: usize,
        most_written: usize,
        most_sent: usize,
    ) -> Result<Self, NoMemory>
        ensures { IfOk result (λ log. log ≡ record { calls = []; written = 0; sent = []; most_calls = most_calls; most_written = most_written; most_sent = most_sent }) }
    {
        let past = Vec::with_capacity(alloc, most_calls)?;
        let pieces = Vec::with_capacity(alloc, most_written)?;
        let sent = Vec::with_capacity(alloc, most_sent)?;
        Ok(Log {
            past,
            pieces,
            sent,
            most_calls,
            most_written,
            most_sent,
        })
    }

    /// The bytes sent.
    pub fn sent(&self) -> &[u8]
        ensures { result.now ≡ self.now.sent }
    {
        &self.sent
    }

    /// The number of bytes of the pieces written.
    pub fn written(&self) -> usize
        ensures { result ≡ self.now.written }
    {
        self.pieces.len()
    }

    /// A sync.
    pub fn sync(&mut self)
        requires { length self.old.calls < self.old.most_calls }
        ensures { self.new ≡ record self.old { calls = self.old.calls ++ synced ∷ [] } }
    {
        keep(&mut self.past, Past::Synced);
    }

    /// A call that changes nothing.
    pub fn pass(&mut self)
        requires { length self.old.calls < self.old.most_calls }
        ensures { self.new ≡ record self.old { calls = self.old.calls ++ other ∷ [] } }
    {
        keep(&mut self.past, Past::Other);
    }

    /// A write that failed.
    pub fn touch(&mut self, at: usize, count: usize)
        requires { length self.old.calls < self.old.most_calls }
        ensures { self.new ≡ record self.old { calls = self.old.calls ++ unwritten at count ∷ [] } }
    {
        keep(&mut self.past, Past::Unwritten { at, count });
    }

    /// A write.
    pub fn write(&mut self, at: usize, piece: &[u8])
        requires calls { length self.old.calls < self.old.most_calls }
        requires room { self.old.written + length piece.now ≤ self.old.most_written }
        ensures { self.new ≡ record self.old { calls = self.old.calls ++ wrote at piece.now ∷ []; written = self.old.written + length piece.now } }
    {
        let from = self.pieces.len();
        let _ = self.pieces.extend_from_slice(piece);
        let count = piece.len();
        keep(&mut self.past, Past::Wrote { at, from, count });
    }

    /// A piece that was sent.
    pub fn send(&mut self, piece: &[u8])
        requires calls { length self.old.calls < self.old.most_calls }
        requires room { length self.old.sent + length piece.now ≤ self.old.most_sent }
        ensures { self.new ≡ record self.old { calls = self.old.calls ++ sending piece.now ∷ []; sent = self.old.sent ++ piece.now } }
    {
        let from = self.sent.len();
        let _ = self.sent.extend_from_slice(piece);
        let count = piece.len();
        keep(&mut self.past, Past::Sent { from, count });
    }
}
