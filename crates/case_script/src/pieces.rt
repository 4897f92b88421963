//! A source in memory of pieces that are given many times each, for inputs that are longer than memory should hold.
ghost use Rattle.std.specs.Prelude.{◌≡◌, ◌≤◌, [], length, IfOk};
ghost use Rattle.bench_core.specs.Causes.{HasCause};

use bench_core::{Failed, Source};
use std::alloc::{AllocError, Global};

/// Bytes, so many times one after another.
#[derive(Drop)]
pub struct Piece {
    pub bytes: Vec<u8>,
    pub times: u64,
}

impl Piece {
    pub(crate) fn once(bytes: Vec<u8>) -> Piece {
        Piece { bytes, times: 1 }
    }

    // Whether it gives no byte.
    pub(crate) fn is_empty(&self) -> bool {
        self.times == 0 || self.bytes.is_empty()
    }

    fn append_to(&self, bytes: &mut Vec<u8>) -> Result<(), AllocError> {
        for _ in 0..self.times {
            bytes.extend_from_slice(&self.bytes)?;
        }
        Ok(())
    }
}

/// All the bytes, one piece after another.
pub(crate) fn whole(alloc: Global, pieces: &[Piece]) -> Result<Vec<u8>, AllocError> {
    let mut bytes = Vec::new(alloc);
    for piece in pieces {
        piece.append_to(&mut bytes)?;
    }
    Ok(bytes)
}

/// Gives its pieces in order, at most so many bytes at a read, up to the first that is empty. The call of one number, from
/// 0, fails.
#[derive(Drop)]
pub struct Pieces<'a> {
    pieces: &'a [Piece],
    // The place of the piece that is given, how often it was given, and how many of its bytes since then.
    place: usize,
    given: u64,
    from: usize,
    most: usize,
    failing: Option<u64>,
    calls: u64,
    faults: u64,
    last_failed: bool,
}

impl<'a> Pieces<'a> {
    /// A source of these pieces.
    pub fn new(pieces: &'a [Piece], most: usize, failing: Option<u64>) -> Self {
        Pieces {
            pieces,
            place: 0,
            given: 0,
            from: 0,
            most,
            failing,
            calls: 0,
            faults: 0,
            last_failed: false,
        }
    }

    // Gives bytes of one piece, and none only at the end.
    fn give_some(&mut self, buf: &mut [u8]) -> usize
        ensures within { result ≤ length buf.new }
        ensures faults { (self.new.faults ≡ self.old.faults) × (self.new.last_failed ≡ self.old.last_failed) }
    {
        let Some(piece) = self.pieces.get(self.place) else {
            return 0;
        };
        let Some(rest) = piece.bytes.get(self.from..) else {
            return 0;
        };
        let count = rest.len().min(buf.len());
        buf[..count].copy_from_slice(&rest[..count]);
        if count < rest.len() {
            self.from += count;
            return count;
        }
        self.from = 0;
        self.given = self.given.saturating_add(1);
        if self.given >= piece.times {
            self.given = 0;
            self.place = self.place.saturating_add(1);
        }
        count
    }

    // Gives bytes until the buffer is full or the pieces end.
    fn give(&mut self, buf: &mut [u8]) -> usize
        ensures within { result ≤ length buf.new }
        ensures faults { (self.new.faults ≡ self.old.faults) × (self.new.last_failed ≡ self.old.last_failed) }
    {
        let mut count = 0;
        while count < buf.len() {
            match self.give_some(&mut buf[count..]) {
                0 => break,
                more => count += more,
            }
        }
        count
    }
}

impl Source for Pieces<'_> {
    ghost told = { ⊥ };

    ghost left = { λ _. [] };

    ghost faults = { λ s. s.faults };

    ghost last_failed = { λ s. s.last_failed };

    fn read(&mut self, buf: &mut [u8]) -> Result<usize, Failed> {
        let call = self.calls;
        self.calls = call.saturating_add(1);
        if self.failing == Some(call) {
            self.faults = self.faults.saturating_add(1);
            self.last_failed = true;
            return Err(Failed);
        }
        self.last_failed = false;
        let most = self.most.min(buf.len());
        Ok(self.give(&mut buf[..most]))
    }
}
