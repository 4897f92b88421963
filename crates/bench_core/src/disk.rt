//! A file in memory that knows which of its bytes are stable.
ghost use Rattle.std.specs.Prelude.{◌≡◌, ◌<◌, ◌≤◌, ◌+◌, ◌-◌, ◌++◌, ℕ, false, ◌||◌, length, take, drop, IfOk};
ghost use Rattle.bench_core.specs.Machine.{in_range, dirtied, written};
ghost use Rattle.bench_core.specs.DiskContents.{is_dirty};

use audit_types::NoMemory;
use std::alloc::Global;
use std::marker::Model;

/// The file as it reads stands in a buffer of the size of its room, and so do the bytes of the last sync.
#[derive(Drop)]
pub struct Disk {
    file: Vec<u8>,
    len: usize,
    stable: Vec<u8>,
    stable_len: usize,
    dirty: Vec<bool>,
}

impl Model for Disk {
    ghost use Rattle.std.specs.Prelude.{◌≡◌, ◌≤◌, length, take};
    ghost use Rattle.bench_core.specs.DiskContents.{DiskContents};

    ghost Value = { DiskContents };

    ghost view = { λ d. record { file = take d.len d.file.items; stable = take d.stable_len d.stable.items; dirty = d.dirty.items; room = length d.file.items } };

    ghost invariant = { λ d. (d.len ≤ length d.file.items) × (d.stable_len ≤ length d.stable.items) × (length d.stable.items ≡ length d.file.items) × (length d.dirty.items ≡ length d.file.items) };
}

// Writes a piece over what stands at `at`.
fn put(bytes: &mut [u8], at: usize, piece: &[u8])
    requires { at + length piece.now ≤ length bytes.old }
    ensures { bytes.new ≡ written bytes.old at piece.now }
{
    bytes[at..at + piece.len()].copy_from_slice(piece);
}

// Touches the places of a range, as far as there are any.
fn mark(dirty: &mut [bool], at: usize, count: usize)
    requires { at ≤ length dirty.old }
    ensures touched { (place : ℕ) → place < length dirty.old → is_dirty dirty.new place ≡ dirtied (is_dirty dirty.old) at count place }
    ensures len { length dirty.new ≡ length dirty.old }
{
    let left = dirty.len() - at;
    let end = if count < left {
        at + count
    } else {
        dirty.len()
    };
    for place in at..end {
        dirty[place] = true;
    }
}

// Touches none.
fn clear(dirty: &mut [bool])
    ensures clear { (place : ℕ) → is_dirty dirty.new place ≡ false }
    ensures len { length dirty.new ≡ length dirty.old }
{
    for place in 0..dirty.len() {
        dirty[place] = false;
    }
}

// A buffer of the size of the room, with the file at its front.
fn buffer(alloc: Global, file: &[u8], room: usize) -> Result<Vec<u8>, NoMemory>
    requires { length file.now ≤ room }
    ensures file { IfOk result (λ bytes. take (length file.now) bytes.items ≡ file.now) }
    ensures room { IfOk result (λ bytes. length bytes.items ≡ room) }
{
    let mut bytes = vec![in alloc; 0; room]?;
    put(&mut bytes, 0, file);
    Ok(bytes)
}

impl Disk {
    /// A quiet file.
    pub fn new(alloc: Global, file: &[u8], room: usize) -> Result<Self, NoMemory>
        requires { length file.now ≤ room }
        ensures file { IfOk result (λ d. (d.file ≡ file.now) × (d.stable ≡ file.now)) }
        ensures clear { IfOk result (λ d. (place : ℕ) → is_dirty d.dirty place ≡ false) }
        ensures room { IfOk result (λ d. (d.room ≡ room) × (length d.dirty ≡ room)) }
    {
        let bytes = buffer(alloc, file, room)?;
        let stable = buffer(alloc, file, room)?;
        let dirty = vec![in alloc; false; room]?;
        Ok(Disk {
            file: bytes,
            len: file.len(),
            stable,
            stable_len: file.len(),
            dirty,
        })
    }

    /// The file as it reads.
    pub fn file(&self) -> &[u8]
        ensures file { result.now ≡ self.now.file }
        ensures room { length result.now ≤ self.now.room }
    {
        &self.file[..self.len]
    }

    /// The bytes of the last sync.
    pub fn stable(&self) -> &[u8]
        ensures { result.now ≡ self.now.stable }
    {
        &self.stable[..self.stable_len]
    }

    /// Whether a place was touched since then.
    pub fn is_dirty(&self, place: usize) -> bool
        ensures { result ≡ is_dirty self.now.dirty place }
    {
        match self.dirty.get(place) {
            Some(dirty) => *dirty,
            None => false,
        }
    }

    /// Writes a piece over what stands there, and past the end.
    pub fn write(&mut self, at: usize, piece: &[u8])
        requires inside { at ≤ length self.old.file }
        requires room { at + length piece.now ≤ self.old.room }
        ensures written { self.new.file ≡ written self.old.file at piece.now }
        ensures touched { (place : ℕ) → place < length self.old.dirty → is_dirty self.new.dirty place ≡ dirtied (is_dirty self.old.dirty) at (length piece.now) place }
        ensures flags { length self.new.dirty ≡ length self.old.dirty }
        ensures same { (self.new.stable ≡ self.old.stable) × (self.new.room ≡ self.old.room) }
    {
        put(&mut self.file, at, piece);
        mark(&mut self.dirty, at, piece.len());
        self.len = self.len.max(at + piece.len());
    }

    /// Touches a range and leaves it as it reads.
    pub fn touch(&mut self, at: usize, count: usize)
        requires { at ≤ length self.old.file }
        ensures touched { (place : ℕ) → place < length self.old.dirty → is_dirty self.new.dirty place ≡ dirtied (is_dirty self.old.dirty) at count place }
        ensures flags { length self.new.dirty ≡ length self.old.dirty }
        ensures same { (self.new.file ≡ self.old.file) × (self.new.stable ≡ self.old.stable) × (self.new.room ≡ self.old.room) }
    {
        mark(&mut self.dirty, at, count);
    }

    /// Makes the file as it reads stable.
    pub fn sync(&mut self)
        ensures stable { self.new.stable ≡ self.old.file }
        ensures clear { (place : ℕ) → is_dirty self.new.dirty place ≡ false }
        ensures flags { length self.new.dirty ≡ length self.old.dirty }
        ensures same { (self.new.file ≡ self.old.file) × (self.new.room ≡ self.old.room) }
    {
        put(&mut self.stable, 0, &self.file[..self.len]);
        self.stable_len = self.len;
        clear(&mut self.dirty);
    }
}
