//! What stands after a gate: a count byte and that many records, or a count of 0 and a greater number of rows.
ghost use Rattle.std.specs.Prelude.{◌≡◌, ◌↔◌, ◌≤◌, ◌<◌, ◌+◌, ◌/◌, ◌%◌, ◌^◌, ◌++◌, ◌∷◌, [], List, ℕ, length, take, All, IsTrue, IfOk, IfErr};
ghost use Rattle.audit_types.specs.Limits.{most_rows};
ghost use Rattle.audit_types.specs.History.{FitsShape};
ghost use Rattle.audit_types.specs.Shapes.{IsShape};
ghost use Rattle.journal_form.specs.Group.{AreRecords, IsGroup, IsMoreRows, IsWritten, IsCount, IsGoodGrowthByte, BreaksInRecord, GroupBreaks};
ghost use Rattle.journal_form.specs.Places.{FirstBad};
ghost use Rattle.journal_form.specs.declared.group.GroupFault.TheVariants.{NoMemory};

use crate::record::{put_record, read_record, size_of_record};
use crate::set::MOST_SET;
use audit_types::{Answered, MOST_ROWS, NoMemory, Shape};
use std::alloc::{AllocError, AllocFailed, Global};

// The most bytes of a record: a column byte, eight bytes of answer, and a bit for each row.
const MOST_OF_RECORD: usize = 9 + MOST_SET;

/// The most bytes that a record takes in a journal: in a group of its own, with its gate and its count byte.
pub const MOST_FOR_RECORD: usize = 2 + MOST_OF_RECORD;

/// The bytes of a growth, from its count byte on, and of the next gate.
pub const GROWTH_SIZE: usize = 4;

/// The records of a group, in order, none for a growth; the number of its bytes from its count byte on; and the rows in force
/// after it.
#[derive(Drop)]
pub struct Group {
    pub list: Vec<Answered>,
    pub size: u32,
    pub rows: u16,
}

/// Why a group could not be read.
#[derive(Clone, Copy)]
pub enum GroupFault {
    /// No group has this byte there, after those before it; or the bytes end at this place, within the group.
    Breaks { at: u32 },
    NoMemory,
}

impl From<AllocError> for GroupFault {
    ghost from_gives = { λ _ e. e ≡ NoMemory };

    fn from(_e: AllocError) -> GroupFault {
        GroupFault::NoMemory
    }
}

impl<T: Drop> From<AllocFailed<T>> for GroupFault {
    ghost from_gives = { λ _ e. e ≡ NoMemory };

    fn from(_e: AllocFailed<T>) -> GroupFault {
        GroupFault::NoMemory
    }
}

/// Writes the bytes of a group from its count byte on, and after them the next gate, closed.
pub fn write_group(alloc: Global, shape: &Shape, list: &[Answered]) -> Result<Vec<u8>, NoMemory>
    requires some { 0 < length list.now }
    requires few { length list.now ≤ 64 }
    requires fit { All (λ r. FitsShape shape.now r.column r.rows) list.now }
    ensures { IfOk result (λ bytes. (text : List ℕ) × (bytes.items ≡ text ++ 0 ∷ []) × IsGroup shape.now text list.now) }
{
    match group_bytes(alloc, shape, list) {
        Ok(bytes) => Ok(bytes),
        Err(_) => Err(NoMemory),
    }
}

fn group_bytes(alloc: Global, shape: &Shape, list: &[Answered]) -> Result<Vec<u8>, AllocError>
    requires some { 0 < length list.now }
    requires few { length list.now ≤ 64 }
    requires fit { All (λ r. FitsShape shape.now r.column r.rows) list.now }
    ensures { IfOk result (λ bytes. (text : List ℕ) × (bytes.items ≡ text ++ 0 ∷ []) × IsGroup shape.now text list.now) }
{
    let mut bytes = Vec::with_capacity(alloc, 2 + list.len() * MOST_OF_RECORD)?;
    bytes.push(list.len() as u8)?;
    for answered in list {
        put_record(&mut bytes, shape, answered)?;
    }
    bytes.push(0)?;
    Ok(bytes)
}

/// Writes the bytes of a growth to so many rows from its count byte on, and after them the next gate, closed.
pub fn write_growth(rows: u16, out: &mut [u8; GROWTH_SIZE])
    requires at_most { rows ≤ most_rows }
    ensures { out.new ≡ 0 ∷ (rows / 256) ∷ (rows % 256) ∷ 0 ∷ [] }
{
    *out = [0, (rows / 256) as u8, (rows % 256) as u8, 0];
}

/// Reads the group that stands at the front, from its count byte on: records, or a growth of the shape's rows. `left` is how
/// many records the journal may still hold. The gate after the group isn't read.
pub fn read_group(
    alloc: Global,
    shape: &Shape,
    bytes: &[u8],
    left: u32,
) -> Result<Group, GroupFault>
    requires { IsShape shape.now }
    ensures ok { IfOk result (λ group. (group.size ≤ length bytes.now) × (length group.list.items ≤ left) × IsWritten shape.now (take group.size bytes.now) group.list.items group.rows) }
    ensures breaks { (at : ℕ) → result ≡ Err (GroupFault.Breaks at) → GroupBreaks shape.now left bytes.now at }
{
    if !bytes.is_empty() && bytes[0] == 0 && shape.rows < MOST_ROWS {
        return read_growth(alloc, shape.rows, &bytes[1..]);
    }
    if bytes.is_empty() || !is_count(bytes[0], left) {
        return Err(GroupFault::Breaks { at: 0 });
    }
    let count = bytes[0];
    let mut list = Vec::with_capacity(alloc, count as usize)?;
    let size = read_records(shape, count, &bytes[1..], &mut list)?;
    Ok(Group {
        list,
        size: 1 + size,
        rows: shape.rows,
    })
}

// Reads the growth whose number stands after its count byte. A place counts the count byte too.
fn read_growth(alloc: Global, rows: u16, bytes: &[u8]) -> Result<Group, GroupFault>
    requires { rows < most_rows }
    ensures ok { IfOk result (λ group. (group.size ≡ 3) × (2 ≤ length bytes.now) × (group.list.items ≡ []) × IsMoreRows rows group.rows × (take 2 bytes.now ≡ (group.rows / 256) ∷ (group.rows % 256) ∷ [])) }
    ensures breaks { (at : ℕ) → result ≡ Err (GroupFault.Breaks at) → (place : ℕ) × FirstBad (IsGoodGrowthByte rows bytes.now) 2 bytes.now place × (at ≡ 1 + place) }
{
    match read_rows(rows, bytes) {
        Ok(more) => Ok(Group {
            list: Vec::new(alloc),
            size: 3,
            rows: more,
        }),
        Err(place) => Err(GroupFault::Breaks { at: 1 + place }),
    }
}

// Reads the number of a growth from so many rows. The error is the place of the first of its two bytes that no such number has
// there.
fn read_rows(rows: u16, bytes: &[u8]) -> Result<u16, u32>
    requires { rows < most_rows }
    ensures ok { IfOk result (λ more. (2 ≤ length bytes.now) × IsMoreRows rows more × (take 2 bytes.now ≡ (more / 256) ∷ (more % 256) ∷ [])) }
    ensures err { IfErr result (λ place. FirstBad (IsGoodGrowthByte rows bytes.now) 2 bytes.now place) }
    ensures near { IfErr result (λ place. place < 2) }
{
    if bytes.is_empty() || !is_high(rows, bytes[0]) {
        return Err(0);
    }
    if bytes.len() < 2 {
        return Err(1);
    }
    let more = bytes[0] as u16 * 256 + bytes[1] as u16;
    if more <= rows || more > MOST_ROWS {
        return Err(1);
    }
    Ok(more)
}

// Whether some number of more rows has this byte as its first.
fn is_high(rows: u16, high: u8) -> bool
    requires { rows < most_rows }
    ensures { IsTrue result ↔ ((more : ℕ) × IsMoreRows rows more × (high ≡ more / 256)) }
{
    (rows + 1) / 256 <= high as u16 && high as u16 <= MOST_ROWS / 256
}

// Whether the byte may be the count of a group.
fn is_count(count: u8, left: u32) -> bool
    ensures { IsTrue result ↔ IsCount left count }
{
    count > 0 && count <= 64 && count as u32 <= left
}

// Adds so many records to an empty list, and gives the number of their bytes. A place counts the count byte too.
fn read_records(
    shape: &Shape,
    count: u8,
    bytes: &[u8],
    list: &mut Vec<Answered>,
) -> Result<u32, GroupFault>
    requires valid { IsShape shape.now }
    requires few { count ≤ 64 }
    requires empty { list.old.items ≡ [] }
    ensures ok { IfOk result (λ size. (size ≤ length bytes.now) × (size < 2 ^ 31) × (length list.new.items ≡ count) × AreRecords shape.now (take size bytes.now) list.new.items) }
    ensures breaks { (left at : ℕ) → IsCount left count → result ≡ Err (GroupFault.Breaks at) → BreaksInRecord shape.now left (count ∷ bytes.now) at }
{
    let size = size_of_record(shape);
    let mut at = 0;
    for _ in 0..count {
        match read_record(shape, &bytes[at..]) {
            Ok(answered) => list.push(answered)?,
            Err(place) => {
                return Err(GroupFault::Breaks {
                    at: (1 + at + place) as u32,
                });
            }
        }
        at += size;
    }
    Ok(at as u32)
}
