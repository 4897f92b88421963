//! Bytes as a script says them: a file of `sources/`, a text, or hex, as it is or changed.
use crate::keys::Keys;
use crate::pieces::{Piece, whole};
use crate::value_kind::{ValueKind, byte_of, place_of};
use anyhow::{Context, Error, Result, bail};
use std::alloc::Global;
use std::{fs, io};
use toml::Value;

const KEYS: [(&str, ValueKind); 6] = [
    ("file", ValueKind::Text),
    ("text", ValueKind::Text),
    ("hex", ValueKind::Text),
    ("cut", ValueKind::Count),
    ("set", ValueKind::List),
    ("times", ValueKind::Count),
];

/// All the bytes of contents, if there are any.
pub(crate) fn bytes_of(rt: &HostRuntime, contents: Option<&Value>) -> Result<Vec<u8>> {
    let mut pieces = Vec::new(rt.alloc());
    add_pieces(rt, contents, &mut pieces)?;
    whole(rt.alloc(), &pieces).map_err(Error::from)
}

/// Adds the pieces of contents, if there are any: of one part, or of parts one after another.
pub(crate) fn add_pieces(
    rt: &HostRuntime,
    contents: Option<&Value>,
    pieces: &mut Vec<Piece>,
) -> Result<()> {
    match contents {
        Some(Value::Array(parts)) => add_parts(rt, parts, pieces),
        Some(part) => add_part(rt, part, pieces),
        None => Ok(()),
    }
}

fn add_parts(rt: &HostRuntime, parts: &[Value], pieces: &mut Vec<Piece>) -> Result<()> {
    for part in parts {
        add_part(rt, part, pieces)?;
    }
    Ok(())
}

// Adds the piece of a part, if it has bytes.
fn add_part(rt: &HostRuntime, part: &Value, pieces: &mut Vec<Piece>) -> Result<()> {
    let piece = piece_of(rt, part)?;
    if !piece.is_empty() {
        pieces.push(piece)?;
    }
    Ok(())
}

// A name is that of a file.
fn piece_of(rt: &HostRuntime, part: &Value) -> Result<Piece> {
    match part {
        Value::String(name) => Ok(Piece::once(read_file(rt, name.as_str())?)),
        part => piece_at(rt, Keys::of_value(part, &KEYS)?),
    }
}

fn piece_at(rt: &HostRuntime, part: Keys) -> Result<Piece> {
    let times = part.count("times").unwrap_or(1);
    let mut bytes = bytes_given(rt, part)?;
    change(part, &mut bytes).and(Ok(Piece { bytes, times }))
}

fn bytes_given(rt: &HostRuntime, part: Keys) -> Result<Vec<u8>> {
    match (part.text("file"), part.text("text"), part.text("hex")) {
        (Some(name), None, None) => read_file(rt, name),
        (None, Some(text), None) => text.as_bytes().to_vec(rt.alloc()).map_err(Error::from),
        (None, None, Some(digits)) => decode_hex(rt.alloc(), digits.as_bytes()),
        _ => bail!("a part has one of file, text and hex"),
    }
}

// Cuts the bytes, and changes the one that is to be set.
fn change(part: Keys, bytes: &mut Vec<u8>) -> Result<()> {
    let length = part.count("cut").unwrap_or(u64::MAX);
    bytes.truncate(usize::try_from(length).unwrap_or(usize::MAX));
    match part.list("set") {
        Some(values) => set_byte(bytes, values).context("set is the place of a byte, and a byte"),
        None => Ok(()),
    }
}

// Sets the byte at a place.
fn set_byte(bytes: &mut [u8], values: &[Value]) -> Option<()> {
    let (place, byte) = place_and_byte(values)?;
    *bytes.get_mut(place)? = byte;
    Some(())
}

fn place_and_byte(values: &[Value]) -> Option<(usize, u8)> {
    match values {
        [place, byte] => place_of(place).zip(byte_of(byte)),
        _ => None,
    }
}

// A file whose name ends in `.hex` is read as hex.
fn read_file(rt: &HostRuntime, name: &str) -> Result<Vec<u8>> {
    let bytes = read_source(rt, name).context(format_args!("sources/{name}"))?;
    if name.ends_with(".hex") {
        decode_hex(rt.alloc(), &bytes)
    } else {
        Ok(bytes)
    }
}

fn read_source(rt: &HostRuntime, name: &str) -> io::Result<Vec<u8>> {
    let path = format!(in rt.alloc(); "sources/{name}")?;
    fs::read(rt, path.as_str())
}

// Blanks and line ends stand anywhere among the digits.
fn decode_hex(alloc: Global, text: &[u8]) -> Result<Vec<u8>> {
    let mut digits = Vec::new(alloc);
    for byte in text {
        if !byte.is_ascii_whitespace() {
            digits.push(*byte)?;
        }
    }
    hex::decode(alloc, digits.as_slice()).map_err(Error::from)
}
