//! What a terminal shows: the lines that are typed, each after `> `, and the replies between them.
use std::alloc::AllocError;

/// Adds what is typed and what is shown in reply, up to the first line that ends past so many typed bytes.
pub(crate) fn read_screen(
    screen: &str,
    most: usize,
    typed: &mut Vec<u8>,
    shown: &mut Vec<u8>,
) -> Result<(), AllocError> {
    for line in screen.lines() {
        if typed.len() > most {
            break;
        }
        match typed_line(line) {
            Some(line) => add_line(typed, line)?,
            None => add_line(shown, line)?,
        }
    }
    Ok(())
}

// A lone `>` is an empty line.
fn typed_line(line: &str) -> Option<&str> {
    if line == ">" {
        return Some("");
    }
    line.strip_prefix("> ")
}

fn add_line(lines: &mut Vec<u8>, line: &str) -> Result<(), AllocError> {
    lines.extend_from_slice(line.as_bytes())?;
    lines.push(b'\n')?;
    Ok(())
}
