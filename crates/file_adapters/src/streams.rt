//! The numbers of the standard streams.
use std::fs;
use std::fs::Files;
use std::os::fd::{AsRawFd, IntoRawFd, RawFd};

// The greatest number of a standard stream.
const LAST_STREAM: RawFd = 2;

/// Gives the numbers of standard streams that are closed to the null device, so that no file that is opened later is taken for a
/// stream. It is opened to be read: such an input is empty, and what is written to such an output fails.
pub fn hold_streams<R: Files>(rt: &R)
where
    R::File: AsRawFd + IntoRawFd,
{
    for _ in 0..=LAST_STREAM {
        match fs::open(rt, "/dev/null") {
            // It stays open until the program ends.
            Ok(null) if null.as_raw_fd() <= LAST_STREAM => {
                let _ = null.into_raw_fd();
            }
            _ => return,
        }
    }
}
