//! The lines that come in, and the replies that go out.
//!
//! `Lines` cuts the bytes of any source into counted lines: the clauses `answer` and `stop` of `next` say which line is
//! given and what stays, and `laws` what lines are that were given one after another. `read_line_request` reads the
//! question of a line: its clauses say what is read, and which refusal comes first. `write_reply` writes the one form of
//! each reply, and `read_reply` reads that form and no other. `put_number`, `put_stated`,
//! `put_bounds` and `put_at_place` append numbers to a line of any length.
#![tactic(auto)]

mod buffer;
mod edits;
pub mod laws;
mod lines;
mod numbers;
mod plain;
mod question;
mod range;
mod reading;
mod reply;
mod reply_reading;
mod request;

pub use lines::{Lines, Next};
pub use numbers::{put_at_place, put_bounds, put_number, put_stated};
pub use question::Take;
pub use reading::read_line_request;
pub use reply::{Reply, write_reply};
pub use reply_reading::read_reply;
pub use request::{LineFault, Request};
