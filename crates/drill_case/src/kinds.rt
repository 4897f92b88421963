//! What the lines that were sent say.
ghost use Rattle.std.specs.Prelude.{◌≡◌};
ghost use Rattle.drill_case.specs.Tallies.{HasKind, kind_of};

use line_wire::{Reply, read_reply};

/// What a line that was sent says.
#[derive(Clone, Copy)]
pub(crate) enum ReplyKind {
    /// A sum, an average, a maximum or a minimum.
    Released,
    /// That an answer would give a secret away.
    DeniedUnsafe,
    /// That an answer would need numbers that are too wide.
    DeniedWide,
    /// A count, a refusal, or no reply at all.
    Other,
}

// The kind of a reply.
fn kind_of_reply(reply: &Reply) -> ReplyKind
    ensures { result ≡ kind_of reply.now }
{
    match reply {
        Reply::Sum(_) | Reply::Avg { .. } | Reply::Max(_) | Reply::Min(_) => ReplyKind::Released,
        Reply::Unsafe => ReplyKind::DeniedUnsafe,
        Reply::Wide => ReplyKind::DeniedWide,
        _ => ReplyKind::Other,
    }
}

/// The kind of a line, without its line feed.
pub(crate) fn kind_of(line: &[u8]) -> ReplyKind
    ensures { HasKind line.now result }
{
    match read_reply(line) {
        Some(reply) => kind_of_reply(&reply),
        None => ReplyKind::Other,
    }
}
