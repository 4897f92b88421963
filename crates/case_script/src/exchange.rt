//! What a run is typed, and what is due in reply.
use crate::contents::{add_pieces, bytes_of};
use crate::keys::Keys;
use crate::pieces::Piece;
use crate::terminal::read_screen;
use anyhow::{Error, Result};
use std::alloc::{AllocError, Global};

/// What a run is typed, and what is due in reply.
#[derive(Drop)]
pub struct Exchange {
    pub typed: Vec<Piece>,
    pub shown: Vec<u8>,
}

impl Exchange {
    pub(crate) fn new(alloc: Global) -> Exchange {
        Exchange {
            typed: Vec::new(alloc),
            shown: Vec::new(alloc),
        }
    }

    /// What a terminal shows, up to the first line that ends past so many typed bytes.
    pub(crate) fn of_terminal(
        alloc: Global,
        screen: &str,
        most: usize,
    ) -> Result<Exchange, AllocError> {
        let mut exchange = Exchange::new(alloc);
        exchange
            .read_terminal(alloc, screen, most)
            .and(Ok(exchange))
    }

    pub(crate) fn read(&mut self, rt: &HostRuntime, run: Keys) -> Result<()> {
        match run.text("terminal") {
            None => self.read_contents(rt, run),
            Some(screen) => {
                run.refuse(&["input", "sent"], "a terminal")?;
                self.read_terminal(rt.alloc(), screen, usize::MAX)
                    .map_err(Error::from)
            }
        }
    }

    fn read_contents(&mut self, rt: &HostRuntime, run: Keys) -> Result<()> {
        self.shown = bytes_of(rt, run.value("sent"))?;
        add_pieces(rt, run.value("input"), &mut self.typed)
    }

    /// Adds what a terminal shows, up to the first line that ends past so many typed bytes. What is typed is one piece.
    pub(crate) fn read_terminal(
        &mut self,
        alloc: Global,
        screen: &str,
        most: usize,
    ) -> Result<(), AllocError> {
        let mut typed = Vec::new(alloc);
        read_screen(screen, most, &mut typed, &mut self.shown)?;
        self.typed.push(Piece::once(typed))?;
        Ok(())
    }
}
