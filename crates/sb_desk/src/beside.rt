//! What a desk has beside its table: the words on which seats sleep, and hints and numbers of which no clause says
//! anything.
use crate::Stepped;
use crate::arrivals::Arrivals;
use crate::bells::Bells;
use sb_numbers::Board;
use std::alloc::{AllocError, Global};

#[derive(Drop)]
pub(crate) struct Beside {
    pub(crate) bells: Bells,
    pub(crate) arrivals: Arrivals,
    pub(crate) board: Board,
}

impl Beside {
    pub(crate) fn new(alloc: Global) -> Result<Beside, AllocError> {
        let bells = Bells::new(alloc)?;
        let board = Board::new(alloc)?;
        Ok(Beside {
            bells,
            arrivals: Arrivals::new(),
            board,
        })
    }

    /// Takes in what a step told. Its seat has the turn, so that no other step comes between.
    pub(crate) fn note(&self, stepped: &Stepped) {
        self.arrivals.note(stepped);
        self.board.grew(stepped.sizes);
    }
}
