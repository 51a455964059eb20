//! The registers of a floor as they stood when it was closed.
ghost use Rattle.std.specs.Prelude.{◌≡◌, ◌+◌, ◌<◌, ◌≤◌, get_or};
ghost use Rattle.amo_params.specs.Givens.{IsWorker};
ghost use Rattle.amo_kk.specs.Words.{next_word, claim_word, done_word};
ghost use Rattle.amo_words.specs.Faces.{spots};
ghost use Rattle.amo_words.specs.Settling.{HasClosed};

use crate::floor::{Book, ClosedFloor, Floor};
use amo_kk::layout::{claim_word, done_word, next_word};
use amo_params::Givens;
use std::alloc::Global;

impl<P: Drop> Floor<P> {
    /// Closes the floor: no thread has it any more, so its registers stay as they are. It takes no
    /// memory. The registry must be this floor's.
    pub fn close(self, book: Book<P>) -> ClosedFloor<P>
        requires { book.table_id ≡ self.table_id }
        ensures floor { result.givens ≡ self.givens }
        ensures closed { HasClosed book.view.givens book.view.payloads book.view.seen (spots book) result }
    {
        let Floor { board, givens } = self;
        let Book {
            seat,
            givens: _,
            spots,
        } = book;
        let closed = board.close_with(seat);
        ClosedFloor {
            closed,
            givens,
            spots,
        }
    }
}

impl<P: Drop> ClosedFloor<P> {
    /// Returns the givens with which the floor was opened.
    pub fn givens(&self) -> Givens
        ensures { result ≡ self.now.givens }
    {
        self.givens
    }

    /// Returns the announcement of worker p, as it stood: a job, or 0.
    pub fn announcement(&self, p: u32) -> u64
        requires { IsWorker self.now.givens p }
        ensures { result ≡ get_or self.now.words (next_word p) 0 }
    {
        self.closed.word(next_word(p))
    }

    /// Returns how many jobs worker p had claimed, as its register stood.
    pub fn claim_count(&self, p: u32) -> u64
        requires { IsWorker self.now.givens p }
        ensures { result ≡ get_or self.now.words (claim_word self.now.givens p) 0 }
    {
        self.closed.word(claim_word(self.givens, p))
    }

    /// Returns the k-th entry of the row of worker p, as it stood, for k from 1 to `jobs + 1`: a
    /// done job, or 0.
    pub fn entry(&self, p: u32, k: u32) -> u64
        requires worker { IsWorker self.now.givens p }
        requires place { (1 ≤ k) × (k ≤ self.now.givens.jobs + 1) }
        ensures { result ≡ get_or self.now.words (done_word self.now.givens p k) 0 }
    {
        self.closed.word(done_word(self.givens, p, k))
    }
}
