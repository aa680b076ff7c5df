//! Hands that read few bytes at a time.

use lean_fixed::NoMemory;
use lean_io::{Failed, Folder, Hand};
use std::alloc::Global;

/// A hand that ends one read at a place of the file, and reads at most so many bytes at a time behind it.
#[derive(Drop)]
pub struct CutHand<H> {
    pub inner: H,
    pub place: usize,
    pub most: usize,
}

impl<H: Hand> Hand for CutHand<H> {
    ghost use Rattle.std.specs.Prelude.{None, []};

    ghost files = { λ _. None };

    ghost is_open = { λ h. H.is_open h.inner };

    ghost rest = { λ _. [] };

    ghost faults = { λ h. H.faults h.inner };

    fn open_file(&mut self, path: &str) -> Result<bool, Failed> {
        self.inner.open_file(path)
    }

    fn read(&mut self, into: &mut [u8]) -> Result<usize, Failed> {
        let most = if self.place > 0 {
            self.place
        } else {
            self.most
        };
        let n = most.min(into.len());
        match self.inner.read(&mut into[..n]) {
            Ok(moved) => {
                self.place = self.place.saturating_sub(moved);
                Ok(moved)
            }
            Err(Failed) => Err(Failed),
        }
    }
}

/// A folder whose hands read one byte at a time.
#[derive(Drop)]
pub struct SlowFolder<F> {
    pub inner: F,
}

impl<F: Folder + Drop> Folder for SlowFolder<F> {
    ghost use Rattle.std.specs.Prelude.{None};

    type H = CutHand<F::H>;

    ghost files = { λ _. None };

    ghost faults = { λ f. F.faults f.inner };

    ghost hands = { λ f. F.hands f.inner };

    fn hand(&mut self, alloc: Global) -> Result<CutHand<F::H>, NoMemory> {
        match self.inner.hand(alloc) {
            Ok(inner) => Ok(CutHand {
                inner,
                place: 0,
                most: 1,
            }),
            Err(NoMemory) => Err(NoMemory),
        }
    }

    fn take_back(&mut self, hand: CutHand<F::H>) {
        self.inner.take_back(hand.inner);
    }
}
