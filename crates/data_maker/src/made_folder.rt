//! A folder of made files, of which no call fails but for want of memory.
ghost use Rattle.std.specs.Prelude.{◌≡◌};

use lean_fixed::NoMemory;
use lean_io::{Failed, Folder, Hand, MemFolder, MemHand};
use std::alloc::Global;
use std::collections::BTreeMap;
use std::marker::Model;

/// The files that were made from a number. It tells them, and no call of its hands fails: its count of faults and theirs are
/// 0. Contracts see it as its files and the number of hands that are out.
#[derive(Drop)]
pub struct MadeFolder {
    // no call of its hands is to fail
    inner: MemFolder,
}

impl Model for MadeFolder {
    ghost use Rattle.std.specs.Prelude.{◌≡◌, []};
    ghost use Rattle.data_maker.specs.MadeState.{MadeState};

    ghost Value = { MadeState };

    ghost view = { λ m. record { entries = m.inner.entries; hands = m.inner.hands } };

    ghost invariant = { λ m. (m.inner.fails ≡ []) × (m.inner.faults ≡ 0) };
}

impl MadeFolder {
    ghost use Rattle.std.specs.Prelude.{◌≡◌, IfOk};
    ghost use Rattle.lean_io.specs.MemFolder.{map_files};
    ghost use Rattle.data_maker.specs.MadeState.{told};

    // The folder of these files.
    pub(crate) fn of(
        alloc: Global,
        files: BTreeMap<String, Vec<u8>>,
    ) -> Result<MadeFolder, NoMemory>
        ensures files { IfOk result (λ folder. told folder ≡ map_files files) }
        ensures hands { IfOk result (λ folder. folder.hands ≡ 0) }
    {
        let inner = MemFolder::new(alloc, files, Vec::new(alloc))?;
        Ok(MadeFolder { inner })
    }
}

/// Reads the files of a made folder.
#[derive(Drop)]
pub struct MadeHand {
    // no call of it is to fail
    inner: MemHand,
}

impl Model for MadeHand {
    ghost use Rattle.std.specs.Prelude.{◌≡◌, []};
    ghost use Rattle.data_maker.specs.MadeState.{MadeHandState};

    ghost Value = { MadeHandState };

    ghost view = { λ h. record { entries = h.inner.entries; path = h.inner.path; rest = h.inner.rest } };

    ghost invariant = { λ h. (h.inner.fails ≡ []) × (h.inner.faults ≡ 0) };
}

impl Folder for MadeFolder {
    ghost use Rattle.std.specs.Prelude.{Some};
    ghost use Rattle.data_maker.specs.MadeState.{told};

    type H = MadeHand;

    ghost files = { λ m. Some (told m) };

    ghost faults = { λ _. 0 };

    ghost hands = { λ m. m.hands };

    fn hand(&mut self, alloc: Global) -> Result<MadeHand, NoMemory> {
        match self.inner.hand(alloc) {
            Ok(inner) => Ok(MadeHand { inner }),
            Err(NoMemory) => Err(NoMemory),
        }
    }

    fn take_back(&mut self, hand: MadeHand) {
        self.inner.take_back(hand.inner);
    }
}

impl Hand for MadeHand {
    ghost use Rattle.std.specs.Prelude.{Some, is_some};
    ghost use Rattle.lean_io.specs.MemFolder.{entry_files};

    ghost files = { λ h. Some (entry_files h.entries) };

    ghost is_open = { λ h. is_some h.path };

    ghost rest = { λ h. h.rest };

    ghost faults = { λ _. 0 };

    fn open_file(&mut self, path: &str) -> Result<bool, Failed> {
        self.inner.open_file(path)
    }

    fn read(&mut self, into: &mut [u8]) -> Result<usize, Failed> {
        self.inner.read(into)
    }
}
