//! A sink in memory that keeps only what follows the last close line of a report, so that its memory doesn't grow with the
//! report.
ghost use Rattle.std.specs.Prelude.{◌≡◌, ℕ, List, [], ◌∷◌, ◌++◌, OnOk, OnErr};
ghost use Rattle.lean_fixed.specs.Counts.{raised};
ghost use Rattle.lean_top.specs.CloseTail.{is_close, behind_close};
ghost use Rattle.lean_top.specs.Kept.{new_tail, IsKept};

use lean_fixed::NoMemory;
use lean_io::{Failed, Sink};
use std::alloc::Global;
use std::marker::Model;
use std::snapshot::Snapshot;

/// How many bytes the moment of a line has.
const MOMENT: usize = 14;

// The bytes that are kept of a report.
#[derive(Drop)]
struct Kept {
    bytes: Vec<u8>,
    // where the line begins that has no LF yet
    line: usize,
}

impl Model for Kept {
    ghost use Rattle.std.specs.Prelude.{◌≤◌, length};
    ghost use Rattle.lean_top.specs.Kept.{KeptState};

    ghost Value = { KeptState };

    ghost view = { λ k. record { bytes = k.bytes.items; line = k.line } };

    ghost invariant = { λ k. k.line ≤ length k.bytes.items };
}

impl Kept {
    fn into_bytes(self) -> Vec<u8>
        ensures { result.items ≡ self.bytes }
    {
        self.bytes
    }

    // Takes one more byte.
    fn take(&mut self, byte: u8) -> Result<(), NoMemory>
        ensures kept { OnOk result ((taken : List ℕ) → IsKept taken self.old
            → IsKept (taken ++ byte ∷ []) self.new) }
        ensures same { OnErr result (self.new ≡ self.old) }
    {
        if byte != b'\n' {
            self.bytes.push(byte)?;
            return Ok(());
        }
        if is_close(&self.bytes[self.line..]) {
            self.bytes.clear();
            self.line = 0;
            return Ok(());
        }
        self.bytes.push(byte)?;
        self.line = self.bytes.len();
        Ok(())
    }
}

// Whether a line is one of a close.
#[tactic(auto, using(crate::proofs::KeptLemmas::short_line))]
fn is_close(line: &[u8]) -> bool
    ensures { result ≡ is_close line.now }
{
    if line.len() < MOMENT {
        return false;
    }
    match line[MOMENT..].strip_prefix(b" close cash ".as_slice()) {
        Some(_) => true,
        None => false,
    }
}

/// Such a sink. Contracts see it as the bytes that it took and its counts. It fails only where there is no memory for what it
/// keeps.
#[derive(Drop)]
pub struct CloseTail {
    // what was taken: it has no bytes, and is there for the contracts alone
    taken: Vec<Snapshot<u8>>,
    kept: Kept,
    writes: u64,
    faults: u64,
}

impl Model for CloseTail {
    ghost use Rattle.std.specs.Prelude.{map};
    ghost use Rattle.lean_top.specs.Kept.{TailState, IsKept};

    ghost Value = { TailState };

    ghost view = { λ t. record {
      bytes = map (λ s. s.value) t.taken.items;
      writes = t.writes;
      faults = t.faults;
    } };

    ghost invariant = { λ t. IsKept (map (λ s. s.value) t.taken.items) t.kept };
}

impl CloseTail {
    /// A sink that took nothing.
    pub fn new(alloc: Global) -> CloseTail
        ensures { result ≡ new_tail }
    {
        CloseTail {
            taken: Vec::new(alloc),
            kept: Kept {
                bytes: Vec::new(alloc),
                line: 0,
            },
            writes: 0,
            faults: 0,
        }
    }

    /// What follows the last close line of what was taken.
    #[tactic(auto, unfolding(crate::specs::CloseTail::behind_close))]
    pub fn into_kept(self) -> Vec<u8>
        ensures { result.items ≡ behind_close self.bytes }
    {
        self.kept.into_bytes()
    }

    // Takes one more byte.
    fn take(&mut self, byte: u8) -> Result<(), NoMemory>
        ensures ok { OnOk result (self.new ≡ record self.old { bytes = self.old.bytes ++ byte ∷ [] }) }
        ensures err { OnErr result (self.new ≡ self.old) }
    {
        self.taken.reserve(1)?;
        self.kept.take(byte)?;
        self.taken.push_reserved(Snapshot::of(&byte));
        Ok(())
    }
}

impl Sink for CloseTail {
    ghost use Rattle.std.specs.Prelude.{Some};

    ghost told = { λ t. Some t.bytes };

    ghost faults = { λ t. t.faults };

    ghost writes = { λ t. t.writes };

    fn write(&mut self, bytes: &[u8]) -> Result<usize, Failed> {
        self.writes = self.writes.saturating_add(1);
        let mut taken = 0;
        while taken < bytes.len() {
            if self.take(bytes[taken]).is_err() {
                break;
            }
            taken += 1;
        }
        if taken == 0 && !bytes.is_empty() {
            self.faults = self.faults.saturating_add(1);
            return Err(Failed);
        }
        Ok(taken)
    }
}
