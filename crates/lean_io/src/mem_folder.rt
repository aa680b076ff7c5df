ghost use Rattle.std.specs.Prelude.{◌≡◌, ◌<◌, ◌==◌, ◌&&◌, Some, None, length, IfOk, IfSome, IfNone, string_bytes, bytes_eq};
ghost use Rattle.lean_io.specs.MemFolder.{map_files, entry_files, is_listed, path_at, bytes_at};

use crate::counts::{Count, one_more};
use crate::outside::{Failed, Folder, Hand};
use lean_fixed::NoMemory;
use std::alloc::Global;
use std::collections::BTreeMap;
use std::marker::Model;
use std::sync::Arc;

// The files of a folder in memory, by rising path, and the calls that fail.
#[derive(Drop)]
struct Store {
    entries: Vec<(String, Vec<u8>)>,
    fails: Vec<(String, u64)>,
}

/// A folder in memory, for tests and made data, which fails at chosen calls.
#[derive(Drop)]
pub struct MemFolder {
    store: Arc<Store>,
    hands: u64,
    faults: Count,
}

impl Model for MemFolder {
    ghost use Rattle.std.specs.Arc.{arc_value};
    ghost use Rattle.lean_io.specs.MemFolder.{FolderState};

    ghost Value = { FolderState };

    ghost view = { λ m. record {
      entries = (arc_value m.store).entries.items;
      fails = (arc_value m.store).fails.items;
      hands = m.hands;
      faults = m.faults;
    } };
}

impl MemFolder {
    /// A folder of the files of a map from path to bytes. A pair (path, k) makes call k of each
    /// opening of that path fail, where the opening itself is call 0 and the reads after it count
    /// from 1; no other call fails. `NoMemory`: there is no memory for the folder.
    pub fn new(
        alloc: Global,
        files: BTreeMap<String, Vec<u8>>,
        fails: Vec<(String, u64)>,
    ) -> Result<MemFolder, NoMemory>
        ensures made { IfOk result (λ m. m
            ≡ record { entries = files.entries; fails = fails.items; hands = 0; faults = 0 }) }
        ensures told { IfOk result (λ m. entry_files m.entries ≡ map_files files) }
    {
        let entries: Vec<(String, Vec<u8>)> = files.into_iter().collect(alloc)?;
        let store = Arc::new(alloc, Store { entries, fails })?;
        Ok(MemFolder {
            store,
            hands: 0,
            faults: Count::new(),
        })
    }
}

/// Reads the files of a folder in memory.
#[derive(Drop)]
pub struct MemHand {
    store: Arc<Store>,
    place: Option<usize>,
    offset: usize,
    reads: Count,
    faults: Count,
}

impl Model for MemHand {
    ghost use Rattle.std.specs.Prelude.{◌<◌, ◌≤◌, length, drop, vec_len};
    ghost use Rattle.std.specs.Option.{ForSome};
    ghost use Rattle.std.specs.Arc.{arc_value};
    ghost use Rattle.lean_io.specs.MemFolder.{HandState, open_path, open_bytes};

    ghost Value = { HandState };

    ghost view = { λ h. record {
      entries = (arc_value h.store).entries.items;
      fails = (arc_value h.store).fails.items;
      path = open_path (arc_value h.store).entries.items h.place;
      rest = drop h.offset (open_bytes (arc_value h.store).entries.items h.place);
      reads = h.reads;
      faults = h.faults;
    } };

    ghost invariant = { λ h. (ForSome h.place (λ i. i < vec_len (arc_value h.store).entries))
        × (h.offset ≤ length (open_bytes (arc_value h.store).entries.items h.place)) };
}

impl MemHand {
    ghost use Rattle.std.specs.Prelude.{◌≡◌, ◌≤◌};
    ghost use Rattle.lean_io.specs.MemFolder.{failed};

    // Counts a fault, and lets the open file go.
    fn fail(&mut self) -> Failed
        ensures failed { self.new ≡ failed self.old }
        ensures grows { self.old.faults ≤ self.new.faults }
    {
        self.place = None;
        self.offset = 0;
        self.reads = Count::new();
        self.faults.rise();
        Failed
    }
}

impl Folder for MemFolder {
    ghost use Rattle.std.specs.Prelude.{◌≡◌, ◌≤◌, Some, IfOk, OnOk, OnErr};
    ghost use Rattle.lean_io.specs.MemFolder.{entry_files, hand_of, given, taken_back};

    type H = MemHand;

    ghost files = { λ m. Some (entry_files m.entries) };

    ghost faults = { λ m. m.faults };

    ghost hands = { λ m. m.hands };

    fn hand(&mut self, alloc: Global) -> Result<MemHand, NoMemory>
        ensures hand { IfOk result (λ h. h ≡ hand_of self.old) }
        ensures given { OnOk result (self.new ≡ given self.old) }
        ensures same { OnErr result (self.new ≡ self.old) }
    {
        let store = self.store.clone()?;
        self.hands = one_more(self.hands)?;
        Ok(MemHand {
            store,
            place: None,
            offset: 0,
            reads: Count::new(),
            faults: Count::new(),
        })
    }

    fn take_back(&mut self, hand: MemHand)
        ensures back { self.new ≡ taken_back self.old hand }
        ensures grows { self.old.faults ≤ self.new.faults }
    {
        self.hands = self.hands.saturating_sub(1);
        self.faults.add(&hand.faults);
    }
}

impl Hand for MemHand {
    ghost use Rattle.std.specs.Prelude.{◌≡◌, ◌≤◌, ◌++◌, ◌↔◌, Some, length, take, drop, min, IfOk, OnOk, OnErr, IsErr, IsTrue, is_some, true};
    ghost use Rattle.lean_io.specs.MemFolder.{entry_files, is_listed, failed, opened, moved, fails_next};

    ghost files = { λ h. Some (entry_files h.entries) };

    ghost is_open = { λ h. is_some h.path };

    ghost rest = { λ h. h.rest };

    ghost faults = { λ h. h.faults };

    fn open_file(&mut self, path: &str) -> Result<bool, Failed>
        ensures fails { IsErr result ↔ IsTrue (is_listed self.old.fails path.now 0) }
        ensures found { IfOk result (λ found. found
            ≡ is_some (entry_files self.old.entries path.now)) }
        ensures opened { OnOk result (self.new
            ≡ opened self.old path.now (entry_files self.old.entries path.now)) }
        ensures failed { OnErr result (self.new ≡ failed self.old) }
        ensures grows { self.old.faults ≤ self.new.faults }
    {
        if is_failing(&self.store.fails, path, 0) {
            return Err(self.fail());
        }
        self.place = find(&self.store.entries, path);
        self.offset = 0;
        self.reads = Count::new();
        Ok(self.place.is_some())
    }

    fn read(&mut self, into: &mut [u8]) -> Result<usize, Failed>
        requires { is_some self.old.path ≡ true }
        ensures fails { IsErr result ↔ IsTrue (fails_next self.old) }
        ensures amount { IfOk result (λ n. n ≡ min (length self.old.rest) (length into.new)) }
        ensures read { IfOk result (λ n. into.new ≡ take n self.old.rest ++ drop n into.old) }
        ensures moved { IfOk result (λ n. self.new ≡ moved self.old n) }
        ensures failed { OnErr result (self.new ≡ failed self.old) }
        ensures grows { self.old.faults ≤ self.new.faults }
    {
        let Some(place) = self.place else {
            unreachable!()
        };
        self.reads.rise();
        let (path, bytes) = entry_at(&self.store.entries, place);
        if is_failing(&self.store.fails, path, self.reads.number()) {
            return Err(self.fail());
        }
        let rest = &bytes[self.offset..];
        let n = rest.len().min(into.len());
        into[..n].copy_from_slice(&rest[..n]);
        self.offset += n;
        Ok(n)
    }
}

// The path and the bytes of the entry at a place.
fn entry_at(entries: &[(String, Vec<u8>)], place: usize) -> (&str, &[u8])
    requires { place < length entries.now }
    ensures path { path_at entries.now place ≡ Some result.0.now }
    ensures bytes { bytes_at entries.now place ≡ Some result.1.now }
{
    let entry = &entries[place];
    (entry.0.as_str(), entry.1.as_slice())
}

// The place of the entry of a path.
fn find(entries: &[(String, Vec<u8>)], path: &str) -> Option<usize>
    ensures within { IfSome result (λ i. i < length entries.now) }
    ensures path { IfSome result (λ i. path_at entries.now i ≡ Some path.now) }
    ensures bytes { IfSome result (λ i. entry_files entries.now path.now ≡ bytes_at entries.now i) }
    ensures missing { IfNone result (entry_files entries.now path.now ≡ None) }
{
    for i in 0..entries.len() {
        if path == entries[i].0.as_str() {
            return Some(i);
        }
    }
    None
}

// Whether a call of the openings of a path is to fail.
fn is_failing(fails: &[(String, u64)], path: &str, call: u64) -> bool
    ensures { result ≡ is_listed fails.now path.now call }
{
    fails.iter().any(|pair| is_call(pair, path, call))
}

// Whether a pair is of this path and this call.
fn is_call(pair: &(String, u64), path: &str, call: u64) -> bool
    ensures { result ≡ (bytes_eq (string_bytes pair.now.0) path.now && (pair.now.1 == call)) }
{
    pair.0.as_str() == path && pair.1 == call
}
