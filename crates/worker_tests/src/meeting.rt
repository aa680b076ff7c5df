//! A folder of two files whose reads wait for each other.
ghost use Rattle.std.specs.Prelude.{◌≡◌, ◌≤◌, false};
ghost use Rattle.lean_io.specs.Told.{Rose};

use lean_fixed::NoMemory;
use lean_io::{Failed, Folder, Hand};
use std::alloc::Global;
use std::sync::Arc;
use std::sync::atomic::{AtomicBool, Ordering};
use std::thread;

// How often a wait lets other threads run before it is given up.
const BOUND: u32 = 10_000_000;

// The one row of each file.
const ROW: &[u8] = b"36000000,50000,50000,50000,50000,7\n";

/// Which reads wait.
#[derive(Clone, Copy)]
pub enum Rule {
    /// The first read of each file waits until a read of the other one has begun.
    Meet,
    /// Each read of the file of SPY but its first one waits until the other file was opened.
    KeepOn,
}

// Which file is open.
#[derive(Clone, Copy)]
enum Which {
    Spy,
    Aapl,
}

// What has come about: of SPY that a read began, of AAPL that one did, or that the file was opened.
#[derive(Drop)]
struct Signs {
    spy: AtomicBool,
    aapl: AtomicBool,
}

/// A folder of a day's minute files of SPY and of AAPL, which tells no files. A hand that waits in vain has met a fault, and its
/// read fails.
#[derive(Drop)]
pub struct MeetFolder {
    signs: Arc<Signs>,
    rule: Rule,
    hands: u64,
    faults: u64,
}

impl MeetFolder {
    /// The folder whose reads wait by a rule.
    pub fn new(alloc: Global, rule: Rule) -> Result<MeetFolder, NoMemory> {
        let spy = AtomicBool::new(false);
        let aapl = AtomicBool::new(false);
        let signs = Arc::new(alloc, Signs { spy, aapl })?;
        Ok(MeetFolder {
            signs,
            rule,
            hands: 0,
            faults: 0,
        })
    }

    /// How many faults were met by the hands that were given back.
    pub fn faults(&self) -> u64 {
        self.faults
    }

    /// How many hands are out.
    pub fn hands(&self) -> u64 {
        self.hands
    }
}

/// Reads the files of such a folder.
#[derive(Drop)]
pub struct MeetHand {
    signs: Arc<Signs>,
    rule: Rule,
    which: Which,
    // How many bytes of the open file were read, and by how many reads.
    offset: usize,
    reads: u32,
    open: bool,
    faults: u64,
}

impl MeetHand {
    // Counts a fault, and lets the open file go.
    fn fail(&mut self) -> Failed
        ensures closed { self.new.open ≡ false }
        ensures grows { self.old.faults ≤ self.new.faults }
        ensures rose { Rose self.old.faults self.new.faults }
    {
        self.open = false;
        self.faults = self.faults.saturating_add(1);
        Failed
    }

    // Lets others know that a read begins, and waits where it has to. Whether it waited in vain.
    fn is_in_vain(&self, reads: u32) -> bool {
        match (self.rule, self.which) {
            (Rule::Meet, Which::Spy) => {
                self.signs.spy.store(true, Ordering::SeqCst);
                reads == 0 && !comes(&self.signs.aapl)
            }
            (Rule::Meet, Which::Aapl) => {
                self.signs.aapl.store(true, Ordering::SeqCst);
                reads == 0 && !comes(&self.signs.spy)
            }
            (Rule::KeepOn, Which::Spy) => reads > 0 && !comes(&self.signs.aapl),
            (Rule::KeepOn, Which::Aapl) => false,
        }
    }
}

// Waits for a sign. Whether it came.
fn comes(sign: &AtomicBool) -> bool {
    for _ in 0..BOUND {
        if sign.load(Ordering::SeqCst) {
            return true;
        }
        thread::yield_now();
    }
    false
}

impl Hand for MeetHand {
    ghost use Rattle.std.specs.Prelude.{None, []};

    ghost files = { λ _. None };

    ghost is_open = { λ h. h.open };

    ghost rest = { λ _. [] };

    ghost faults = { λ h. h.faults };

    fn open_file(&mut self, path: &str) -> Result<bool, Failed> {
        self.offset = 0;
        self.reads = 0;
        self.open = true;
        if path.ends_with("_spy_minute_trade.csv") {
            self.which = Which::Spy;
            return Ok(true);
        }
        if path.ends_with("_aapl_minute_trade.csv") {
            self.which = Which::Aapl;
            if let Rule::KeepOn = self.rule {
                self.signs.aapl.store(true, Ordering::SeqCst);
            }
            return Ok(true);
        }
        self.open = false;
        Ok(false)
    }

    fn read(&mut self, into: &mut [u8]) -> Result<usize, Failed> {
        let reads = self.reads;
        self.reads = reads.saturating_add(1);
        if self.is_in_vain(reads) {
            return Err(self.fail());
        }
        let from = self.offset.min(ROW.len());
        let rest = &ROW[from..];
        let n = rest.len().min(into.len());
        into[..n].copy_from_slice(&rest[..n]);
        self.offset = from + n;
        Ok(n)
    }
}

impl Folder for MeetFolder {
    ghost use Rattle.std.specs.Prelude.{None};

    type H = MeetHand;

    ghost files = { λ _. None };

    ghost faults = { λ f. f.faults };

    ghost hands = { λ f. f.hands };

    fn hand(&mut self, alloc: Global) -> Result<MeetHand, NoMemory> {
        let Some(hands) = self.hands.checked_add(1) else {
            return Err(NoMemory);
        };
        let signs = self.signs.clone()?;
        self.hands = hands;
        Ok(MeetHand {
            signs,
            rule: self.rule,
            which: Which::Spy,
            offset: 0,
            reads: 0,
            open: false,
            faults: 0,
        })
    }

    fn take_back(&mut self, hand: MeetHand) {
        self.hands = self.hands.saturating_sub(1);
        self.faults = self.faults.saturating_add(hand.faults);
    }
}
