use crate::ahead::Ahead;
use crate::counts::{Count, one_more};
use crate::outside::{Failed, Folder, Hand};
use lean_fixed::NoMemory;
use std::alloc::Global;
use std::io::ErrorKind;
use std::marker::Model;
use std::rt::Files;
use std::{fs, io};

/// The files of the current directory. It tells nothing of their content, and counts the hands that
/// are out and the faults of those that were taken back. Contracts see it as these counts.
#[derive(Drop)]
pub struct DirFolder<R> {
    rt: R,
    hands: u64,
    faults: Count,
}

impl<R> Model for DirFolder<R> {
    ghost use Rattle.lean_io.specs.DirHand.{DirState};

    ghost Value = { DirState };

    ghost view = { λ s. record { hands = s.hands; faults = s.faults } };
}

impl<R: Files + Copy + Send + Drop + 'static> DirFolder<R> {
    ghost use Rattle.std.specs.Prelude.{◌≡◌};
    ghost use Rattle.lean_io.specs.DirHand.{new_directory};

    /// The files whose paths are taken from the current directory of a runtime, with no hand out and
    /// no fault counted.
    pub fn new(rt: R) -> DirFolder<R>
        ensures { result ≡ new_directory }
    {
        DirFolder {
            rt,
            hands: 0,
            faults: Count::new(),
        }
    }
}

impl<R: Files + Copy + Send + Drop + 'static> Folder for DirFolder<R>
where
    R::File: Send,
{
    ghost use Rattle.std.specs.Prelude.{◌≡◌, ◌≤◌, None, IfOk, OnOk, OnErr};
    ghost use Rattle.lean_io.specs.DirHand.{new_hand, given, taken_back};

    type H = DirHand<R>;

    ghost files = { λ _. None };

    ghost faults = { λ s. s.faults };

    ghost hands = { λ s. s.hands };

    fn hand(&mut self, alloc: Global) -> Result<DirHand<R>, NoMemory>
        ensures hand { IfOk result (λ h. h ≡ new_hand) }
        ensures given { OnOk result (self.new ≡ given self.old) }
        ensures same { OnErr result (self.new ≡ self.old) }
    {
        let ahead = Ahead::new(alloc)?;
        self.hands = one_more(self.hands)?;
        Ok(DirHand {
            rt: self.rt,
            file: None,
            ahead,
            faults: Count::new(),
        })
    }

    fn take_back(&mut self, hand: DirHand<R>)
        ensures back { self.new ≡ taken_back self.old hand }
        ensures grows { self.old.faults ≤ self.new.faults }
    {
        self.hands = self.hands.saturating_sub(1);
        self.faults.add(&hand.faults);
    }
}

/// Reads files of the current directory, through a buffer that is made once.
#[derive(Drop)]
pub struct DirHand<R: Files> {
    rt: R,
    file: Option<R::File>,
    ahead: Ahead,
    faults: Count,
}

impl<R: Files> Model for DirHand<R> {
    ghost use Rattle.std.specs.Prelude.{is_some};
    ghost use Rattle.lean_io.specs.DirHand.{DirHandState, unread_of};

    ghost Value = { DirHandState };

    ghost view = { λ h. record {
      is_open = is_some h.file;
      ahead = h.ahead;
      unread = unread_of R.File.remaining h.ahead h.file;
      faults = h.faults;
    } };
}

impl<R: Files> DirHand<R> {
    ghost use Rattle.std.specs.Prelude.{◌≡◌, ◌≤◌, ◌↔◌, Ok, true, false, IfOk, OnErr, IsOk, IsErrAnd};
    ghost use Rattle.std.specs.IoError.{error_kind};
    ghost use Rattle.lean_io.specs.DirHand.{opened, failed, content_of};

    // Takes the system's answer to an opening: its file, or none where the error is "not found".
    // Any other error is a fault. Nothing of the file before stays read ahead.
    fn settle(&mut self, answer: io::Result<R::File>) -> Result<bool, Failed>
        ensures found { (result ≡ Ok true) ↔ IsOk answer }
        ensures missing { (result ≡ Ok false)
            ↔ IsErrAnd answer (λ e. error_kind e ≡ ErrorKind.NotFound) }
        ensures opened { IfOk result (λ found. self.new
            ≡ opened self.old found (content_of R.File.remaining answer)) }
        ensures failed { OnErr result (self.new ≡ failed self.old) }
        ensures grows { self.old.faults ≤ self.new.faults }
    {
        self.ahead.clear();
        match answer {
            Ok(file) => {
                self.file = Some(file);
                Ok(true)
            }
            Err(e) if e.kind() == ErrorKind::NotFound => {
                self.file = None;
                Ok(false)
            }
            Err(_) => Err(self.fail()),
        }
    }

    // Counts a fault, and lets the open file go.
    fn fail(&mut self) -> Failed
        ensures failed { self.new ≡ failed self.old }
        ensures grows { self.old.faults ≤ self.new.faults }
    {
        self.file = None;
        self.ahead.clear();
        self.faults.rise();
        Failed
    }
}

impl<R: Files + Copy + Send + Drop + 'static> Hand for DirHand<R>
where
    R::File: Send,
{
    ghost use Rattle.std.specs.Prelude.{◌≡◌, ◌<◌, ◌≤◌, None, true, [], length, take, IfOk, OnOk, OnErr};
    ghost use Rattle.std.specs.Io.KnownBytes.{Consumes, IsAtEnd};
    ghost use Rattle.lean_io.specs.DirHand.{failed, SameFile};

    ghost files = { λ _. None };

    ghost is_open = { λ h. h.is_open };

    ghost rest = { λ _. [] };

    ghost faults = { λ h. h.faults };

    fn open_file(&mut self, path: &str) -> Result<bool, Failed>
        ensures opened { IfOk result (λ found. self.new.is_open ≡ found) }
        ensures fresh { OnOk result (self.new.ahead ≡ []) }
        ensures same { OnOk result (self.new.faults ≡ self.old.faults) }
        ensures failed { OnErr result (self.new ≡ failed self.old) }
        ensures grows { self.old.faults ≤ self.new.faults }
    {
        let answer = fs::open(&self.rt, path);
        self.settle(answer)
    }

    // The bytes are those that the file gives, in its order, and none is lost or given twice.
    fn read(&mut self, into: &mut [u8]) -> Result<usize, Failed>
        requires { self.old.is_open ≡ true }
        ensures within { IfOk result (λ n. n ≤ length into.new) }
        ensures same { OnOk result (SameFile self.old self.new) }
        ensures read { IfOk result (λ n.
            Consumes self.old.unread self.new.unread (take n into.new)) }
        ensures end { IfOk result (λ n. n ≡ 0 → 0 < length into.new → IsAtEnd self.new.unread) }
        ensures failed { OnErr result (self.new ≡ failed self.old) }
        ensures grows { self.old.faults ≤ self.new.faults }
    {
        let Some(file) = self.file.as_mut() else {
            unreachable!()
        };
        match self.ahead.read(file, into) {
            Ok(n) => Ok(n),
            Err(_) => Err(self.fail()),
        }
    }
}
