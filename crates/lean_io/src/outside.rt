ghost use Rattle.std.specs.Prelude.{◌≡◌, ℕ, ◌+◌, ◌-◌, ◌<◌, ◌≤◌, ◌++◌, Bool, false, true, List, Option, Some, length, take, IfOk, OnOk, OnErr, option_map};
ghost use Rattle.lean_io.specs.Told.{Files, Opened, Reads, Rose};
ghost use Rattle.lean_io.specs.Counts.{raised};

use lean_fixed::NoMemory;
use std::alloc::Global;

/// A call of the outside failed. It is answered only where the count of faults of the object called
/// rose in this call, or stands at its last value, 2^64 - 1.
#[derive(Clone, Copy, Debug, PartialEq, Eq)]
pub struct Failed;

/// Not all bytes could be written. It is answered only where the sink's count of faults rose, or
/// stands at its last value.
#[derive(Clone, Copy, Debug)]
pub struct WriteFault;

/// Reads the files of a folder, one at a time.
pub trait Hand: Drop {
    /// The files, where the hand tells them.
    ghost files: { Self → Option Files };

    /// Whether a file is open.
    ghost is_open: { Self → Bool };

    /// The bytes of the open file that are not read yet. It means something where the files are
    /// told.
    ghost rest: { Self → List ℕ };

    /// How many faults the hand has met.
    ghost faults: { Self → ℕ };

    /// Opens the file at a path from its start, in place of the file that was open. False: there is
    /// no such file, and then no file is open. `Failed`: a fault, and then no file is open.
    fn open_file(&mut self, path: &str) -> Result<bool, Failed>
        ensures kept { files self.new ≡ files self.old }
        ensures grows { faults self.old ≤ faults self.new }
        ensures opened { IfOk result (λ found. is_open self.new ≡ found) }
        ensures told { IfOk result (λ found. (f : Files) → files self.old ≡ Some f
            → Opened f path.now found (rest self.new)) }
        ensures closed { OnErr result (is_open self.new ≡ false) }
        ensures rose { OnErr result (Rose (faults self.old) (faults self.new)) };

    /// Moves bytes of the open file to the front of `into`, and gives their number, which is 0 at
    /// the file's end or where `into` is empty. `Failed`: a fault, and then no file is open.
    fn read(&mut self, into: &mut [u8]) -> Result<usize, Failed>
        requires { is_open self.old ≡ true }
        ensures kept { files self.new ≡ files self.old }
        ensures grows { faults self.old ≤ faults self.new }
        ensures within { IfOk result (λ n. n ≤ length into.new) }
        ensures opened { OnOk result (is_open self.new ≡ true) }
        ensures told { IfOk result (λ n. (f : Files) → files self.old ≡ Some f
            → Reads n (rest self.old) (rest self.new) into.new) }
        ensures closed { OnErr result (is_open self.new ≡ false) }
        ensures rose { OnErr result (Rose (faults self.old) (faults self.new)) };
}

/// Files by their paths, which never change, and the hands that read them.
pub trait Folder {
    type H: Hand + Send;

    /// The files, where the folder tells them.
    ghost files: { Self → Option Files };

    /// How many faults were met by the hands that were taken back.
    ghost faults: { Self → ℕ };

    /// How many hands were given and not taken back.
    ghost hands: { Self → ℕ };

    /// Gives a hand that reads the folder's files, with no fault met and no file open. `NoMemory`:
    /// there is no memory for it, and the folder is as it was.
    fn hand(&mut self, alloc: Global) -> Result<Self::H, NoMemory>
        ensures told { IfOk result (λ h. Self.H.files h ≡ files self.old) }
        ensures fresh { IfOk result (λ h. (Self.H.faults h ≡ 0) × (Self.H.is_open h ≡ false)) }
        ensures kept { files self.new ≡ files self.old }
        ensures same { faults self.new ≡ faults self.old }
        ensures out { OnOk result (hands self.new ≡ hands self.old + 1) }
        ensures unchanged { OnErr result (self.new ≡ self.old) };

    /// Takes a hand back, and adds the faults that it met to the folder's count, which stands still
    /// at 2^64 - 1.
    fn take_back(&mut self, hand: Self::H)
        ensures kept { files self.new ≡ files self.old }
        ensures grows { faults self.old ≤ faults self.new }
        ensures raised { faults self.new ≡ raised (faults self.old) (Self.H.faults hand) }
        ensures back { hands self.new ≡ hands self.old - 1 };
}

/// Takes what is printed.
pub trait Sink {
    /// The bytes that were taken, where the sink tells them.
    ghost told: { Self → Option (List ℕ) };

    /// How many faults the sink has met.
    ghost faults: { Self → ℕ };

    /// How many writes were asked of the sink. The count stands still at 2^64 - 1.
    ghost writes: { Self → ℕ };

    /// Takes bytes from the front of a piece, and gives their number, which is at least 1 where the
    /// piece is not empty. `Failed`: a fault, and none was taken.
    fn write(&mut self, bytes: &[u8]) -> Result<usize, Failed>
        ensures took { IfOk result (λ n. n ≤ length bytes.now) }
        ensures some { IfOk result (λ n. 0 < length bytes.now → 0 < n) }
        ensures told { IfOk result (λ n. told self.new
            ≡ option_map (λ b. b ++ take n bytes.now) (told self.old)) }
        ensures same { OnErr result (told self.new ≡ told self.old) }
        ensures counted { writes self.new ≡ raised (writes self.old) 1 }
        ensures grows { faults self.old ≤ faults self.new }
        ensures rose { OnErr result (Rose (faults self.old) (faults self.new)) };
}
