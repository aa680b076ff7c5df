ghost use Rattle.std.specs.Prelude.{◌≡◌, ◌<◌, ◌≤◌, ◌↔◌, Ok, length, take, IfOk, OnOk, OnErr, IsErr};
ghost use Rattle.std.specs.Io.KnownBytes.{Keeps, Appends};
ghost use Rattle.lean_io.specs.Counts.{raised};
ghost use Rattle.lean_io.specs.StdSink.{IsFault};

use crate::counts::Count;
use crate::outside::{Failed, Sink};
use std::io;
use std::io::Write;
use std::marker::Model;

/// Standard output. It tells nothing of what was taken, and counts each write and each write that
/// failed. Contracts see it as these two counts.
#[derive(Drop)]
pub struct StdSink<R> {
    rt: R,
    writes: Count,
    faults: Count,
}

impl<R> Model for StdSink<R> {
    ghost use Rattle.lean_io.specs.StdSink.{OutputState};

    ghost Value = { OutputState };

    ghost view = { λ s. record { writes = s.writes; faults = s.faults } };
}

impl<R: Print + Copy + Send + Drop + 'static> StdSink<R> {
    ghost use Rattle.std.specs.Prelude.{◌≡◌};
    ghost use Rattle.lean_io.specs.StdSink.{no_writes};

    /// The standard output of a runtime, with nothing written and no fault counted.
    pub fn new(rt: R) -> StdSink<R>
        ensures { result ≡ no_writes }
    {
        StdSink {
            rt,
            writes: Count::new(),
            faults: Count::new(),
        }
    }
}

impl<R: Print + Copy + Send + Drop + 'static> Sink for StdSink<R> {
    ghost use Rattle.std.specs.Prelude.{◌≡◌, ◌<◌, ◌≤◌, None, length, IfOk, OnOk, OnErr};
    ghost use Rattle.lean_io.specs.Counts.{raised};

    ghost told = { λ _. None };

    ghost faults = { λ s. s.faults };

    ghost writes = { λ s. s.writes };

    fn write(&mut self, bytes: &[u8]) -> Result<usize, Failed>
        ensures took { IfOk result (λ n. n ≤ length bytes.now) }
        ensures some { IfOk result (λ n. 0 < length bytes.now → 0 < n) }
        ensures counted { self.new.writes ≡ raised self.old.writes 1 }
        ensures same { OnOk result (self.new.faults ≡ self.old.faults) }
        ensures failed { OnErr result (self.new.faults ≡ raised self.old.faults 1) }
        ensures grows { self.old.faults ≤ self.new.faults }
    {
        let mut out = io::writer(&self.rt);
        write_once(&mut out, bytes, &mut self.writes, &mut self.faults)
    }
}

// Gives a piece to a writer in one write, which is counted, as is its fault. What the writer took of
// the piece is told as it is.
fn write_once<W: Write>(
    out: &mut W,
    piece: &[u8],
    writes: &mut Count,
    faults: &mut Count,
) -> Result<usize, Failed>
    ensures within { IfOk result (λ n. n ≤ length piece.now) }
    ensures some { IfOk result (λ n. 0 < length piece.now → 0 < n) }
    ensures took { IfOk result (λ n. Appends (W.contents out.old) (W.contents out.new)
        (take n piece.now)) }
    ensures kept { OnErr result (Keeps (W.contents out.old) (W.contents out.new)) }
    ensures counted { writes.new ≡ raised writes.old 1 }
    ensures same { OnOk result (faults.new ≡ faults.old) }
    ensures failed { OnErr result (faults.new ≡ raised faults.old 1) }
    ensures grows { faults.old ≤ faults.new }
{
    writes.rise();
    let answer = out.write(piece);
    match taken(piece.len(), answer) {
        Ok(n) => Ok(n),
        Err(Failed) => {
            faults.rise();
            Err(Failed)
        }
    }
}

// How much of a piece of this length was taken, by the system's answer to its write. Where the
// system took nothing of a piece that is not empty, the write would be tried again for ever, and is
// a fault.
fn taken(length: usize, answer: io::Result<usize>) -> Result<usize, Failed>
    ensures failed { IsErr result ↔ IsFault length answer }
    ensures took { IfOk result (λ n. answer ≡ Ok n) }
{
    match answer {
        Ok(n) if n > 0 || length == 0 => Ok(n),
        _ => Err(Failed),
    }
}
