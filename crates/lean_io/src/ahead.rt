ghost use Rattle.std.specs.Prelude.{◌≡◌, ◌<◌, ◌≤◌, ◌++◌, [], length, min, take, drop, IfOk, OnOk, vec_len};
ghost use Rattle.std.specs.Io.KnownBytes.{Keeps, Consumes, IsAtEnd, prepend_known};

use lean_fixed::NoMemory;
use std::alloc::Global;
use std::io;
use std::io::Read;
use std::marker::Model;

// How many bytes are asked of a file at a time: a day's minute rows take some 20,000.
pub const PIECE: usize = 32_768;

// Bytes of a file that were read ahead, in a buffer that is made once, so that small reads need no
// call of the system each. Contracts see it as the list of these bytes.
#[derive(Drop)]
pub struct Ahead {
    buffer: Vec<u8>,
    from: usize,
    to: usize,
}

impl Model for Ahead {
    ghost use Rattle.std.specs.Prelude.{ℕ, List, ◌<◌, ◌≤◌, ◌-◌, take, drop, vec_len};

    ghost Value = { List ℕ };

    ghost view = { λ a. take (a.to - a.from) (drop a.from a.buffer.items) };

    ghost invariant = { λ a. (a.from ≤ a.to) × (a.to ≤ vec_len a.buffer) × (0 < vec_len a.buffer) };
}

impl Ahead {
    // Nothing is read ahead yet. `NoMemory`: there is no memory for the buffer.
    pub fn new(alloc: Global) -> Result<Ahead, NoMemory>
        ensures { IfOk result (λ a. a ≡ []) }
    {
        let buffer = zeros(alloc, PIECE)?;
        Ok(Ahead {
            buffer,
            from: 0,
            to: 0,
        })
    }

    // Lets go what was read ahead.
    pub fn clear(&mut self)
        ensures { self.new ≡ [] }
    {
        self.from = 0;
        self.to = 0;
    }

    // Moves the next bytes of a file to the front of `into`: those that were read ahead, and where
    // there are none such that the file gives now. A piece as long as the buffer is read past it.
    pub fn read<F: Read>(&mut self, file: &mut F, into: &mut [u8]) -> io::Result<usize>
        ensures within { IfOk result (λ n. n ≤ length into.new) }
        ensures read { IfOk result (λ n. Consumes (prepend_known self.old (F.remaining file.old))
            (prepend_known self.new (F.remaining file.new)) (take n into.new)) }
        ensures end { IfOk result (λ n. n ≡ 0 → 0 < length into.new
            → IsAtEnd (prepend_known self.new (F.remaining file.new))) }
    {
        if self.from == self.to && into.len() >= self.buffer.len() {
            return file.read(into);
        }
        self.refill(file)?;
        Ok(self.take(into))
    }

    // Reads bytes of a file where there are none: at least one but at the file's end.
    fn refill<F: Read>(&mut self, file: &mut F) -> io::Result<()>
        ensures kept { OnOk result (Keeps (prepend_known self.old (F.remaining file.old))
            (prepend_known self.new (F.remaining file.new))) }
        ensures end { OnOk result (self.new ≡ [] → IsAtEnd (F.remaining file.new)) }
    {
        if self.from < self.to {
            return Ok(());
        }
        self.from = 0;
        self.to = 0;
        self.to = file.read(self.buffer.as_mut_slice())?;
        Ok(())
    }

    // Moves bytes from the front to `into`, as many as there are and have room.
    fn take(&mut self, into: &mut [u8]) -> usize
        ensures amount { result ≡ min (length into.new) (length self.old) }
        ensures moved { into.new ≡ take result self.old ++ drop result into.old }
        ensures left { self.new ≡ drop result self.old }
    {
        let n = into.len().min(self.to - self.from);
        into[..n].copy_from_slice(&self.buffer[self.from..self.from + n]);
        self.from += n;
        n
    }
}

// So many zeros.
fn zeros(alloc: Global, count: usize) -> Result<Vec<u8>, NoMemory>
    ensures { IfOk result (λ v. vec_len v ≡ count) }
{
    Ok(vec![in alloc; 0; count]?)
}
