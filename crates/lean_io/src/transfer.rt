ghost use Rattle.std.specs.Prelude.{◌≡◌, ℕ, ◌+◌, ◌<◌, ◌≤◌, ◌++◌, true, Some, length, take, IfOk, OnOk, OnErr, option_map};
ghost use Rattle.lean_io.specs.Told.{Files, Rose};
ghost use Rattle.lean_io.specs.Whole.{IsReading, HasCause};

use crate::ahead::PIECE;
use crate::outside::{Failed, Hand, Sink, WriteFault};
use lean_fixed::NoMemory;
use std::alloc::Global;

/// What the reading of a whole file gave.
#[derive(Drop)]
pub enum Whole {
    /// The file's bytes.
    Text(Vec<u8>),
    /// There is no such file.
    Missing,
    /// The file has more bytes than were allowed.
    Large,
    /// A read failed.
    Faulted,
}

/// Writes all the bytes, in at most as many writes as there are bytes. `WriteFault`: a write
/// failed, and the sink took a front of the bytes.
pub fn write_whole<S: Sink>(sink: &mut S, bytes: &[u8]) -> Result<(), WriteFault>
    ensures ok { OnOk result (S.told sink.new
        ≡ option_map (λ b. b ++ bytes.now) (S.told sink.old)) }
    ensures err { OnErr result ((n : ℕ) × (n ≤ length bytes.now)
        × (S.told sink.new ≡ option_map (λ b. b ++ take n bytes.now) (S.told sink.old))) }
    ensures few { S.writes sink.new ≤ S.writes sink.old + length bytes.now }
    ensures grows { S.faults sink.old ≤ S.faults sink.new }
    ensures rose { OnErr result (Rose (S.faults sink.old) (S.faults sink.new)) }
{
    let mut done = 0;
    while done < bytes.len() {
        match sink.write(&bytes[done..]) {
            Ok(n) => done += n,
            Err(Failed) => return Err(WriteFault),
        }
    }
    Ok(())
}

/// Reads the file at a path, and gives its bytes where it has at most `most`. Of a larger file it
/// reads no further than the piece that goes past `most`. `NoMemory`: there is no memory for the
/// bytes.
pub fn read_whole<H: Hand>(
    alloc: Global,
    hand: &mut H,
    path: &str,
    most: usize,
) -> Result<Whole, NoMemory>
    ensures told { IfOk result (λ whole. (f : Files) → H.files hand.old ≡ Some f
        → IsReading (f path.now) most whole) }
    ensures cause { IfOk result (λ whole. HasCause (H.faults hand.old) (H.faults hand.new) whole) }
    ensures kept { H.files hand.new ≡ H.files hand.old }
    ensures grows { H.faults hand.old ≤ H.faults hand.new }
{
    match hand.open_file(path) {
        Ok(true) => {
            let mut chunk = [0; PIECE];
            read_rest(alloc, hand, &mut chunk, most)
        }
        Ok(false) => Ok(Whole::Missing),
        Err(Failed) => Ok(Whole::Faulted),
    }
}

// Reads the rest of the open file, piece by piece through `chunk`.
fn read_rest<H: Hand>(
    alloc: Global,
    hand: &mut H,
    chunk: &mut [u8],
    most: usize,
) -> Result<Whole, NoMemory>
    requires opened { H.is_open hand.old ≡ true }
    requires room { 0 < length chunk.old }
    ensures told { IfOk result (λ whole. (f : Files) → H.files hand.old ≡ Some f
        → IsReading (Some (H.rest hand.old)) most whole) }
    ensures cause { IfOk result (λ whole. HasCause (H.faults hand.old) (H.faults hand.new) whole) }
    ensures kept { H.files hand.new ≡ H.files hand.old }
    ensures grows { H.faults hand.old ≤ H.faults hand.new }
{
    let mut text = Vec::new(alloc);
    'pieces: loop {
        match hand.read(chunk) {
            Ok(0) => return Ok(Whole::Text(text)),
            Ok(n) => {
                if n > most - text.len() {
                    return Ok(Whole::Large);
                }
                text.extend_from_slice(&chunk[..n])?;
            }
            Err(Failed) => return Ok(Whole::Faulted),
        }
    }
}
