//! The lines that refuse a file which is read before a report begins.
ghost use Rattle.std.specs.Prelude.{◌≡◌, ◌≤◌, [], ◌∷◌, ◌++◌, IfOk};
ghost use Rattle.lean_io.specs.Told.{Rose};
ghost use Rattle.lean_top.specs.HoursRead.{hours_line};
ghost use Rattle.lean_top.specs.AlgorithmRead.{algorithm_line};
ghost use Rattle.lean_top.specs.Outcome.{HasRefused};

use crate::status::Status;
use lean_fixed::NoMemory;
use lean_io::{Sink, WriteFault, write_whole};
use std::alloc::Global;

/// Prints the line that refuses the hours file.
#[tactic(auto, unfolding(crate::specs::HoursRead::hours_line))]
pub fn refuse_hours<S: Sink>(alloc: Global, word: &str, out: &mut S) -> Status
    ensures refused { HasRefused (hours_line word.now) (S.told out.old) (S.told out.new) result }
    ensures cause { result ≡ Status.WriteFault → Rose (S.faults out.old) (S.faults out.new) }
    ensures grows { S.faults out.old ≤ S.faults out.new }
{
    print_refusal(alloc, b"hours ", word.as_bytes(), out)
}

/// Prints the line that refuses the algorithm file.
#[tactic(auto, unfolding(crate::specs::AlgorithmRead::algorithm_line))]
pub fn refuse_algorithm<S: Sink>(alloc: Global, words: &[u8], out: &mut S) -> Status
    ensures refused { HasRefused (algorithm_line words.now) (S.told out.old) (S.told out.new) result }
    ensures cause { result ≡ Status.WriteFault → Rose (S.faults out.old) (S.faults out.new) }
    ensures grows { S.faults out.old ≤ S.faults out.new }
{
    print_refusal(alloc, b"algorithm ", words, out)
}

// Prints the line of the file's name and the words.
fn print_refusal<S: Sink>(alloc: Global, name: &[u8], words: &[u8], out: &mut S) -> Status
    ensures refused { HasRefused (name.now ++ words.now ++ 10 ∷ []) (S.told out.old) (S.told out.new) result }
    ensures cause { result ≡ Status.WriteFault → Rose (S.faults out.old) (S.faults out.new) }
    ensures grows { S.faults out.old ≤ S.faults out.new }
{
    match refusal_text(alloc, name, words) {
        Ok(text) => match write_whole(out, &text) {
            Ok(()) => Status::Algorithm,
            Err(WriteFault) => Status::WriteFault,
        },
        Err(NoMemory) => Status::NoMemory,
    }
}

fn refusal_text(alloc: Global, name: &[u8], words: &[u8]) -> Result<Vec<u8>, NoMemory>
    ensures { IfOk result (λ text. text.items ≡ name.now ++ words.now ++ 10 ∷ []) }
{
    let mut text = Vec::new(alloc);
    text.extend_from_slice(name)?;
    text.extend_from_slice(words)?;
    text.push(b'\n')?;
    Ok(text)
}
