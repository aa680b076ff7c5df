//! The demo of a number: the end of the backtest of the folder that is made from it.
ghost use Rattle.std.specs.Prelude.{◌≡◌, ℕ, ◌≤◌, ◌++◌, IfOk};
ghost use Rattle.lean_top.specs.CloseTail.{behind_close};
ghost use Rattle.lean_top.specs.DemoEnd.{IsWhole, IsEndOf};
ghost use Rattle.lean_top.specs.Outcome.{HasReported, HasStatusCause, NamesNoUsage};
ghost use Rattle.lean_top.specs.Report.{demo_line, demo_report};

use crate::backtest::backtest;
use crate::close_tail::CloseTail;
use crate::fault_text::bytes_of;
use crate::status::Status;
use data_maker::make;
use itoa::Buffer;
use lean_fixed::NoMemory;
use lean_io::{Sink, WriteFault, write_whole};
use std::alloc::Global;

/// Where the algorithm file of a made folder lies.
const PLAN_PATH: &str = "demo.toml";

// How the backtest of a made folder ended.
#[derive(Drop)]
pub struct DemoEnd {
    pub status: Status,
    // what follows the last close line
    pub text: Vec<u8>,
}

/// Prints the line of the number, and what follows the last close line of the backtest of the folder that is made from it.
pub fn demo<S: Sink>(alloc: Global, number: u64, workers: u32, out: &mut S) -> Status
    requires { number ≤ 999999 }
    ensures reported { HasReported (demo_report number) (λ _. ⊥) (S.told out.old) (S.told out.new) result }
    ensures taken { NamesNoUsage result }
    ensures cause { (folder now : ℕ) → HasStatusCause folder now (S.faults out.old) (S.faults out.new) result }
    ensures grows { S.faults out.old ≤ S.faults out.new }
{
    match run_made(alloc, number, workers) {
        Ok(end) => print_end(alloc, number, &end, out),
        Err(NoMemory) => Status::NoMemory,
    }
}

// Runs the backtest of the folder that is made from a number.
fn run_made(alloc: Global, number: u64, workers: u32) -> Result<DemoEnd, NoMemory>
    requires { number ≤ 999999 }
    ensures end { IfOk result (IsEndOf number) }
    ensures whole { IfOk result (λ end. IsWhole end.status) }
    ensures taken { IfOk result (λ end. NamesNoUsage end.status) }
{
    let mut folder = make(alloc, number)?;
    let mut tail = CloseTail::new(alloc);
    let status = backtest(alloc, PLAN_PATH, workers, &mut folder, &mut tail);
    end_by(status, tail)
}

// The end of a backtest, by its status and the sink that it was printed into. That sink fails only for want of memory.
fn end_by(status: Status, tail: CloseTail) -> Result<DemoEnd, NoMemory>
    requires { status ≡ Status.ReadFault → ⊥ }
    ensures text { IfOk result (λ end. end.text.items ≡ behind_close tail.bytes) }
    ensures status { IfOk result (λ end. end.status ≡ status) }
    ensures whole { IfOk result (λ end. IsWhole end.status) }
{
    match status {
        Status::NoMemory | Status::WriteFault => Err(NoMemory),
        Status::ReadFault => unreachable!(),
        Status::Done | Status::Usage | Status::Algorithm | Status::BadRow | Status::Limit => {
            Ok(DemoEnd {
                status,
                text: tail.into_kept(),
            })
        }
    }
}

// Prints the line of the number, and the text behind it.
fn print_end<S: Sink>(alloc: Global, number: u64, end: &DemoEnd, out: &mut S) -> Status
    requires whole { IsWhole end.now.status }
    requires taken { NamesNoUsage end.now.status }
    ensures reported { HasReported (demo_line number ++ end.now.text.items, end.now.status) (λ _. ⊥)
        (S.told out.old) (S.told out.new) result }
    ensures taken { NamesNoUsage result }
    ensures cause { (folder now : ℕ) → HasStatusCause folder now (S.faults out.old) (S.faults out.new) result }
    ensures grows { S.faults out.old ≤ S.faults out.new }
{
    match demo_text(alloc, number, &end.text) {
        Ok(text) => match write_whole(out, &text) {
            Ok(()) => end.status,
            Err(WriteFault) => Status::WriteFault,
        },
        Err(NoMemory) => Status::NoMemory,
    }
}

fn demo_text(alloc: Global, number: u64, tail: &[u8]) -> Result<Vec<u8>, NoMemory>
    ensures { IfOk result (λ text. text.items ≡ demo_line number ++ tail.now) }
{
    let mut text = demo_line(alloc, number)?;
    text.extend_from_slice(tail)?;
    Ok(text)
}

fn demo_line(alloc: Global, number: u64) -> Result<Vec<u8>, NoMemory>
    ensures { IfOk result (λ line. line.items ≡ demo_line number) }
{
    let mut buffer = Buffer::new();
    let mut line = bytes_of(alloc, b"demo ")?;
    line.extend_from_slice(buffer.format(number).as_bytes())?;
    line.push(b'\n')?;
    Ok(line)
}
