//! The backtest of an algorithm file: behind it and the hours file every moment of its window, and the summary.
ghost use Rattle.std.specs.Prelude.{◌≡◌, ◌≤◌, false, [], Some, IfOk};
ghost use Rattle.std.specs.Arc.{arc_value};
ghost use Rattle.lean_io.specs.Told.{Files};
ghost use Rattle.rule_strategy.specs.Validity.{IsPlan};
ghost use Rattle.clock_book.specs.Books.{new_book};
ghost use Rattle.lean_top.specs.AlgorithmRead.{algorithm_in};
ghost use Rattle.lean_top.specs.HoursRead.{hours_file};
ghost use Rattle.lean_top.specs.Command.{Backtest};
ghost use Rattle.lean_top.specs.Outcome.{HasReported, NamesNoUsage, Went};
ghost use Rattle.lean_top.specs.Report.{setup_of, world_for, backtest_over, backtest_report_of, backtest_with, report_of, AreMomentsOf, AreWholeSteps, StepsWith};

use crate::algorithm::{AlgorithmRead, read_algorithm};
use crate::hours::{HoursRead, read_hours};
use crate::refusal::{refuse_algorithm, refuse_hours};
use crate::status::{Status, run_status_of};
use backtest_engine::run;
use clock_run::laws::no_look_ahead;
use exchange_hours::Hours;
use feed_pool::SerialPool;
use lean_fixed::NoMemory;
use lean_io::{Folder, Sink};
use order_book::Book;
use order_desk::{Desk, SerialDesk};
use rule_strategy::Plan;
use std::alloc::Global;
use std::sync::Arc;

/// Prints the backtest of the algorithm file at a path, or the line that refuses that file or the hours file.
pub fn backtest<F: Folder, S: Sink>(
    alloc: Global,
    path: &str,
    workers: u32,
    folder: &mut F,
    out: &mut S,
) -> Status
    ensures reported { (f : Files) → F.files folder.old ≡ Some f
        → HasReported (report_of f (Some (Backtest path.now workers))) (AreWholeSteps f (Some (Backtest path.now workers)))
        (S.told out.old) (S.told out.new) result }
    ensures taken { NamesNoUsage result }
    ensures went { Went F.files F.hands F.faults S.faults folder.old folder.new out.old out.new result }
{
    match read_algorithm(alloc, folder, path) {
        Ok(AlgorithmRead::Read(plan)) => backtest_of(alloc, plan, folder, out),
        Ok(AlgorithmRead::Refused(words)) => refuse_algorithm(alloc, &words, out),
        Ok(AlgorithmRead::Faulted) => Status::ReadFault,
        Err(NoMemory) => Status::NoMemory,
    }
}

// Prints the backtest of a plan, or the line that refuses the hours file.
fn backtest_of<F: Folder, S: Sink>(alloc: Global, plan: Plan, folder: &mut F, out: &mut S) -> Status
    requires { IsPlan plan }
    ensures reported { (f : Files) → F.files folder.old ≡ Some f
        → HasReported (backtest_with f plan (hours_file f)) (StepsWith f plan (hours_file f)) (S.told out.old) (S.told out.new) result }
    ensures taken { NamesNoUsage result }
    ensures went { Went F.files F.hands F.faults S.faults folder.old folder.new out.old out.new result }
{
    match read_hours(alloc, folder) {
        Ok(HoursRead::Read(hours)) => backtest_by(alloc, plan, hours, folder, out),
        Ok(HoursRead::Refused(word)) => refuse_hours(alloc, word, out),
        Ok(HoursRead::Faulted) => Status::ReadFault,
        Err(NoMemory) => Status::NoMemory,
    }
}

// Prints the backtest of a plan by the hours of the exchange.
fn backtest_by<F: Folder, S: Sink>(
    alloc: Global,
    plan: Plan,
    hours: Hours,
    folder: &mut F,
    out: &mut S,
) -> Status
    requires { IsPlan plan }
    ensures reported { (f : Files) → F.files folder.old ≡ Some f
        → HasReported (backtest_report_of (setup_of plan hours) (backtest_over f (setup_of plan hours)))
        (AreMomentsOf (setup_of plan hours) (world_for f (setup_of plan hours))) (S.told out.old) (S.told out.new) result }
    ensures taken { NamesNoUsage result }
    ensures went { Went F.files F.hands F.faults S.faults folder.old folder.new out.old out.new result }
{
    match Arc::new(alloc, hours) {
        Ok(hours) => run_plan(alloc, plan, hours, folder, out),
        Err(_) => Status::NoMemory,
    }
}

// Prints the backtest of a plan over the feeds of the folder's files.
fn run_plan<F: Folder, S: Sink>(
    alloc: Global,
    plan: Plan,
    hours: Arc<Hours>,
    folder: &mut F,
    out: &mut S,
) -> Status
    requires { IsPlan plan }
    ensures reported { (f : Files) → F.files folder.old ≡ Some f
        → HasReported (backtest_report_of (setup_of plan (arc_value hours)) (backtest_over f (setup_of plan (arc_value hours))))
        (AreMomentsOf (setup_of plan (arc_value hours)) (world_for f (setup_of plan (arc_value hours))))
        (S.told out.old) (S.told out.new) result }
    ensures taken { NamesNoUsage result }
    ensures went { Went F.files F.hands F.faults S.faults folder.old folder.new out.old out.new result }
{
    no_look_ahead();
    let Ok(own) = hours.clone() else {
        return Status::NoMemory;
    };
    let Ok(desk) = desk_of(alloc, &plan, &hours) else {
        return Status::NoMemory;
    };
    match SerialPool::new(alloc, folder, plan.window, own) {
        Ok(mut pool) => run_status_of(run(alloc, plan, hours, &mut pool, desk, out)),
        Err(NoMemory) => Status::NoMemory,
    }
}

// A desk over a new book of a plan.
fn desk_of(alloc: Global, plan: &Plan, hours: &Arc<Hours>) -> Result<SerialDesk, NoMemory>
    requires { IsPlan plan.now }
    ensures stands { IfOk result (λ desk. ⟦<SerialDesk as Desk>⟧.stands desk
        (new_book plan.now.cash.0 plan.now.costs plan.now.leverage (arc_value hours.now)) [] []) }
    ensures fed { IfOk result (λ desk. ⟦<SerialDesk as Desk>⟧.starved desk ≡ false) }
    ensures submitted { IfOk result (λ desk. ⟦<SerialDesk as Desk>⟧.submitted desk ≡ 0) }
    ensures orders { IfOk result (λ desk. ⟦<SerialDesk as Desk>⟧.orders desk ≡ 0) }
    ensures answered { IfOk result (λ desk. ⟦<SerialDesk as Desk>⟧.answered desk ≡ 0) }
{
    let own = hours.clone()?;
    let book = Book::new(alloc, plan.cash, plan.costs, plan.leverage, own);
    Ok(SerialDesk::new(alloc, book))
}
