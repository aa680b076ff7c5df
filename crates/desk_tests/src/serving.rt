ghost use Rattle.std.specs.Prelude.{◌≡◌, ◌+◌, ◌^◌, ◌<◌, ◌≤◌, ◌⊎◌, true, false, is_err, List, [], ◌++◌, vec_len, IfOk, OnOk};
ghost use Rattle.std.specs.List.{All};
ghost use Rattle.lean_orders.specs.declared.desk.Command.{Command as Asked};
ghost use Rattle.lean_orders.specs.declared.desk.Reply.{Reply as Answer};
ghost use Rattle.clock_book.specs.Books.{Book as ClockBook};
ghost use Rattle.clock_book.specs.Fitting.{IsFitting, most_orders};
ghost use Rattle.clock_book.specs.Handled.{after, replies};
ghost use Rattle.order_book.specs.Stands.{StandsFor};
ghost use Rattle.order_desk.specs.Served.{dones};
ghost use Rattle.desk_tests.specs.Calls.{orders_of, replies_of, ticketed};

use lean_fixed::NoMemory;
use lean_orders::{Command, Heard};
use order_book::Book;
use order_desk::Desk;
use std::alloc::Global;

/// What was heard of some commands and then of others, and the book that they left.
#[derive(Drop)]
pub struct Outcome {
    pub early: Vec<Heard>,
    pub late: Vec<Heard>,
    pub book: Book,
}

/// Submits some commands to a new desk and hears their replies, does the same with others, and finishes the desk. What was
/// heard is what the book replies, ticket by ticket, and the book is what the commands have made of it.
pub fn serve<D: Desk>(
    alloc: Global,
    desk: D,
    first: Vec<Command>,
    second: Vec<Command>,
) -> Result<Outcome, NoMemory>
    requires fed { D.starved desk ≡ false }
    requires submitted { D.submitted desk ≡ 0 }
    requires answered { D.answered desk ≡ 0 }
    requires few { vec_len first + vec_len second < 2 ^ 60 }
    requires orders { D.orders desk + orders_of (first.items ++ second.items) ≤ most_orders }
    requires fitting { All IsFitting (first.items ++ second.items) }
    ensures early { IfOk result (λ outcome. (s : ClockBook) → D.stands desk s [] []
        → replies_of outcome.early.items ≡ replies s first.items) }
    ensures late { IfOk result (λ outcome. (s : ClockBook) → D.stands desk s [] []
        → replies_of outcome.late.items ≡ replies (after s first.items) second.items) }
    ensures book { IfOk result (λ outcome. (s : ClockBook) → D.stands desk s [] []
        → StandsFor outcome.book (after s (first.items ++ second.items))) }
    ensures tickets { IfOk result (λ outcome. outcome.early.items ++ outcome.late.items
        ≡ ticketed 1 (replies_of (outcome.early.items ++ outcome.late.items))) }
{
    let mut desk = desk;
    match phase(alloc, &mut desk, first) {
        Err(NoMemory) => {
            let _ = desk.finish();
            Err(NoMemory)
        }
        Ok(early) => match phase(alloc, &mut desk, second) {
            Err(NoMemory) => {
                let _ = desk.finish();
                Err(NoMemory)
            }
            Ok(late) => Ok(Outcome {
                early,
                late,
                book: desk.finish(),
            }),
        },
    }
}

// Submits some commands and hears until all are done.
fn phase<D: Desk>(
    alloc: Global,
    desk: &mut D,
    commands: Vec<Command>,
) -> Result<Vec<Heard>, NoMemory>
    requires fed { D.starved desk.old ≡ false }
    requires few { D.submitted desk.old + vec_len commands < 2 ^ 60 }
    requires orders { D.orders desk.old + orders_of commands.items ≤ most_orders }
    requires fitting { All IsFitting commands.items }
    ensures fed { OnOk result (D.starved desk.new ≡ false) }
    ensures ends { (D.starved desk.new ≡ true) ⊎ (D.answered desk.new ≡ D.submitted desk.new) }
    ensures submitted { OnOk result
        (D.submitted desk.new ≡ D.submitted desk.old + vec_len commands) }
    ensures orders { OnOk result
        (D.orders desk.new ≡ D.orders desk.old + orders_of commands.items) }
    ensures stands { IfOk result (λ heard. (s : ClockBook) (cs : List Asked) (rs : List Answer)
        → D.stands desk.old s cs rs
        → D.stands desk.new s (cs ++ commands.items) (rs ++ replies_of heard.items)) }
    ensures answered { IfOk result (λ heard.
        D.answered desk.new ≡ D.answered desk.old + dones (replies_of heard.items)) }
    ensures tickets { IfOk result (λ heard. heard.items
        ≡ ticketed (D.answered desk.old + 1) (replies_of heard.items)) }
{
    match submit_all(desk, commands) {
        Err(NoMemory) => Err(NoMemory),
        Ok(()) => hear_all(alloc, desk),
    }
}

// Submits some commands, one after another.
fn submit_all<D: Desk>(desk: &mut D, commands: Vec<Command>) -> Result<(), NoMemory>
    requires fed { D.starved desk.old ≡ false }
    requires few { D.submitted desk.old + vec_len commands < 2 ^ 60 }
    requires orders { D.orders desk.old + orders_of commands.items ≤ most_orders }
    requires fitting { All IsFitting commands.items }
    ensures starved { D.starved desk.new ≡ is_err result }
    ensures submitted { OnOk result
        (D.submitted desk.new ≡ D.submitted desk.old + vec_len commands) }
    ensures orders { OnOk result
        (D.orders desk.new ≡ D.orders desk.old + orders_of commands.items) }
    ensures answered { OnOk result (D.answered desk.new ≡ D.answered desk.old) }
    ensures stands { OnOk result ((s : ClockBook) (cs : List Asked) (rs : List Answer)
        → D.stands desk.old s cs rs → D.stands desk.new s (cs ++ commands.items) rs) }
{
    for command in commands {
        match desk.submit(command) {
            Ok(_) => {}
            Err(NoMemory) => return Err(NoMemory),
        }
    }
    Ok(())
}

// Hears until all commands are done. Where there is no memory for a reply the others are heard all the same.
pub(crate) fn hear_all<D: Desk>(alloc: Global, desk: &mut D) -> Result<Vec<Heard>, NoMemory>
    requires fed { D.starved desk.old ≡ false }
    ensures fed { OnOk result (D.starved desk.new ≡ false) }
    ensures ends { (D.starved desk.new ≡ true) ⊎ (D.answered desk.new ≡ D.submitted desk.new) }
    ensures submitted { D.submitted desk.new ≡ D.submitted desk.old }
    ensures orders { D.orders desk.new ≡ D.orders desk.old }
    ensures stands { IfOk result (λ heard. (s : ClockBook) (cs : List Asked) (rs : List Answer)
        → D.stands desk.old s cs rs → D.stands desk.new s cs (rs ++ replies_of heard.items)) }
    ensures answered { IfOk result (λ heard.
        D.answered desk.new ≡ D.answered desk.old + dones (replies_of heard.items)) }
    ensures tickets { IfOk result (λ heard. heard.items
        ≡ ticketed (D.answered desk.old + 1) (replies_of heard.items)) }
{
    let mut heard = Vec::new(alloc);
    let mut lost = false;
    'replies: loop {
        match desk.hear() {
            Err(NoMemory) => return Err(NoMemory),
            Ok(None) => return if lost { Err(NoMemory) } else { Ok(heard) },
            Ok(Some(reply)) => lost = lost | heard.push(reply).is_err(),
        }
    }
}
