//! A thread that serves the book runs beside its caller.
ghost use Rattle.std.specs.Prelude.{◌≡◌, false};

use crate::serving::hear_all;
use crate::tests::{MOMENT, new_book, say};
use lean_fixed::{Moment, NoMemory};
use lean_orders::Command;
use order_desk::{Desk, Gate, ThreadDesk};
use std::alloc::Global;
use std::sync::Arc;
use std::sync::atomic::{AtomicBool, Ordering};
use std::test::Fail;
use std::thread;

// What the two sides tell each other.
#[derive(Drop)]
struct Signs {
    // A command came to the gate.
    begun: AtomicBool,
    // `submit` has returned.
    returned: AtomicBool,
    // The gate waited in vain.
    late: AtomicBool,
}

// A gate that says that a command came, and then waits until the caller says that `submit` has returned.
#[derive(Drop)]
struct Meeting(Arc<Signs>);

// How often a side looks at most.
const TURNS: u32 = 10_000_000;

fn has_come(sign: &AtomicBool) -> bool {
    for _ in 0..TURNS {
        if sign.load(Ordering::SeqCst) {
            return true;
        }
        thread::yield_now();
    }
    false
}

impl Gate for Meeting {
    fn pass(&mut self) {
        self.0.begun.store(true, Ordering::SeqCst);
        if !has_come(&self.0.returned) {
            self.0.late.store(true, Ordering::SeqCst);
        }
    }
}

// Asks for the account, and hears only when the command has come to the gate.
fn ask<D: Desk + Drop>(alloc: Global, desk: D, signs: &Signs) -> Result<String, Fail>
    requires fed { D.starved desk ≡ false }
    requires submitted { D.submitted desk ≡ 0 }
{
    let mut desk = desk;
    match desk.submit(Command::Account(Moment(MOMENT))) {
        Ok(_) => {}
        Err(NoMemory) => return Err(Fail::from("memory")),
    }
    signs.returned.store(true, Ordering::SeqCst);
    if !has_come(&signs.begun) {
        return Err(Fail::from("a thread that serves beside the caller"));
    }
    match hear_all(alloc, &mut desk) {
        Ok(replies) => {
            let _book = desk.finish();
            let mut said = String::new(alloc);
            for heard in replies.iter() {
                say(heard, &mut said)?;
            }
            Ok(said)
        }
        Err(NoMemory) => Err(Fail::from("memory")),
    }
}

#[test]
fn desk_meets(rt: HostRuntime) -> Result<(), Fail> {
    let alloc = rt.alloc();
    let signs = Arc::new(
        alloc,
        Signs {
            begun: AtomicBool::new(false),
            returned: AtomicBool::new(false),
            late: AtomicBool::new(false),
        },
    )?;
    let gate = Meeting(Arc::try_clone(&signs)?);
    let said = match ThreadDesk::new(&rt, alloc, new_book(alloc)?, gate) {
        Ok(desk) => ask(alloc, desk, &signs)?,
        Err(NoMemory) => return Err(Fail::from("memory")),
    };
    assert_eq!(rt; said.as_str(), "1 account 10000000 10000000\n1 done\n");
    assert!(rt; !signs.late.load(Ordering::SeqCst));
    Ok(())
}
