ghost use Rattle.std.specs.Prelude.{◌≡◌, true, [], ◌∷◌, drop, if◌then◌else◌, OnOk, OnErr};
ghost use Rattle.clock_book.specs.Fitting.{IsFitting, HasRoom, submits};
ghost use Rattle.order_book.specs.Kept.{order_count};
ghost use Rattle.order_desk.specs.Serving.{RanOn, Ended};

use crate::fits;
use crate::gate::Passes;
use crate::server::Server;
use lean_fixed::NoMemory;
use lean_orders::{Command, Reply};
use order_book::Book;
use std::snapshot::Snapshot;
use std::sync::Wait;
use std::sync::atomic::{AtomicBool, Ordering};
use std::thread;
use std::thread::Promise;

/// What a serving thread promises: the server that it hands back served on from the one with which it began.
#[derive(Drop)]
pub struct Begun<G>(pub(crate) Snapshot<Server<G>>);

impl<G> Promise<Server<G>> for Begun<G> {
    ghost kept_by = { λ begun now. Ended begun.0.value now };
}

// Why a thread serves no more before it is told to stop.
#[derive(Clone, Copy)]
pub(crate) enum Stop {
    // There was no memory for a command's replies.
    NoMemory,
    // A command came that the book may not handle, or the lane of the replies numbers no more of them. No desk sends such a
    // command, and no thread lives so long; but the end of a lane knows nothing of the other end.
    Over,
}

// How many replies are sent at most.
const MOST_SENT: u64 = 1 << 61;

impl<G: Drop> Server<G> {
    /// Serves until the flag is raised. At want of memory it raises the flag itself, and ends.
    pub(crate) fn serve<P: Passes<G>, R: Wait>(mut self, rt: &R, stop: &AtomicBool) -> Server<G>
        ensures { Ended self result }
    {
        'serving: for _ in rt.forever() {
            if stop.load(Ordering::SeqCst) {
                return self;
            }
            match self.step::<P, R>(rt) {
                Ok(()) => {}
                Err(Stop::NoMemory) => {
                    stop.store(true, Ordering::SeqCst);
                    return self;
                }
                Err(Stop::Over) => return self,
            }
        }
        unreachable!()
    }

    // Sends the next reply, or serves the next command where all replies were sent.
    fn step<P: Passes<G>, R: Wait>(&mut self, rt: &R) -> Result<(), Stop>
        ensures ran { OnOk result (RanOn self.old self.new) }
        ensures ended { OnErr result (Ended self.old self.new) }
    {
        match self.pending.first() {
            Some(reply) => self.send(rt, reply),
            None => self.take::<P, R>(rt),
        }
    }

    // Sends the next reply where its lane is not full.
    fn send<R: Wait>(&mut self, rt: &R, reply: Reply) -> Result<(), Stop>
        requires { self.old.pending ≡ reply ∷ drop 1 self.old.pending }
        ensures ran { OnOk result (RanOn self.old self.new) }
        ensures ended { OnErr result (Ended self.old self.new) }
    {
        if self.sent >= MOST_SENT {
            return Err(Stop::Over);
        }
        match self.replies.push(rt, reply) {
            Ok(()) => {
                self.sent += 1;
                self.pending.pass();
                Ok(())
            }
            Err(_full) => {
                thread::yield_now();
                Ok(())
            }
        }
    }

    // Serves the next command, if there is one.
    fn take<P: Passes<G>, R: Wait>(&mut self, rt: &R) -> Result<(), Stop>
        requires { self.old.pending ≡ [] }
        ensures ran { OnOk result (RanOn self.old self.new) }
        ensures ended { OnErr result (Ended self.old self.new) }
    {
        match self.commands.pop(rt) {
            Some(command) => {
                P::pass(&mut self.gate);
                if !may_handle(&self.book, &command) {
                    return Err(Stop::Over);
                }
                match self.pending.handle(&mut self.book, &command) {
                    Ok(()) => Ok(()),
                    Err(NoMemory) => Err(Stop::NoMemory),
                }
            }
            None => {
                thread::yield_now();
                Ok(())
            }
        }
    }
}

// Whether a book may handle a command.
fn may_handle(book: &Book, command: &Command) -> bool
    ensures fits { result ≡ true → IsFitting command.now }
    ensures room { result ≡ true → HasRoom (order_count book.now) command.now }
{
    fits(command) && (!is_submit(command) || book.orders().len() < 1000000)
}

/// Whether a command is a submit.
pub(crate) fn is_submit(command: &Command) -> bool
    ensures { submits command.now ≡ (if result then 1 else 0) }
{
    matches!(command, Command::Submit(_, _))
}
