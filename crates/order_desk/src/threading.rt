use crate::Desk;
use crate::gate::Gate;
use crate::thread_desk::ThreadDesk;
use lean_fixed::NoMemory;
use lean_orders::{Command, Heard, Ticket};
use order_book::Book;
use std::sync::Wait;
use std::thread::Threads;

impl<G: Gate, R: Threads + Wait + Copy> Desk for ThreadDesk<G, R> {
    ghost use Rattle.order_desk.specs.Threaded.{Threads, is_starved, submitted_of, orders_of, answered_of, told_of, room_in, counts_are, answered_within, told_bounded};

    ghost stands = { Threads };

    ghost starved = { is_starved };

    ghost submitted = { submitted_of };

    ghost orders = { orders_of };

    ghost answered = { answered_of };

    ghost told = { told_of };

    ghost room = { room_in };

    ghost counts = { counts_are };

    ghost within = { answered_within };

    ghost bounded = { told_bounded };

    fn submit(&mut self, command: Command) -> Result<Ticket, NoMemory> {
        match self {
            ThreadDesk::There(desk) => desk.submit(command),
            ThreadDesk::Here(desk, gate) => {
                gate.pass();
                desk.submit(command)
            }
        }
    }

    fn hear(&mut self) -> Result<Option<Heard>, NoMemory> {
        match self {
            ThreadDesk::There(desk) => desk.hear(),
            ThreadDesk::Here(desk, _) => desk.hear(),
        }
    }

    fn finish(self) -> Book {
        match self {
            ThreadDesk::There(desk) => desk.finish(),
            ThreadDesk::Here(desk, _) => desk.finish(),
        }
    }
}
