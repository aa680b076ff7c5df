ghost use Rattle.std.specs.Prelude.{◌≡◌, ◌+◌, ◌<◌, true, if◌then◌else◌};
ghost use Rattle.order_desk.specs.Told.{tell};

use crate::Desk;
use crate::gate::Gate;
use crate::lane_desk::LaneDesk;
use crate::serial_desk::{answered_behind, told_behind};
use crate::serving::is_submit;
use feed_queue::settle;
use lean_fixed::NoMemory;
use lean_orders::{Command, Heard, Reply, Ticket};
use order_book::Book;
use std::sync::Wait;
use std::sync::atomic::Ordering;
use std::thread::Threads;

impl<G: Gate, R: Threads + Wait + Copy> Desk for LaneDesk<G, R> {
    ghost use Rattle.order_desk.specs.Heard.{room_of};
    ghost use Rattle.order_desk.specs.Linked.{Linked};

    ghost stands = { Linked };

    ghost starved = { λ d. d.starved };

    ghost submitted = { λ d. d.submitted };

    ghost orders = { λ d. d.orders };

    ghost answered = { λ d. d.answered };

    ghost told = { λ d. d.told };

    ghost room = { λ d. room_of d.submitted d.answered d.told };

    ghost counts = { λ d s cs rs linked. linked.links.counts };

    ghost within = { λ d. d.within };

    ghost bounded = { λ d. d.bounded };

    fn submit(&mut self, command: Command) -> Result<Ticket, NoMemory> {
        let more = is_submit(&command);
        match self.ends.send(&command) {
            Ok(()) => {
                self.submitted += 1;
                self.orders = with_order(self.orders, more);
                Ok(Ticket(self.submitted))
            }
            Err(NoMemory) => {
                self.starved = true;
                Err(NoMemory)
            }
        }
    }

    fn hear(&mut self) -> Result<Option<Heard>, NoMemory> {
        if self.answered == self.submitted {
            return Ok(None);
        }
        match self.ends.next() {
            Ok(reply) => {
                let reply = tell(self.told, reply);
                let ticket = Ticket(self.answered + 1);
                self.answered = answered_behind(self.answered, &reply);
                self.told = told_behind(self.told, &reply);
                Ok(Some(Heard { ticket, reply }))
            }
            Err(NoMemory) => {
                self.starved = true;
                Err(NoMemory)
            }
        }
    }

    fn finish(self) -> Book {
        let (ends, child) = self.into_parts();
        ends.stop.store(true, Ordering::SeqCst);
        let server = child.join(&ends.rt);
        let _commands = settle(ends.commands, server.commands);
        let _replies = settle(server.replies, ends.replies);
        server.book
    }
}

// How many orders there are with one more, or without.
fn with_order(orders: u64, more: bool) -> u64
    requires { more ≡ true → orders < 1000000 }
    ensures { result ≡ orders + (if more then 1 else 0) }
{
    if more { orders + 1 } else { orders }
}

// What is heard where this reply comes of a command of which so many replies were heard. No book says more than the most before
// `Done`, which the end of a lane does not know.
fn tell(told: u32, reply: Reply) -> Reply
    ensures { result ≡ tell told reply }
{
    if told < 1000000 { reply } else { Reply::Done }
}
