ghost use Rattle.std.specs.Prelude.{◌≡◌, ◌+◌, ◌^◌, ◌<◌, ◌≤◌, true, if◌then◌else◌};
ghost use Rattle.order_desk.specs.Served.{is_done, dones};
ghost use Rattle.order_desk.specs.Heard.{told_after, most_told};
ghost use Rattle.order_desk.specs.Owed.{is_whole, StandsForSome};

use crate::Desk;
use crate::unheard::Unheard;
use lean_fixed::NoMemory;
use lean_orders::{Command, Heard, Reply, Ticket};
use order_book::Book;
use std::alloc::Global;

/// A desk whose book handles each command as it is submitted. Want of memory is answered by `submit` alone.
#[derive(Drop)]
pub struct SerialDesk {
    book: Book,
    unheard: Unheard,
    submitted: u64,
    answered: u64,
    told: u32,
    starved: bool,
    ghost few: { submitted ≤ 2 ^ 60 },
    ghost counted: { answered + dones unheard ≡ submitted },
    ghost whole: { is_whole told unheard ≡ true },
    ghost bounded: { told ≤ most_told },
    ghost stood: { ∥ StandsForSome book ∥₁ },
}

impl SerialDesk {
    ghost use Rattle.std.specs.Prelude.{◌≡◌, false, []};
    ghost use Rattle.clock_book.specs.Books.{Book as ClockBook};
    ghost use Rattle.order_book.specs.Kept.{order_count};
    ghost use Rattle.order_book.specs.Stands.{StandsFor};

    /// A desk over a book. For each book for which this one stands it stands with nothing submitted and nothing heard.
    pub fn new(alloc: Global, book: Book) -> SerialDesk
        requires stands { (s : ClockBook) × StandsFor book s }
        ensures stands { (s : ClockBook) → StandsFor book s
            → ⟦<SerialDesk as Desk>⟧.stands result s [] [] }
        ensures fed { ⟦<SerialDesk as Desk>⟧.starved result ≡ false }
        ensures submitted { ⟦<SerialDesk as Desk>⟧.submitted result ≡ 0 }
        ensures orders { ⟦<SerialDesk as Desk>⟧.orders result ≡ order_count book }
        ensures answered { ⟦<SerialDesk as Desk>⟧.answered result ≡ 0 }
        ensures told { ⟦<SerialDesk as Desk>⟧.told result ≡ 0 }
        ensures room { ⟦<SerialDesk as Desk>⟧.room result ≡ 0 }
    {
        SerialDesk {
            book,
            unheard: Unheard::new(alloc),
            submitted: 0,
            answered: 0,
            told: 0,
            starved: false,
        }
    }
}

impl Desk for SerialDesk {
    ghost use Rattle.order_book.specs.Kept.{order_count};
    ghost use Rattle.order_desk.specs.Heard.{room_of};
    ghost use Rattle.order_desk.specs.Owed.{Owes, within_counted};

    ghost stands = { λ d s cs rs. Owes d.book d.unheard d.submitted d.answered s cs rs };

    ghost starved = { λ d. d.starved };

    ghost submitted = { λ d. d.submitted };

    ghost orders = { λ d. order_count d.book };

    ghost answered = { λ d. d.answered };

    ghost told = { λ d. d.told };

    ghost room = { λ d. room_of d.submitted d.answered d.told };

    ghost counts = { λ d s cs rs owes. owes.counts };

    ghost within = { λ d. within_counted d.answered d.submitted _ d.counted };

    ghost bounded = { λ d. d.bounded };

    fn submit(&mut self, command: Command) -> Result<Ticket, NoMemory> {
        match self.unheard.handle(&mut self.book, &command) {
            Ok(()) => {
                self.submitted += 1;
                Ok(Ticket(self.submitted))
            }
            Err(NoMemory) => {
                self.starved = true;
                Err(NoMemory)
            }
        }
    }

    fn hear(&mut self) -> Result<Option<Heard>, NoMemory> {
        match self.unheard.pop() {
            None => Ok(None),
            Some(reply) => {
                let ticket = Ticket(self.answered + 1);
                self.answered = answered_behind(self.answered, &reply);
                self.told = told_behind(self.told, &reply);
                Ok(Some(Heard { ticket, reply }))
            }
        }
    }

    fn finish(self) -> Book {
        self.book
    }
}

// How many commands are done behind a reply.
pub(crate) fn answered_behind(answered: u64, reply: &Reply) -> u64
    requires { answered + 1 < 2 ^ 64 }
    ensures { result ≡ (if is_done reply.now then answered + 1 else answered) }
{
    match reply {
        Reply::Done => answered + 1,
        _ => answered,
    }
}

// How many replies were heard of the next command behind a reply.
pub(crate) fn told_behind(told: u32, reply: &Reply) -> u32
    requires { told ≤ most_told }
    ensures { result ≡ told_after told reply.now }
{
    match reply {
        Reply::Done => 0,
        _ => told + 1,
    }
}
