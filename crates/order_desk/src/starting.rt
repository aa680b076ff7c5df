ghost use Rattle.std.specs.Prelude.{◌≡◌, false, [], IfOk};
ghost use Rattle.clock_book.specs.Books.{Book as ClockBook};
ghost use Rattle.order_book.specs.Kept.{order_count};
ghost use Rattle.order_book.specs.Stands.{StandsFor};
ghost use Rattle.order_desk.specs.Begins.{Begins, IsNew};
ghost use Rattle.order_desk.specs.Serving.{Ended};

use crate::Desk;
use crate::ends::Ends;
use crate::gate::{Gate, Itself, Passes};
use crate::lane_desk::LaneDesk;
use crate::serial_desk::SerialDesk;
use crate::server::Server;
use crate::serving::Begun;
use crate::thread_desk::ThreadDesk;
use crate::unheard::Unheard;
use feed_queue::{lane, settle};
use lean_fixed::NoMemory;
use order_book::Book;
use std::alloc::Global;
use std::snapshot::Snapshot;
use std::sync::atomic::{AtomicBool, Ordering};
use std::sync::{Arc, Wait};
use std::thread;
use std::thread::Threads;

// How many commands, and how many replies, wait in their lanes at most.
const PLACES: usize = 128;

impl<G: Gate + 'static, R: Threads + Wait + Copy + Send + 'static> ThreadDesk<G, R> {
    /// A desk over a book, which a thread serves from now on; it passes the gate before each command. For each book for which
    /// this one stands the desk stands with nothing submitted and nothing heard. Where no thread is to be had, the book is
    /// served by the caller. `NoMemory`: there was none for the lanes.
    pub fn new(rt: &R, alloc: Global, book: Book, gate: G) -> Result<ThreadDesk<G, R>, NoMemory>
        requires stands { (s : ClockBook) × StandsFor book s }
        ensures stands { (s : ClockBook) → StandsFor book s
            → IfOk result (λ desk. ⟦<ThreadDesk<G, R> as Desk>⟧.stands desk s [] []) }
        ensures fed { IfOk result (λ desk. ⟦<ThreadDesk<G, R> as Desk>⟧.starved desk ≡ false) }
        ensures submitted { IfOk result (λ desk. ⟦<ThreadDesk<G, R> as Desk>⟧.submitted desk ≡ 0) }
        ensures orders { IfOk result (λ desk.
            ⟦<ThreadDesk<G, R> as Desk>⟧.orders desk ≡ order_count book) }
        ensures answered { IfOk result (λ desk. ⟦<ThreadDesk<G, R> as Desk>⟧.answered desk ≡ 0) }
        ensures told { IfOk result (λ desk. ⟦<ThreadDesk<G, R> as Desk>⟧.told desk ≡ 0) }
        ensures room { IfOk result (λ desk. ⟦<ThreadDesk<G, R> as Desk>⟧.room desk ≡ 0) }
    {
        let (commands, taken) = lane(alloc, PLACES)?;
        let (sent, replies) = lane(alloc, PLACES)?;
        let stop = Arc::new(alloc, AtomicBool::new(false))?;
        let theirs = Arc::try_clone(&stop)?;
        let server = Server {
            book,
            gate,
            commands: taken,
            replies: sent,
            pending: Unheard::new(alloc),
            sent: 0,
        };
        let ends = Ends {
            rt: *rt,
            commands,
            replies,
            queue: Unheard::new(alloc),
            stop,
        };
        Ok(start::<G, Itself, R>(alloc, server, ends, theirs))
    }
}

// Starts the thread.
fn start<
    G: Drop + Send + 'static,
    P: Passes<G> + Send + 'static,
    R: Threads + Wait + Copy + Send + 'static,
>(alloc: Global, server: Server<G>, ends: Ends<R>, theirs: Arc<AtomicBool>) -> ThreadDesk<G, R>
    requires begins { Begins server ends }
    requires stands { (s : ClockBook) × StandsFor server.book s }
    ensures { IsNew result server.book }
{
    let rt = ends.rt;
    let orders = server.book.orders().len() as u64;
    let begun = Begun(Snapshot::of(&server));
    match thread::spawn_with(
        &rt,
        begun,
        move || -> Server<G>
            ensures { Ended server result }
        { server.serve::<P, R>(&rt, &theirs) },
    ) {
        Ok(child) => ThreadDesk::There(LaneDesk {
            ends,
            child,
            submitted: 0,
            orders,
            answered: 0,
            told: 0,
            starved: false,
        }),
        Err(refused) => {
            ends.stop.store(true, Ordering::SeqCst);
            let back = refused.value;
            let server = back();
            let _commands = settle(ends.commands, server.commands);
            ThreadDesk::Here(SerialDesk::new(alloc, server.book), server.gate)
        }
    }
}
