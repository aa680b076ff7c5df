ghost use Rattle.std.specs.Prelude.{◌≡◌, ℕ, ◌+◌, ◌^◌, ◌<◌, ◌≤◌, ◌⊎◌, Bool, true, false, is_err, List, IfOk, IfSome, OnOk};
ghost use Rattle.lean_orders.specs.declared.desk.Command.{Command as Asked};
ghost use Rattle.lean_orders.specs.declared.desk.Reply.{Reply as Answer};
ghost use Rattle.clock_book.specs.Books.{Book as ClockBook};
ghost use Rattle.clock_book.specs.Fitting.{IsFitting, HasRoom, submits};
ghost use Rattle.clock_book.specs.Handled.{after, replies};
ghost use Rattle.order_book.specs.Stands.{StandsFor};
ghost use Rattle.order_desk.specs.Heard.{with_command, with_heard, IsDue, answered_behind, told_behind, most_told, Counts};
ghost use Rattle.order_desk.specs.Served.{IsFront};

use lean_fixed::NoMemory;
use lean_orders::{Command, Heard, Ticket};
use order_book::Book;

/// The way to the owner of the orders and the money: commands are submitted, and their replies are heard later, in the
/// order of the commands.
///
/// A desk stands for the book with which it began, the commands that were submitted since, and the replies that were heard.
/// That the replies are the book's is known when the desk is finished: a desk whose book is served by a thread learns it no
/// earlier. After `NoMemory` a desk is only finished or let go.
pub trait Desk {
    /// The desk began with this book, and since then these commands were submitted and these replies were heard.
    ghost stands: { Self → ClockBook → List Asked → List Answer → Type 0 };

    /// A call answered `NoMemory`.
    ghost starved: { Self → Bool };

    /// How many commands were submitted.
    ghost submitted: { Self → ℕ };

    /// How many orders there are once all of them are handled.
    ghost orders: { Self → ℕ };

    /// Of how many commands `Done` was heard.
    ghost answered: { Self → ℕ };

    /// How many replies were heard of the next command.
    ghost told: { Self → ℕ };

    /// No more replies than this are heard before another command is submitted.
    ghost room: { Self → ℕ };

    /// Submits a command, and gives its ticket: tickets count the commands from 1. `NoMemory`: the command is not
    /// submitted.
    fn submit(&mut self, command: Command) -> Result<Ticket, NoMemory>
        requires fed { starved self.old ≡ false }
        requires few { submitted self.old < 2 ^ 60 }
        requires fitting { IsFitting command }
        requires room { HasRoom (orders self.old) command }
        ensures ticket { IfOk result (λ ticket. ticket.0 ≡ submitted self.old + 1) }
        ensures stands { (s : ClockBook) (cs : List Asked) (rs : List Answer)
            → stands self.old s cs rs → stands self.new s (with_command cs command result) rs }
        ensures starved { starved self.new ≡ is_err result }
        ensures submitted { OnOk result (submitted self.new ≡ submitted self.old + 1) }
        ensures orders { OnOk result (orders self.new ≡ orders self.old + submits command) }
        ensures answered { answered self.new ≡ answered self.old }
        ensures told { told self.new ≡ told self.old }
        ensures more { room self.new ≤ room self.old + most_told + 1 };

    /// Hears the next reply. Of each command at most 1,000,000 replies and `Done` are heard. `None` is answered exactly
    /// where `Done` of every command was heard.
    fn hear(&mut self) -> Result<Option<Heard>, NoMemory>
        requires fed { starved self.old ≡ false }
        ensures due { IfOk result (IsDue (submitted self.old) (answered self.old)) }
        ensures stands { (s : ClockBook) (cs : List Asked) (rs : List Answer)
            → stands self.old s cs rs → stands self.new s cs (with_heard rs result) }
        ensures starved { starved self.new ≡ is_err result }
        ensures submitted { submitted self.new ≡ submitted self.old }
        ensures orders { orders self.new ≡ orders self.old }
        ensures answered { IfOk result (λ heard.
            answered self.new ≡ answered_behind (answered self.old) heard) }
        ensures told { IfOk result (λ heard. told self.new ≡ told_behind (told self.old) heard) }
        ensures fewer { IfOk result (λ heard.
            IfSome heard (λ reply. room self.new < room self.old)) };

    /// Ends the desk, where `Done` of every command was heard or there was no memory, and gives the book back. The replies
    /// that were heard are a front of the book's. Where there was memory they are all of them, and the book is what the
    /// commands have made of it.
    fn finish(self) -> Book
        requires { (starved self ≡ true) ⊎ (answered self ≡ submitted self) }
        ensures front { (s : ClockBook) (cs : List Asked) (rs : List Answer)
            → stands self s cs rs → IsFront s cs rs }
        ensures whole { starved self ≡ false
            → (s : ClockBook) (cs : List Asked) (rs : List Answer) → stands self s cs rs
            → (replies s cs ≡ rs) × StandsFor result (after s cs) };

    /// The numbers are those of what the desk stands for.
    ghost counts: { (desk : Self) (s : ClockBook) (cs : List Asked) (rs : List Answer)
        → stands desk s cs rs → Counts (submitted desk) (orders desk) (answered desk) s cs rs };

    /// Only commands that were submitted are done.
    ghost within: { (desk : Self) → answered desk ≤ submitted desk };

    /// Of each command at most so many replies are heard before its `Done`.
    ghost bounded: { (desk : Self) → told desk ≤ most_told };
}
