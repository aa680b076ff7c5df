use feed_queue::Reader;
use lean_fixed::NoMemory;
use lean_orders::{Command, Reply};
use order_book::Book;
use std::alloc::Global;
use std::marker::Model;
use std::sync::Wait;

/// The replies that are not heard yet. Contracts see them as a list.
#[derive(Drop)]
pub(crate) struct Unheard {
    // The replies to commands of which not all were heard, and how many of them were.
    replies: Vec<Reply>,
    next: usize,
}

impl Model for Unheard {
    ghost use Rattle.std.specs.Prelude.{◌≤◌, List, drop, length};
    ghost use Rattle.lean_orders.specs.declared.desk.Reply.{Reply as Answer};

    ghost Value = { List Answer };

    ghost view = { λ u. drop u.next u.replies.items };

    ghost invariant = { λ u. u.next ≤ length u.replies.items };
}

impl Unheard {
    ghost use Rattle.std.specs.Prelude.{◌≡◌, ◌+◌, ◌<◌, ◌≤◌, List, [], ◌∷◌, ◌++◌, drop, length, option_to_list, IfNone, MatchOption, OnOk, OnErr};
    ghost use Rattle.feed_queue.specs.Lanes.{taken_of, lane_of_reader};
    ghost use Rattle.lean_orders.specs.declared.desk.Reply.{Reply as Answer};
    ghost use Rattle.clock_book.specs.Books.{Book as ClockBook};
    ghost use Rattle.clock_book.specs.Fitting.{IsFitting, HasRoom, submits, most_orders};
    ghost use Rattle.clock_book.specs.Handled.{handled};
    ghost use Rattle.order_book.specs.Kept.{order_count};
    ghost use Rattle.order_book.specs.Stands.{StandsFor};

    /// No replies.
    pub(crate) fn new(alloc: Global) -> Unheard
        ensures { result ≡ [] }
    {
        Unheard {
            replies: Vec::new(alloc),
            next: 0,
        }
    }

    /// Lets a book handle a command, whose replies come last.
    pub(crate) fn handle(&mut self, book: &mut Book, command: &Command) -> Result<(), NoMemory>
        requires fits { IsFitting command.now }
        requires room { HasRoom (order_count book.old) command.now }
        ensures stands { (s : ClockBook) → StandsFor book.old s
            → OnOk result (StandsFor book.new (handled s command.now).book) }
        ensures replies { (s : ClockBook) → StandsFor book.old s
            → OnOk result (self.new ≡ self.old ++ (handled s command.now).replies) }
        ensures count { OnOk result
            (order_count book.new ≡ order_count book.old + submits command.now) }
        ensures grows { (more : List Answer) × (self.new ≡ self.old ++ more)
            × (length more ≤ most_orders + 1) }
        ensures kept { OnErr result (book.new ≡ book.old) }
        ensures unsaid { OnErr result (self.new ≡ self.old) }
    {
        book.handle(command, &mut self.replies)
    }

    /// Takes the first of the replies.
    pub(crate) fn pop(&mut self) -> Option<Reply>
        ensures first { self.old ≡ option_to_list result ++ self.new }
        ensures none { IfNone result (self.old ≡ []) }
    {
        match self.first() {
            None => None,
            Some(reply) => {
                self.pass();
                Some(reply)
            }
        }
    }

    /// The first of the replies.
    #[tactic(auto, using(crate::proofs::DropLemmas::next_is))]
    pub(crate) fn first(&self) -> Option<Reply>
        ensures { MatchOption result (self.now ≡ []) (λ reply. self.now ≡ reply ∷ drop 1 self.now) }
    {
        match self.replies.get(self.next) {
            None => None,
            Some(reply) => Some(*reply),
        }
    }

    /// Goes on behind the first reply, and lets all go where it was the last.
    #[tactic(auto, using(crate::proofs::DropLemmas::drop_next))]
    pub(crate) fn pass(&mut self)
        requires { 0 < length self.old }
        ensures { self.new ≡ drop 1 self.old }
    {
        self.next += 1;
        if self.next == self.replies.len() {
            self.replies.clear();
            self.next = 0;
        }
    }

    /// Takes a reply from a lane, if there is one, and says whether one came, which is the last then. `NoMemory`: none was taken.
    #[tactic(auto, using(crate::proofs::DropLemmas::drop_moved))]
    pub(crate) fn draw<R: Wait>(
        &mut self,
        rt: &R,
        lane: &mut Reader<Reply>,
    ) -> Result<bool, NoMemory>
        ensures moved { (rs : List Answer) → taken_of lane.old ≡ rs ++ self.old
            → taken_of lane.new ≡ rs ++ self.new }
        ensures lane { lane_of_reader lane.new ≡ lane_of_reader lane.old }
    {
        if self.replies.reserve(1).is_err() {
            return Err(NoMemory);
        }
        match lane.pop(rt) {
            None => Ok(false),
            Some(reply) => {
                self.replies.push_reserved(reply);
                Ok(true)
            }
        }
    }
}
