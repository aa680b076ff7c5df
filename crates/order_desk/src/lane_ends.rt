ghost use Rattle.std.specs.Prelude.{◌≡◌, ◌<◌, ◌^◌, true, if◌then◌else◌, List, [], ◌∷◌, ◌++◌, length, OnOk, OnErr};
ghost use Rattle.lean_orders.specs.declared.desk.Reply.{Reply as Answer};
ghost use Rattle.feed_queue.specs.Lanes.{sent_of};
ghost use Rattle.order_desk.specs.Ends.{with_tried, with_answer, HasPassed, KeepsLanes};

use crate::ends::Ends;
use lean_fixed::NoMemory;
use lean_orders::{Command, Reply};
use std::sync::Wait;
use std::sync::atomic::Ordering;
use std::thread;

impl<R: Wait + Copy> Ends<R> {
    /// Sends a command. Where its lane is full, replies are taken into the list until there is a place. `NoMemory`: the command
    /// was not sent.
    pub(crate) fn send(&mut self, command: &Command) -> Result<(), NoMemory>
        requires few { length (sent_of self.old.commands) < 2 ^ 62 }
        ensures sent { OnOk result
            (sent_of self.new.commands ≡ sent_of self.old.commands ++ command.now ∷ []) }
        ensures unsent { OnErr result (sent_of self.new.commands ≡ sent_of self.old.commands) }
        ensures passed { (rs : List Answer) → HasPassed self.old rs → HasPassed self.new rs }
        ensures lanes { KeepsLanes self.old self.new }
    {
        let rt = self.rt;
        'tries: for _ in rt.forever() {
            if self.try_send(command) {
                return Ok(());
            }
            match self.store() {
                Ok(()) => {}
                Err(NoMemory) => return Err(NoMemory),
            }
        }
        unreachable!()
    }

    /// Takes the next reply, and waits until it comes. `NoMemory`: the thread has ended for want of memory, and its lane is empty.
    pub(crate) fn next(&mut self) -> Result<Reply, NoMemory>
        ensures passed { (rs : List Answer) → HasPassed self.old rs
            → HasPassed self.new (with_answer rs result) }
        ensures sent { sent_of self.new.commands ≡ sent_of self.old.commands }
        ensures lanes { KeepsLanes self.old self.new }
    {
        let rt = self.rt;
        'tries: for _ in rt.forever() {
            match self.try_next() {
                Ok(Some(reply)) => return Ok(reply),
                Ok(None) => thread::yield_now(),
                Err(NoMemory) => return Err(NoMemory),
            }
        }
        unreachable!()
    }

    // Sends a command where its lane is not full, and says whether it was sent.
    fn try_send(&mut self, command: &Command) -> bool
        requires few { length (sent_of self.old.commands) < 2 ^ 62 }
        ensures sent { sent_of self.new.commands ≡ (if result
            then sent_of self.old.commands ++ command.now ∷ [] else sent_of self.old.commands) }
        ensures passed { (rs : List Answer) → HasPassed self.old rs → HasPassed self.new rs }
        ensures lanes { KeepsLanes self.old self.new }
    {
        let rt = self.rt;
        match self.commands.push(&rt, *command) {
            Ok(()) => true,
            Err(_full) => false,
        }
    }

    // The next reply of the list, or else of the lane, if there is one.
    fn try_next(&mut self) -> Result<Option<Reply>, NoMemory>
        ensures passed { (rs : List Answer) → HasPassed self.old rs
            → HasPassed self.new (with_tried rs result) }
        ensures sent { sent_of self.new.commands ≡ sent_of self.old.commands }
        ensures lanes { KeepsLanes self.old self.new }
    {
        match self.queue.pop() {
            Some(reply) => Ok(Some(reply)),
            None => self.draw(),
        }
    }

    // The next reply of the lane, if there is one.
    fn draw(&mut self) -> Result<Option<Reply>, NoMemory>
        requires { self.old.queue ≡ [] }
        ensures passed { (rs : List Answer) → HasPassed self.old rs
            → HasPassed self.new (with_tried rs result) }
        ensures sent { sent_of self.new.commands ≡ sent_of self.old.commands }
        ensures lanes { KeepsLanes self.old self.new }
    {
        let rt = self.rt;
        let stopped = self.stop.load(Ordering::SeqCst);
        match self.replies.pop(&rt) {
            Some(reply) => Ok(Some(reply)),
            None => {
                if stopped {
                    return Err(NoMemory);
                }
                Ok(None)
            }
        }
    }

    // Moves a reply from its lane to the list, if there is one. `NoMemory`: there is none for the list, or the thread has ended
    // for want of memory and the lane is empty.
    fn store(&mut self) -> Result<(), NoMemory>
        ensures passed { (rs : List Answer) → HasPassed self.old rs → HasPassed self.new rs }
        ensures sent { sent_of self.new.commands ≡ sent_of self.old.commands }
        ensures lanes { KeepsLanes self.old self.new }
    {
        let rt = self.rt;
        let stopped = self.stop.load(Ordering::SeqCst);
        match self.queue.draw(&rt, &mut self.replies) {
            Ok(true) => Ok(()),
            Ok(false) => {
                if stopped {
                    return Err(NoMemory);
                }
                thread::yield_now();
                Ok(())
            }
            Err(NoMemory) => Err(NoMemory),
        }
    }
}
