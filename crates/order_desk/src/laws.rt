//! What is true of the replies to all commands. Each law is the contract of a function that does nothing.
ghost use Rattle.std.specs.Prelude.{◌≡◌, List, ◌++◌, length};
ghost use Rattle.lean_orders.specs.declared.desk.Command.{Command};
ghost use Rattle.lean_orders.specs.declared.desk.Reply.{Reply};
ghost use Rattle.clock_book.specs.Books.{Book};
ghost use Rattle.clock_book.specs.Handled.{after, replies};
ghost use Rattle.order_desk.specs.Served.{dones, Served, IsFront, IsRight};

/// More commands go on from the book that those before them left.
pub fn more_commands()
    ensures book { (s : Book) (cs ds : List Command) → after s (cs ++ ds) ≡ after (after s cs) ds }
    ensures replies { (s : Book) (cs ds : List Command)
        → replies s (cs ++ ds) ≡ replies s cs ++ replies (after s cs) ds }
{}

/// A book does each command once, and says nothing behind the last `Done`.
pub fn each_is_done()
    ensures { (s : Book) (cs : List Command) → Served cs (replies s cs) }
{}

/// A front of the replies in which each command is done is all of them.
pub fn front_that_serves()
    ensures { (s : Book) (cs : List Command) (rs : List Reply) → IsFront s cs rs
        → dones rs ≡ length cs → replies s cs ≡ rs }
{}

/// What is known of all replies at the end is known of each part that was served on the way.
pub fn served_parts()
    // A front of the replies is right.
    ensures end { (s : Book) (cs : List Command) (rs : List Reply) → IsFront s cs rs
        → IsRight s cs rs }

    // What is right with more commands and replies was right before them.
    ensures before { (s : Book) (cs ds : List Command) (rs more : List Reply)
        → IsRight s (cs ++ ds) (rs ++ more) → IsRight s cs rs }

    // Right replies that serve the commands are the book's.
    ensures whole { (s : Book) (cs : List Command) (rs : List Reply) → Served cs rs
        → IsRight s cs rs → rs ≡ replies s cs }

    // Behind them the others are right and serve by themselves.
    ensures after { (s : Book) (cs ds : List Command) (rs more : List Reply) → Served cs rs
        → IsRight s (cs ++ ds) (rs ++ more) → IsRight (after s cs) ds more }
    ensures rest { (cs ds : List Command) (rs more : List Reply) → Served cs rs
        → Served (cs ++ ds) (rs ++ more) → Served ds more }
{}
