//! What was heard, computed on a few replies.
ghost use Rattle.std.specs.Prelude.{◌≡◌, true, false, [], ◌∷◌};
ghost use Rattle.lean_orders.specs.declared.desk.Reply.TheVariants.{Done};
ghost use Rattle.order_desk.specs.Heard.{room_of};
ghost use Rattle.order_desk.specs.Owed.{is_whole};
ghost use Rattle.order_desk.specs.Served.{dones, is_closed};
ghost use Rattle.order_desk.specs.Worked.{account};

/// Two commands are done by these replies; a command is done where `Done` comes last.
pub fn accounts()
    ensures done { dones (account ∷ Done ∷ Done ∷ []) ≡ 2 }
    ensures closed { is_closed (account ∷ Done ∷ []) ≡ true }
    ensures part { is_closed (Done ∷ account ∷ []) ≡ false }
    ensures none { is_closed [] ≡ true }
{}

/// What is left ends with `Done`, and not too much stands before it.
pub fn replies_left()
    ensures last { is_whole 999999 (account ∷ Done ∷ []) ≡ true }
    ensures much { is_whole 1000000 (account ∷ Done ∷ []) ≡ false }
    ensures open { is_whole 0 (account ∷ []) ≡ false }
    ensures room { room_of 3 1 5 ≡ 1999997 }
{}
