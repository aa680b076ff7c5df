//! The ends of heads, and which heads stop the merge.
ghost use Rattle.std.specs.Prelude.{◌≡◌, option_map};
ghost use Rattle.std.specs.List.{find};
ghost use Rattle.lean_items.specs.Given.{end_of};
ghost use Rattle.frontier_sync.specs.Heads.{stops, IsFrontier, earlier};

use lean_fixed::Moment;
use lean_items::{Arrival, Item};

// The first head that is a malformed line or a failed read.
pub(crate) fn first_stop(heads: &[Arrival]) -> Option<Arrival>
    ensures { result ≡ find (λ a. stops a.item) heads.now }
{
    for head in heads {
        if stops(&head.item) {
            return Some(*head);
        }
    }
    None
}

// Whether an item is a malformed line or a failed read.
#[inline(always)]
pub(crate) fn stops(item: &Item) -> bool
    ensures { result ≡ stops item.now }
{
    match item {
        Item::Bad(_) => true,
        Item::Faulted => true,
        Item::Bar(_) => false,
        Item::Coarse(_, _) => false,
        Item::End => false,
    }
}

// The least end of the heads that are a row.
pub(crate) fn least_end(heads: &[Arrival]) -> Option<Moment>
    ensures { IsFrontier heads.now result }
{
    let mut least = None;
    for head in heads {
        least = earlier(least, end_of(&head.item));
    }
    least
}

#[inline(always)]
pub(crate) fn end_of(item: &Item) -> Option<Moment>
    ensures { option_map (λ t. t.0) result ≡ end_of item.now }
{
    match item {
        Item::Bar(bar) => Some(bar.end),
        Item::Coarse(from, _) => Some(*from),
        Item::Bad(_) => None,
        Item::Faulted => None,
        Item::End => None,
    }
}

// The earlier of two moments, if there are any.
#[inline(always)]
pub(crate) fn earlier(first: Option<Moment>, second: Option<Moment>) -> Option<Moment>
    ensures { result ≡ earlier first second }
{
    match first {
        Some(least) => match second {
            Some(end) => Some(if end.0 < least.0 { end } else { least }),
            None => first,
        },
        None => second,
    }
}
