use crate::Rows;
use feed_queue::lane;
use lean_fixed::NoMemory;
use lean_items::{CoarseRow, Item};
use std::alloc::Global;
use std::sync::Wait;
use work_scheduler::{Pumped, Turn};

/// What came out of a lane, in a word.
#[derive(Clone, Copy, Debug, PartialEq, Eq)]
pub enum Kind {
    Nothing,
    Row,
    Bad,
    Failed,
    End,
}

/// What an item is.
pub fn kind_of(item: Option<Item>) -> Kind {
    match item {
        None => Kind::Nothing,
        Some(Item::Bar(_)) => Kind::Row,
        Some(Item::Coarse(_, _)) => Kind::Row,
        Some(Item::Bad(_)) => Kind::Bad,
        Some(Item::Faulted) => Kind::Failed,
        Some(Item::End) => Kind::End,
    }
}

/// What was done with a turn, in order of each kind.
#[derive(Drop)]
pub struct Pumps {
    pub rooms: [u32; 3],
    pub pumped: [Pumped; 4],
    pub over: [bool; 2],
    pub popped: [Kind; 5],
}

/// Three rows and the end through a lane of two places: pumped, popped once, pumped, popped twice, pumped one by one.
pub fn three_rows<R: Wait>(rt: &R, alloc: Global, row: CoarseRow) -> Result<Pumps, NoMemory> {
    let (writer, mut reader) = lane(alloc, 2)?;
    let mut turn = Turn::new(Rows::new(row, 3, false), writer);
    let empty = turn.room(rt);
    let two = turn.pump(rt, 32);
    let first = reader.pop(rt);
    let one_place = turn.room(rt);
    let one = turn.pump(rt, 32);
    let open = turn.is_over();
    let second = reader.pop(rt);
    let third = reader.pop(rt);
    let last = turn.pump(rt, 1);
    let over = turn.is_over();
    let none = turn.room(rt);
    let nothing = turn.pump(rt, 32);
    let fourth = reader.pop(rt);
    let fifth = reader.pop(rt);
    Ok(Pumps {
        rooms: [empty, one_place, none],
        pumped: [two, one, last, nothing],
        over: [open, over],
        popped: [
            kind_of(first),
            kind_of(second),
            kind_of(third),
            kind_of(fourth),
            kind_of(fifth),
        ],
    })
}

/// A feed whose first read fails: what is pumped and popped.
pub fn failed_read<R: Wait>(
    rt: &R,
    alloc: Global,
    row: CoarseRow,
) -> Result<(Pumped, Kind), NoMemory> {
    let (writer, mut reader) = lane(alloc, 2)?;
    let mut turn = Turn::new(Rows::new(row, 0, true), writer);
    let pumped = turn.pump(rt, 32);
    Ok((pumped, kind_of(reader.pop(rt))))
}

/// One row and the end into a lane of one place: the item in hand after a pump, and then after one more.
pub fn item_in_hand<R: Wait>(
    rt: &R,
    alloc: Global,
    row: CoarseRow,
) -> Result<(Kind, Kind), NoMemory> {
    let (writer, _reader) = lane(alloc, 1)?;
    let mut turn = Turn::new(Rows::new(*&row, 1, false), writer);
    let _ = turn.pump(rt, 32);
    let kept = turn.into_parts().held;
    let (writer, _reader) = lane(alloc, 2)?;
    let mut turn = Turn::new(Rows::new(row, 1, false), writer);
    let _ = turn.pump(rt, 32);
    let none = turn.into_parts().held;
    Ok((kind_of(kept), kind_of(none)))
}
