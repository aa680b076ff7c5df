use crate::*;
use lean_fixed::{Price, Shares, Symbol};
use lean_items::CoarseRow;
use std::test::*;
use work_scheduler::{Pumped, pick};

const COUNT: u64 = 1_000_000;

fn row() -> Result<CoarseRow, Fail> {
    let symbol = Symbol::read(b"SPY").ok_or("no symbol")?;
    Ok(CoarseRow {
        symbol,
        close: Price(1),
        volume: Shares(1),
        dollars: 1,
    })
}

fn pumped(sent: u32, full: bool, ended: bool) -> Pumped {
    Pumped { sent, full, ended }
}

#[test]
fn a_million_items_through_a_lane_of_two(rt: HostRuntime) -> Result<(), Fail> {
    let relayed = relay(&rt, rt.alloc(), 2, COUNT)?;
    assert_eq!(rt;
        (relayed.in_order, relayed.sent, relayed.taken, relayed.rest),
        (COUNT, COUNT, COUNT, None)
    );
    Ok(())
}

#[test]
fn a_million_items_through_a_lane_of_128(rt: HostRuntime) -> Result<(), Fail> {
    let relayed = relay(&rt, rt.alloc(), 128, COUNT)?;
    assert_eq!(rt;
        (relayed.in_order, relayed.sent, relayed.taken, relayed.rest),
        (COUNT, COUNT, COUNT, None)
    );
    Ok(())
}

#[test]
fn lanes_of_two_places_and_of_one(rt: HostRuntime) -> Result<(), Fail> {
    let (back, rooms, popped, counts, rest) = two_places(&rt, rt.alloc())?;
    assert_eq!(rt; back, [None, None, Some(3)]);
    assert_eq!(rt; (rooms, popped), ([2, 0, 1], Some(1)));
    assert_eq!(rt; (counts, rest), ([2, 1], [Some(2), None]));
    let (popped, counts) = one_place(&rt, rt.alloc())?;
    assert_eq!(rt; (popped, counts), ([None, Some(7), None], [1, 1]));
    Ok(())
}

#[test]
fn picks_the_first_of_the_greatest(rt: HostRuntime) -> Result<(), Fail> {
    let picked = [pick(&[5, 9, 9, 0]), pick(&[0, 0]), pick(&[])];
    assert_eq!(rt; picked, [Some(1), None, None]);
    Ok(())
}

#[test]
fn turns(rt: HostRuntime) -> Result<(), Fail> {
    let row = row()?;
    let pumps = three_rows(&rt, rt.alloc(), *&row)?;
    assert_eq!(rt; (pumps.rooms, pumps.over), ([2, 1, 0], [false, true]));
    assert_eq!(rt;
        pumps.pumped,
        [
            pumped(2, true, false),
            pumped(1, true, false),
            pumped(1, false, true),
            pumped(0, false, true)
        ]
    );
    assert_eq!(rt;
        pumps.popped,
        [Kind::Row, Kind::Row, Kind::Row, Kind::End, Kind::Nothing]
    );
    let failed = failed_read(&rt, rt.alloc(), *&row)?;
    assert_eq!(rt; failed, (pumped(1, false, true), Kind::Failed));
    let held = item_in_hand(&rt, rt.alloc(), row)?;
    assert_eq!(rt; held, (Kind::End, Kind::Nothing));
    Ok(())
}

#[test]
fn shelves(rt: HostRuntime) -> Result<(), Fail> {
    let row = row()?;
    let answers = one_turn(&rt, rt.alloc(), *&row)?;
    assert_eq!(rt; answers, [true, true, false, false, true, false]);
    let rounds = two_turns(&rt, rt.alloc(), row)?;
    assert_eq!(rt;
        (rounds.wide, rounds.narrow),
        (Kind::Row, [Kind::Nothing, Kind::Row])
    );
    assert_eq!(rt;
        rounds.rounds,
        [
            Some(pumped(2, false, false)),
            Some(pumped(1, false, true)),
            Some(pumped(1, true, false)),
            None,
            Some(pumped(1, false, true)),
            None,
        ]
    );
    Ok(())
}
