//! The files of made folders, against sums that a program of another language computed from their description.
ghost use Rattle.std.specs.Prelude.{◌≤◌};

use data_maker::{MadeFolder, MadeHand, make};
use lean_io::{Failed, Folder, Hand, Whole, read_whole};
use std::alloc::Global;
use std::fmt::Write;
use std::test::Fail;
use test_cases::cases::check;

// The sum of no bytes, and what it is multiplied by with each byte (FNV-1a of 64 bits).
const BEGIN: u64 = 14_695_981_039_346_656_037;

const FACTOR: u64 = 1_099_511_628_211;

// No made file has more bytes.
const MOST: usize = 20_000;

// The days of the minute files.
const DAYS: &str = "\
20131007 20131008 20131009 20131010 20131011 20131014 20131015 20131016 20131017 20131018";

// The number of a folder and a name: of a security, for the sum over its ten minute files one after the other, or of one of the
// other two files.
const SUMS: &str = "\
0 s0 = 17400970486584189041
7 s0 = 10258705285663335688
7 s10 = 4296085805779576606
999999 s15 = 908756375680900675
7 hours = 13497577410375953420
7 plan = 13749628697444984654
";

// The folder of a number that has one.
fn folder_of(alloc: Global, number: u64) -> Result<MadeFolder, Fail> {
    if number > 999_999 {
        return Err("no such folder")?;
    }
    Ok(make(alloc, number)?)
}

// A sum, with a file's bytes behind it.
fn add_file(alloc: Global, hand: &mut MadeHand, path: &str, sum: u64) -> Result<u64, Fail> {
    match read_whole(alloc, hand, path, MOST)? {
        Whole::Text(text) => Ok(sum_of(&text, sum)),
        Whole::Missing => Err("missing")?,
        Whole::Large => Err("large")?,
        Whole::Faulted => Err("faulted")?,
    }
}

fn sum_of(bytes: &[u8], begin: u64) -> u64 {
    let mut sum = begin;
    for byte in bytes {
        sum = (sum ^ *byte as u64).wrapping_mul(FACTOR);
    }
    sum
}

// The sum over the minute files of a security.
fn minute_sum(alloc: Global, hand: &mut MadeHand, name: &str) -> Result<u64, Fail> {
    let mut sum = BEGIN;
    for day in DAYS.split(' ') {
        let path = format!(in alloc; "equity/usa/minute/{name}/{day}_{name}_minute_trade.csv")?;
        sum = add_file(alloc, hand, &path, sum)?;
    }
    Ok(sum)
}

fn named_sum(alloc: Global, hand: &mut MadeHand, name: &str) -> Result<u64, Fail> {
    match name {
        "hours" => add_file(
            alloc,
            hand,
            "market-hours/market-hours-database.json",
            BEGIN,
        ),
        "plan" => add_file(alloc, hand, "demo.toml", BEGIN),
        _ => minute_sum(alloc, hand, name),
    }
}

fn answer(alloc: Global, case: &str) -> Result<String, Fail> {
    let (number, name) = case.split_once(' ').ok_or("no name")?;
    let mut folder = folder_of(alloc, number.parse()?)?;
    let mut hand = folder.hand(alloc)?;
    let sum = named_sum(alloc, &mut hand, name)?;
    folder.take_back(hand);
    Ok(format!(in alloc; "{sum}")?)
}

#[test]
fn files_are_those_of_the_description(rt: HostRuntime) -> Result<(), Fail> {
    check(rt.alloc(), SUMS, answer)
}

// A path, and whether a made folder has a file there.
const PATHS: &str = "\
demo.toml = true
Demo.toml = false
equity/usa/minute/S0/20131007_S0_minute_trade.csv = false
equity/usa/minute/s0/20131012_s0_minute_trade.csv = false
equity/usa/minute/s0/20131019_s0_minute_trade.csv = false
equity/usa/minute/s15/20131018_s15_minute_trade.csv = true
equity/usa/minute/s16/20131018_s16_minute_trade.csv = false
";

fn is_there(alloc: Global, path: &str) -> Result<String, Fail> {
    let mut folder = make(alloc, 5)?;
    let mut hand = folder.hand(alloc)?;
    let answer = hand.open_file(path);
    folder.take_back(hand);
    match answer {
        Ok(found) => Ok(format!(in alloc; "{found}")?),
        Err(Failed) => Err("failed")?,
    }
}

#[test]
fn there_are_no_other_files(rt: HostRuntime) -> Result<(), Fail> {
    check(rt.alloc(), PATHS, is_there)
}
