ghost use Rattle.std.specs.Prelude.{◌≡◌, true};

use lean_fixed::NoMemory;
use lean_io::{
    DirFolder, Failed, Folder, Hand, MemFolder, MemSink, Sink, StdSink, Whole, WriteFault,
    read_whole, write_whole,
};
use std::alloc::Global;
use std::collections::BTreeMap;
use std::fs;
use std::test::Fail;
use test_cases::cases::{check, compare, parts_of};

// A file of so many bytes, which all differ from their neighbours.
fn made(alloc: Global, length: usize) -> Result<Vec<u8>, NoMemory> {
    let mut bytes = Vec::with_capacity(alloc, length)?;
    for i in 0..length {
        bytes.push((i % 251) as u8)?;
    }
    Ok(bytes)
}

// Puts a made file at a path.
fn put(
    alloc: Global,
    files: &mut BTreeMap<String, Vec<u8>>,
    path: &str,
    length: usize,
) -> Result<(), NoMemory> {
    let bytes = made(alloc, length)?;
    let path = String::from_str(alloc, path)?;
    files.insert(path, bytes)?;
    Ok(())
}

// A folder of an empty file, one of three bytes and one of 40,000, which is read in two pieces.
fn files(alloc: Global) -> Result<BTreeMap<String, Vec<u8>>, NoMemory> {
    let mut files = BTreeMap::new(alloc);
    put(alloc, &mut files, "none.csv", 0)?;
    put(alloc, &mut files, "three.csv", 3)?;
    put(alloc, &mut files, "many.csv", 40_000)?;
    Ok(files)
}

// That one call of the openings of a path fails.
fn failing(alloc: Global, path: &str, call: u64) -> Result<Vec<(String, u64)>, NoMemory> {
    let mut fails = Vec::new(alloc);
    fails.push((String::from_str(alloc, path)?, call))?;
    Ok(fails)
}

// The folder of these files where one call of the openings of a path fails.
fn folder(alloc: Global, path: &str, call: u64) -> Result<MemFolder, NoMemory> {
    let files = files(alloc)?;
    let fails = failing(alloc, path, call)?;
    MemFolder::new(alloc, files, fails)
}

// Whether the bytes are those of a made file.
fn is_made(alloc: Global, bytes: &[u8]) -> Result<bool, NoMemory> {
    let made = made(alloc, bytes.len())?;
    Ok(made.as_slice() == bytes)
}

// How many bytes were read, where they are those of a made file, and how the reading ended.
fn said(alloc: Global, bytes: &[u8], end: &str) -> Result<String, NoMemory> {
    if is_made(alloc, bytes)? {
        return Ok(format!(in alloc; "{}{end}", bytes.len())?);
    }
    Ok(String::from_str(alloc, "other bytes")?)
}

// What the reading of a whole file gives.
fn whole<H: Hand>(
    alloc: Global,
    hand: &mut H,
    path: &str,
    most: usize,
) -> Result<String, NoMemory> {
    match read_whole(alloc, hand, path, most)? {
        Whole::Text(text) => said(alloc, &text, ""),
        Whole::Missing => Ok(String::from_str(alloc, "missing")?),
        Whole::Large => Ok(String::from_str(alloc, "large")?),
        Whole::Faulted => Ok(String::from_str(alloc, "faulted")?),
    }
}

// What the reads of the open file give, with a buffer of this size and so many at most.
fn pieces<H: Hand>(alloc: Global, hand: &mut H, size: usize, reads: u32) -> Result<String, NoMemory>
    requires { H.is_open hand.old ≡ true }
{
    let mut text = Vec::new(alloc);
    let mut piece: Vec<u8> = vec![in alloc; 0; size]?;
    'reads: for _ in 0..reads {
        match hand.read(&mut piece) {
            Ok(0) => return said(alloc, &text, " to the end"),
            Ok(n) => text.extend_from_slice(&piece[..n])?,
            Err(Failed) => return said(alloc, &text, " and a fault"),
        }
    }
    said(alloc, &text, "")
}

// What a hand answers to a command: a word, a path and a number. `whole`: the file is read whole where
// it has at most so many bytes. `pieces`: it is opened and read so many bytes at a time. `front`: it is
// opened, and one read asks for so many bytes.
fn answer<H: Hand>(alloc: Global, hand: &mut H, command: &str) -> Result<String, Fail> {
    let (word, rest) = command.split_once(' ').ok_or("no path")?;
    let (path, number) = rest.rsplit_once(' ').ok_or("no number")?;
    let number: usize = number.parse()?;
    if word == "whole" {
        return Ok(whole(alloc, hand, path, number)?);
    }
    let reads = if word == "front" { 1 } else { 100_000 };
    match hand.open_file(path) {
        Ok(true) => Ok(pieces(alloc, hand, number, reads)?),
        Ok(false) => Ok(String::from_str(alloc, "no file")?),
        Err(Failed) => Ok(String::from_str(alloc, "no opening")?),
    }
}

// That a hand answers the commands of all cases in turn as they say.
fn check_hand<H: Hand>(alloc: Global, hand: &mut H, cases: &str) -> Result<(), Fail> {
    for case in cases.lines() {
        let (command, wanted) = parts_of(case)?;
        let answer = answer(alloc, hand, command)?;
        compare(alloc, command, &answer, wanted)?;
    }
    Ok(())
}

const FILES: &str = "\
whole none.csv 0 = 0
whole three.csv 3 = 3
whole three.csv 2 = large
whole three.csv 0 = large
whole many.csv 40000 = 40000
whole many.csv 39999 = large
whole many.csv 32768 = large
whole many.csv 32767 = large
whole other.csv 9 = missing
whole three.cs 9 = missing
whole three.csvs 9 = missing
whole  9 = missing
pieces none.csv 7 = 0 to the end
pieces three.csv 1 = 3 to the end
pieces three.csv 3 = 3 to the end
pieces many.csv 7 = 40000 to the end
pieces other.csv 7 = no file
front three.csv 0 = 0 to the end
front many.csv 7 = 7
front many.csv 40001 = 40000
";

#[test]
fn files_in_memory_are_read(rt: HostRuntime) -> Result<(), Fail> {
    let alloc = rt.alloc();
    let mut folder = folder(alloc, "none.csv", 99)?;
    let mut hand = folder.hand(alloc)?;
    let checked = check_hand(alloc, &mut hand, FILES);
    folder.take_back(hand);
    checked
}

// A command and the call that fails of each opening of its file, and what one hand answers to it, to
// the reading of another file, and to the command again. Of the file of 40,000 bytes a whole reading
// takes an opening, two reads and one at the end.
const FAILING_CALLS: &str = "\
whole many.csv 40000, 0 = faulted, 0, faulted
whole many.csv 40000, 1 = faulted, 0, faulted
whole many.csv 40000, 2 = faulted, 0, faulted
whole many.csv 40000, 3 = faulted, 0, faulted
whole many.csv 40000, 4 = 40000, 0, 40000
pieces three.csv 1, 0 = no opening, 0, no opening
pieces three.csv 1, 1 = 0 and a fault, 0, 0 and a fault
pieces three.csv 1, 2 = 1 and a fault, 0, 1 and a fault
pieces three.csv 1, 3 = 2 and a fault, 0, 2 and a fault
pieces three.csv 1, 4 = 3 and a fault, 0, 3 and a fault
pieces three.csv 1, 5 = 3 to the end, 0, 3 to the end
whole other.csv 9, 0 = faulted, 0, faulted
whole other.csv 9, 1 = missing, 0, missing
";

// What a hand answers to a command, to the reading of another file, and to the command again.
fn three_answers<H: Hand>(alloc: Global, hand: &mut H, command: &str) -> Result<String, Fail> {
    let first = answer(alloc, hand, command)?;
    let other = answer(alloc, hand, "whole none.csv 9")?;
    let again = answer(alloc, hand, command)?;
    Ok(format!(in alloc; "{first}, {other}, {again}")?)
}

// The same of a hand of a folder where a call of the openings of the command's file fails.
fn failing_answers(alloc: Global, case: &str) -> Result<String, Fail> {
    let (command, call) = case.split_once(", ").ok_or("no call")?;
    let (_, rest) = command.split_once(' ').ok_or("no path")?;
    let (path, _) = rest.rsplit_once(' ').ok_or("no number")?;
    let mut folder = folder(alloc, path, call.parse()?)?;
    let mut hand = folder.hand(alloc)?;
    let answers = three_answers(alloc, &mut hand, command);
    folder.take_back(hand);
    answers
}

#[test]
fn each_call_fails_where_it_is_listed(rt: HostRuntime) -> Result<(), Fail> {
    check(rt.alloc(), FAILING_CALLS, failing_answers)
}

// The most bytes that a sink takes at a time, how many it has room for and the write that fails, and what
// it takes of ten bytes.
const WRITES: &str = "\
4 99 1 = 0 and a fault
4 99 2 = 4 and a fault
4 99 3 = 8 and a fault
4 99 4 = 10 are all
4 10 9 = 10 are all
4 9 9 = 9 and a fault
4 0 9 = 0 and a fault
1 10 1 = 0 and a fault
1 10 2 = 1 and a fault
1 10 9 = 8 and a fault
1 10 10 = 9 and a fault
1 10 11 = 10 are all
10 10 1 = 0 and a fault
10 10 2 = 10 are all
";

// What a sink takes of ten bytes.
fn taken(alloc: Global, most: usize, room: usize, fail: u64) -> Result<String, NoMemory> {
    let piece = made(alloc, 10)?;
    let mut sink = sink_of(alloc, most, room, fail)?;
    match write_whole(&mut sink, &piece) {
        Ok(()) => said(alloc, sink.bytes(), " are all"),
        Err(WriteFault) => said(alloc, sink.bytes(), " and a fault"),
    }
}

// A sink where one write fails.
fn sink_of(alloc: Global, most: usize, room: usize, fail: u64) -> Result<MemSink, NoMemory> {
    let most = if most == 0 { 1 } else { most };
    let mut fails = Vec::new(alloc);
    fails.push(fail)?;
    MemSink::new(alloc, most, room, fails)
}

fn taken_of(alloc: Global, input: &str) -> Result<String, Fail> {
    let (most, rest) = input.split_once(' ').ok_or("no room")?;
    let (room, fail) = rest.split_once(' ').ok_or("no write")?;
    Ok(taken(alloc, most.parse()?, room.parse()?, fail.parse()?)?)
}

#[test]
fn bytes_are_written_whole_or_a_front_of_them(rt: HostRuntime) -> Result<(), Fail> {
    check(rt.alloc(), WRITES, taken_of)
}

// Pieces in turn, to a sink that takes one byte at a time, has room for two, and whose second write
// fails. Empty pieces are counted, take no room and never fail.
const PIECES: &str = "\
write  = 0
write a = failed
write a = 1
write  = 0
write bc = 1
write d = failed
write  = 0
";

// What a sink answers to a command: `write` and a piece.
fn write_answer(alloc: Global, sink: &mut MemSink, command: &str) -> Result<String, Fail> {
    let piece = command.strip_prefix("write ").ok_or("no piece")?;
    match sink.write(piece.as_bytes()) {
        Ok(n) => Ok(format!(in alloc; "{n}")?),
        Err(Failed) => Ok(String::from_str(alloc, "failed")?),
    }
}

// That a sink answers the commands of all cases in turn as they say.
fn check_sink(alloc: Global, sink: &mut MemSink, cases: &str) -> Result<(), Fail> {
    for case in cases.lines() {
        let (command, wanted) = parts_of(case)?;
        let answer = write_answer(alloc, sink, command)?;
        compare(alloc, command, &answer, wanted)?;
    }
    Ok(())
}

#[test]
fn writes_are_counted_from_one(rt: HostRuntime) -> Result<(), Fail> {
    let mut sink = sink_of(rt.alloc(), 1, 2, 2)?;
    check_sink(rt.alloc(), &mut sink, PIECES)?;
    assert_eq!(rt; sink.bytes(), b"ab".as_slice());
    Ok(())
}

#[test]
fn an_empty_piece_is_written_without_room(rt: HostRuntime) -> Result<(), Fail> {
    let alloc = rt.alloc();
    let mut sink = MemSink::new(alloc, 1, 0, Vec::new(alloc))?;
    assert!(rt; write_whole(&mut sink, b"").is_ok());
    assert!(rt; write_whole(&mut sink, b"a").is_err());
    Ok(())
}

// A path below a file and a directory are faults, and no missing files. What was read ahead of a file is
// not given as another's, nor as its own start where it is opened again.
const DIRECTORY: &str = "\
whole lean_io.of_no_test 9 = missing
whole lean_io.of_a_test/x 9 = faulted
whole . 9 = faulted
whole lean_io.of_a_test 39999 = large
whole lean_io.of_a_test 40000 = 40000
pieces lean_io.of_a_test 7 = 40000 to the end
pieces lean_io.of_a_test 20000 = 40000 to the end
pieces lean_io.of_a_test 50000 = 40000 to the end
front lean_io.of_a_test 7 = 7
pieces lean_io.of_a_test_2 7 = 6 to the end
front lean_io.of_a_test 7 = 7
pieces lean_io.of_a_test 7 = 40000 to the end
front lean_io.of_a_test 7 = 7
pieces lean_io.of_no_test 7 = no file
pieces . 7 = 0 and a fault
pieces lean_io.of_a_test_2 7 = 6 to the end
";

fn check_directory(rt: HostRuntime) -> Result<(), Fail> {
    let alloc = rt.alloc();
    let mut folder = DirFolder::new(rt);
    let mut hand = folder.hand(alloc)?;
    let checked = check_hand(alloc, &mut hand, DIRECTORY);
    folder.take_back(hand);
    checked
}

#[test]
fn a_directory_is_read(rt: HostRuntime) -> Result<(), Fail> {
    let many = made(rt.alloc(), 40_000)?;
    let few = made(rt.alloc(), 6)?;
    fs::write(&rt, "lean_io.of_a_test", &many)?;
    fs::write(&rt, "lean_io.of_a_test_2", &few)?;
    check_directory(rt)?;
    fs::remove_file(&rt, "lean_io.of_a_test")?;
    fs::remove_file(&rt, "lean_io.of_a_test_2")?;
    Ok(())
}

#[test]
fn standard_output_takes_bytes(rt: HostRuntime) -> Result<(), Fail> {
    let mut sink = StdSink::new(rt);
    assert!(rt; sink.write(b"").is_ok());
    assert!(rt; write_whole(&mut sink, b"printed\n").is_ok());
    Ok(())
}
