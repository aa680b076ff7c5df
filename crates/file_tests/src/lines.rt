ghost use Rattle.std.specs.Prelude.{◌≡◌, ◌≤◌, true};
ghost use Rattle.line_source.specs.Reader.{hand_of, number_of};

use lean_io::{Failed, Folder, Hand, MemFolder};
use line_source::{Line, Lines};
use std::alloc::{AllocError, Global};
use std::collections::BTreeMap;
use std::fmt::Write;
use std::test::Fail;
use test_cases::cases::check;
use test_cases::cut::CutHand;

const PATH: &str = "lines.csv";

// So many of a byte, or one where the number is 0.
fn push_run(bytes: &mut Vec<u8>, byte: u8, count: usize) -> Result<(), AllocError> {
    let count = if count == 0 { 1 } else { count };
    for _ in 0..count {
        bytes.push(byte)?;
    }
    Ok(())
}

// The bytes that a case writes: a number repeats the character behind it, `;` is an LF and `<` a CR.
fn bytes_of(alloc: Global, text: &str) -> Result<Vec<u8>, AllocError> {
    let mut bytes = Vec::new(alloc);
    let mut count: usize = 0;
    for byte in text.as_bytes() {
        if byte.is_ascii_digit() {
            count = count
                .saturating_mul(10)
                .saturating_add((byte - b'0') as usize);
        } else {
            let byte = match *byte {
                b';' => b'\n',
                b'<' => b'\r',
                other => other,
            };
            push_run(&mut bytes, byte, count)?;
            count = 0;
        }
    }
    Ok(bytes)
}

// A byte of a text as a case writes it.
fn letter_of(byte: u8) -> &'static str {
    match byte {
        b'a' => "a",
        b'b' => "b",
        b'c' => "c",
        b'd' => "d",
        b'\r' => "<",
        _ => "?",
    }
}

// So many of a byte as a case writes them.
fn write_run(said: &mut String, byte: u8, count: usize) -> Result<(), AllocError> {
    if count > 1 {
        write!(said, "{count}")?;
    }
    said.push_str(letter_of(byte))
}

// A text as a case writes it.
fn write_runs(said: &mut String, text: &[u8]) -> Result<(), AllocError> {
    let mut run: usize = 0;
    for (i, byte) in text.iter().enumerate() {
        run = run.saturating_add(1);
        if text.get(i + 1) != Some(byte) {
            write_run(said, *byte, run)?;
            run = 0;
        }
    }
    Ok(())
}

// What a reader gives of its open file: the number and the text of each line, and how it ends.
fn list_lines<H: Hand>(alloc: Global, lines: &mut Lines<H>) -> Result<String, Fail>
    requires opened { H.is_open (hand_of lines.old) ≡ true }
    requires few { number_of lines.old ≤ 10_000_000 }
{
    let mut said = String::new(alloc);
    'lines: loop {
        match lines.next() {
            Line::Text => {
                write!(said, "{} ", lines.number())?;
                write_runs(&mut said, lines.text())?;
                said.push_str(", ")?;
            }
            Line::Long => {
                write!(said, "{} long", lines.number())?;
                return Ok(said);
            }
            Line::Many => {
                write!(said, "{} many", lines.number())?;
                return Ok(said);
            }
            Line::End => {
                said.push_str("end")?;
                return Ok(said);
            }
            Line::Faulted => {
                said.push_str("faulted")?;
                return Ok(said);
            }
        }
    }
}

// The same of a file from its start, or that it could not be opened.
fn list_file<H: Hand>(alloc: Global, lines: &mut Lines<H>) -> Result<String, Fail> {
    match lines.open_file(PATH) {
        Ok(true) => list_lines(alloc, lines),
        Ok(false) => Ok(String::from_str(alloc, "missing")?),
        Err(Failed) => Ok(String::from_str(alloc, "failed")?),
    }
}

// A folder of one file, of which one call fails.
fn folder_of(alloc: Global, bytes: Vec<u8>, call: u64) -> Result<MemFolder, Fail> {
    let mut files = BTreeMap::new(alloc);
    files.insert(String::from_str(alloc, PATH)?, bytes)?;
    let mut fails = Vec::new(alloc);
    fails.push((String::from_str(alloc, PATH)?, call))?;
    Ok(MemFolder::new(alloc, files, fails)?)
}

// What is given of the file where a read ends at a place, and others have at most so many bytes.
fn list_cut(
    alloc: Global,
    folder: &mut MemFolder,
    place: usize,
    most: usize,
) -> Result<String, Fail> {
    let inner = folder.hand(alloc)?;
    let mut lines = Lines::new(CutHand { inner, place, most });
    let said = list_file(alloc, &mut lines)?;
    let hand = lines.into_hand();
    folder.take_back(hand.inner);
    Ok(said)
}

const NEVER: u64 = 1_000_000;

const FILES: &str = "\
; = end
 = end
< = end
3; = end
a = 1 a, end
a; = 1 a, end
a;bc = 1 a, 2 bc, end
a;bc; = 1 a, 2 bc, end
a<; = 1 a, end
a< = 1 a, end
a2<; = 1 a<, end
<a = 1 <a, end
<; = end
a;;<;b; = 1 a, 4 b, end
;;b<;<;<;c = 3 b, 6 c, end
255a; = 1 255a, end
256a; = 1 256a, end
256a = 1 256a, end
257a; = 1 long
257a = 1 long
255a<; = 1 255a, end
255a< = 1 255a, end
256a<; = 1 long
256a< = 1 long
256<; = 1 255<, end
256a;256b;256c = 1 256a, 2 256b, 3 256c, end
a;255b<;;256c<; = 1 a, 2 255b, 4 long
a;257b;c = 1 a, 2 long
200a;200b;200c = 1 200a, 2 200b, 3 200c, end
1000a = 1 long
";

// Whether a reader gives the same of a file where a read ends at a place, and others have at most so many bytes.
fn is_same_cut(
    alloc: Global,
    folder: &mut MemFolder,
    answer: &str,
    place: usize,
    most: usize,
) -> Result<bool, Fail> {
    let cut = list_cut(alloc, folder, place, most)?;
    Ok(cut.as_str() == answer)
}

// The first place of a file at which another answer is given where a read ends there.
fn differing_place(
    alloc: Global,
    folder: &mut MemFolder,
    answer: &str,
    size: usize,
) -> Result<Option<usize>, Fail> {
    for place in 1..size {
        if !is_same_cut(alloc, folder, answer, place, 256)? {
            return Ok(Some(place));
        }
    }
    Ok(None)
}

// The least number of bytes a read at which another answer is given.
fn differing_size(
    alloc: Global,
    folder: &mut MemFolder,
    answer: &str,
) -> Result<Option<usize>, Fail> {
    for most in 1..9 {
        if !is_same_cut(alloc, folder, answer, 0, most)? {
            return Ok(Some(most));
        }
    }
    Ok(None)
}

// What is given of a file as it is, with a read that ends at each of its places, and with a few bytes a read.
fn list_each_cut(alloc: Global, folder: &mut MemFolder, size: usize) -> Result<String, Fail> {
    let answer = list_cut(alloc, folder, 0, 256)?;
    if let Some(place) = differing_place(alloc, folder, &answer, size)? {
        return Ok(format!(in alloc; "{answer}, but not cut at {place}")?);
    }
    if let Some(most) = differing_size(alloc, folder, &answer)? {
        return Ok(format!(in alloc; "{answer}, but not by {most}")?);
    }
    Ok(answer)
}

fn each_cut(alloc: Global, input: &str) -> Result<String, Fail> {
    let bytes = bytes_of(alloc, input)?;
    let size = bytes.len();
    let mut folder = folder_of(alloc, bytes, NEVER)?;
    list_each_cut(alloc, &mut folder, size)
}

#[test]
fn lines_are_the_same_however_reads_are_cut(rt: HostRuntime) -> Result<(), Fail> {
    check(rt.alloc(), FILES, each_cut)
}

// The call that fails while `ab;c;d` is read, where a read gives at most so many bytes. Behind the last line the end is
// read once more.
const FAILING: &str = "\
0 1 = failed
1 1 = faulted
2 1 = faulted
3 1 = faulted
4 1 = 1 ab, faulted
5 1 = 1 ab, faulted
6 1 = 1 ab, 2 c, faulted
7 1 = 1 ab, 2 c, faulted
8 1 = 1 ab, 2 c, 3 d, faulted
9 1 = 1 ab, 2 c, 3 d, end
1 256 = faulted
2 256 = 1 ab, 2 c, faulted
3 256 = 1 ab, 2 c, 3 d, faulted
4 256 = 1 ab, 2 c, 3 d, end
";

fn list_failing(alloc: Global, call: u64, most: usize) -> Result<String, Fail> {
    let mut folder = folder_of(alloc, bytes_of(alloc, "ab;c;d")?, call)?;
    list_cut(alloc, &mut folder, 0, most)
}

fn failing(alloc: Global, input: &str) -> Result<String, Fail> {
    let (call, most) = input.split_once(' ').ok_or("no number")?;
    list_failing(alloc, call.parse()?, most.parse()?)
}

#[test]
fn a_failed_read_is_not_the_end(rt: HostRuntime) -> Result<(), Fail> {
    check(rt.alloc(), FAILING, failing)
}

const MANY: &str = "\
9999999;a = 10000000 a, end
9999999;257a = 10000000 long
10000000; = end
10000000;a = 10000001 many
10000001; = 10000001 many
10000000;257a = 10000001 many
";

// What is given of the file by a hand of the folder itself.
fn list_whole(alloc: Global, folder: &mut MemFolder) -> Result<String, Fail> {
    let mut lines = Lines::new(folder.hand(alloc)?);
    let said = list_file(alloc, &mut lines)?;
    folder.take_back(lines.into_hand());
    Ok(said)
}

fn many(alloc: Global, input: &str) -> Result<String, Fail> {
    let mut folder = folder_of(alloc, bytes_of(alloc, input)?, NEVER)?;
    list_whole(alloc, &mut folder)
}

#[test]
fn a_file_has_ten_million_lines_at_most(rt: HostRuntime) -> Result<(), Fail> {
    check(rt.alloc(), MANY, many)
}

// The number and the text of a line that was given.
fn given<H: Hand>(alloc: Global, lines: &Lines<H>) -> Result<String, AllocError> {
    let mut said = format!(in alloc; "{} ", lines.number())?;
    write_runs(&mut said, lines.text())?;
    Ok(said)
}

// The first line behind an opening.
fn first_line<H: Hand>(
    alloc: Global,
    lines: &mut Lines<H>,
    path: &str,
) -> Result<String, AllocError> {
    match lines.open_file(path) {
        Ok(true) => match lines.next() {
            Line::Text => given(alloc, lines),
            _ => String::from_str(alloc, "no text"),
        },
        Ok(false) => String::from_str(alloc, "missing"),
        Err(Failed) => String::from_str(alloc, "failed"),
    }
}

// What is given of all lines, of a file that is not there, and of the first line.
fn list_again<H: Hand>(alloc: Global, lines: &mut Lines<H>) -> Result<String, Fail> {
    let all = list_file(alloc, lines)?;
    let other = first_line(alloc, lines, "other.csv")?;
    let first = first_line(alloc, lines, PATH)?;
    Ok(format!(in alloc; "{all}; {other}; {first}")?)
}

// The same three times by one reader.
fn list_thrice(alloc: Global, folder: &mut MemFolder) -> Result<String, Fail> {
    let mut lines = Lines::new(folder.hand(alloc)?);
    let first = list_again(alloc, &mut lines)?;
    let second = list_again(alloc, &mut lines)?;
    let third = list_again(alloc, &mut lines)?;
    folder.take_back(lines.into_hand());
    Ok(format!(in alloc; "{first}\n{second}\n{third}\n")?)
}

fn thrice(alloc: Global) -> Result<String, Fail> {
    let mut folder = folder_of(alloc, bytes_of(alloc, "a;;b;c")?, NEVER)?;
    list_thrice(alloc, &mut folder)
}

const AGAIN: &str = "\
1 a, 3 b, 4 c, end; missing; 1 a
1 a, 3 b, 4 c, end; missing; 1 a
1 a, 3 b, 4 c, end; missing; 1 a
";

// An opening begins with the first line, and forgets what was read ahead.
#[test]
fn a_file_begins_with_its_first_line(rt: HostRuntime) -> Result<(), Fail> {
    let said = thrice(rt.alloc())?;
    assert_eq!(rt; said.as_str(), AGAIN);
    Ok(())
}
