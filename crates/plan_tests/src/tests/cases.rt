//! Tables of files as text: the lines of a file, and behind them a line `= answer`.

use std::alloc::Global;
use std::test::Fail;

/// That a call answers each file of a table as the table says.
pub(crate) fn check<F: Fn(Global, &str) -> Result<String, Fail>>(
    alloc: Global,
    cases: &str,
    answer: F,
) -> Result<(), Fail>
    requires { F.IsAlwaysCallable answer }
{
    let mut file = String::new(alloc);
    for line in cases.lines() {
        match line.strip_prefix("= ") {
            None => append_line(line, &mut file)?,
            Some(wanted) => {
                let answer = answer(alloc, &file)?;
                compare(alloc, &file, &answer, wanted)?;
                file.clear();
            }
        }
    }
    Ok(())
}

fn append_line(line: &str, file: &mut String) -> Result<(), Fail> {
    file.push_str(line)?;
    file.push('\n')?;
    Ok(())
}

/// That a file is answered as it should be.
pub(crate) fn compare(alloc: Global, file: &str, answer: &str, wanted: &str) -> Result<(), Fail> {
    if answer == wanted {
        return Ok(());
    }
    Err(format!(in alloc; "{file}is answered {answer}")?)?
}
