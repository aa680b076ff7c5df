//! Tables of cases as text: lines `input = answer`.

use std::alloc::Global;
use std::test::Fail;

/// What stands before and behind the sign of a case.
pub fn parts_of(case: &str) -> Result<(&str, &str), Fail> {
    Ok(case.split_once(" = ").ok_or("a case without an answer")?)
}

/// That an answer is the one that is wanted.
pub fn compare(alloc: Global, input: &str, answer: &str, wanted: &str) -> Result<(), Fail> {
    if answer == wanted {
        return Ok(());
    }
    Err(format!(in alloc; "{input} is answered {answer}")?)?
}

/// That a call answers the inputs of all cases as they say.
pub fn check<F: Fn(Global, &str) -> Result<String, Fail>>(
    alloc: Global,
    cases: &str,
    answer: F,
) -> Result<(), Fail>
    requires { F.IsAlwaysCallable answer }
{
    for case in cases.lines() {
        let (input, wanted) = parts_of(case)?;
        let answer = answer(alloc, input)?;
        compare(alloc, input, &answer, wanted)?;
    }
    Ok(())
}

/// The answer of a call that has none.
pub fn none(alloc: Global) -> Result<String, Fail> {
    Ok(String::from_str(alloc, "none")?)
}
