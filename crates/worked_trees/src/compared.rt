// Stops a test where an answer is another one.
use std::alloc::{AllocGlobal, Global};
use std::process::Abort;
use std::test::Fail;
use worked_given::bytes;

/// Stops the test where the bytes are not those of the text.
pub fn is_text<R: Abort + AllocGlobal>(rt: &R, found: &[u8], text: &str) -> Result<(), Fail> {
    assert_eq!(rt; found, bytes(rt.alloc(), text)?.as_slice());
    Ok(())
}

/// Stops the test where the answer to a row of a table is another one. A row has what is asked, and after `; ` the answer.
pub fn are_texts<R, F>(rt: &R, table: &str, answer: F) -> Result<(), Fail>
where
    R: Abort + AllocGlobal,
    F: Fn(Global, &str) -> Result<Vec<u8>, Fail>,
    requires { F.IsAlwaysCallable answer }
{
    for row in table.split('\n') {
        let (asked, expected) = row.split_once("; ").ok_or("no answer")?;
        is_text(rt, &answer(rt.alloc(), asked)?, expected)?;
    }
    Ok(())
}

/// Stops the test where an answer is another one.
pub fn is<R: Abort>(rt: &R, found: bool, expected: bool) {
    assert!(rt; found == expected);
}
