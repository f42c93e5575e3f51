// What tables compare: printed lines, and names of faults.
use ms_ir::{NoMemory, Text};
use ms_line::{LineFault, read_line, write_line};
use std::alloc::Global;
use std::process::Abort;
use std::test::Fail;

/// What stands in a table for a line that is in no grammar.
pub const NO_LINE: &str = "not of the profile";

/// What stands in a table for a line that passes a limit.
pub const PAST: &str = "too long";

/// What a line is printed as, or why it is not read.
pub fn told(alloc: Global, line: &[u8]) -> Result<Text, NoMemory> {
    if line.len() > 1000 {
        return Text::from_bytes(alloc, b"longer than a row of a table");
    }
    match read_line(alloc, line) {
        Ok(said) => {
            let mut text = Text::new(alloc);
            write_line(&said, &mut text)?;
            Ok(text)
        }
        Err(LineFault::NotOfProfile) => Text::from_bytes(alloc, NO_LINE.as_bytes()),
        Err(LineFault::TooLong) => Text::from_bytes(alloc, PAST.as_bytes()),
        Err(LineFault::Memory) => Err(NoMemory),
    }
}

/// Expects each line to be printed so, or not to be read for this cause.
pub fn expect(rt: &impl Abort, alloc: Global, rows: &[(&str, &str)]) -> Result<(), Fail> {
    for (line, wanted) in rows {
        let text = told(alloc, line.as_bytes())?;
        assert_eq!(rt; text.bytes(), wanted.as_bytes(), "{line}");
    }
    Ok(())
}

/// Expects each line to be in no grammar.
pub fn expect_none(rt: &impl Abort, alloc: Global, lines: &[&str]) -> Result<(), Fail> {
    for line in lines {
        let text = told(alloc, line.as_bytes())?;
        assert_eq!(rt; text.bytes(), NO_LINE.as_bytes(), "{line}");
    }
    Ok(())
}
