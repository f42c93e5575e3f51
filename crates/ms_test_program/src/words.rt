// Words that are not those of the command, and lists of passes.
use crate::row::{MOST, PRINT, Row, expect, run};
use crate::texts::ONE_BLOCK;
use ms_cli::Status;
use std::test::Fail;

const USAGE: &[u8] =
    b"mssa: usage: mssa --passes=LIST [--edits=FILE] [--stats] [--disable-output] (FILE or --gen=SEED)\n";

// One pass too many.
const SEVENTEEN: &str =
    "--passes=print<memoryssa>,print<memoryssa>,print<memoryssa>,print<memoryssa>,print<memoryssa>,print<memoryssa>,print<memoryssa>,print<memoryssa>,print<memoryssa>,print<memoryssa>,print<memoryssa>,print<memoryssa>,print<memoryssa>,print<memoryssa>,print<memoryssa>,print<memoryssa>,print<memoryssa>";

#[test]
fn refused_words(rt: HostRuntime) -> Result<(), Fail> {
    let bad: [&[&str]; 17] = [
        &[],
        &[PRINT],
        &["f.ll"],
        &[PRINT, "f.ll", "f.ll"],
        &["--passes=dse", "f.ll"],
        &["--passes=", "f.ll"],
        &["--passes", "f.ll"],
        &["--passes=print<memoryssa>,", "f.ll"],
        &[SEVENTEEN, "f.ll"],
        &["f.ll", PRINT],
        &[PRINT, ""],
        &[PRINT, "-x"],
        &[PRINT, "--"],
        &[PRINT, "--disable-output"],
        &["--disable-output", PRINT, "f.ll"],
        &[PRINT, "f.ll", "--disable-output"],
        &[PRINT, "--disable-output", "f.ll", "f.ll"],
    ];
    for words in bad {
        let row = Row {
            words,
            name: "f.ll",
            bytes: ONE_BLOCK,
            reads_that_fail: &[1],
            most: MOST,
            writes_that_fail: &[1],
            tells_that_fail: &[],
        };
        // The first read and the first write would fail.
        let left = run(rt.alloc(), &row)?;
        expect(&rt, &left, Status::Usage, b"", USAGE);
    }
    Ok(())
}
