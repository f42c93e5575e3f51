// Reads and writes that fail.
use crate::row::{MOST, PRINT, Row, expect, refused, run};
use crate::texts::ONE_BLOCK;
use ms_cli::Status;
use std::test::Fail;

#[test]
fn sink_fails_at_its_second_write(rt: HostRuntime) -> Result<(), Fail> {
    let row = Row {
        words: &[PRINT, "f.ll"],
        name: "f.ll",
        bytes: ONE_BLOCK,
        reads_that_fail: &[],
        most: 16,
        writes_that_fail: &[2],
        tells_that_fail: &[],
    };
    let left = run(rt.alloc(), &row)?;
    expect(
        &rt,
        &left,
        Status::WriteFault,
        b"MemorySSA for fu",
        b"mssa: cannot write output\n",
    );
    Ok(())
}

// A file that is not there, and one whose read fails.
#[test]
fn file_that_cannot_be_read(rt: HostRuntime) -> Result<(), Fail> {
    let fails: [(&str, &[u64]); 2] = [("other.ll", &[]), ("none.ll", &[1])];
    for (name, reads_that_fail) in fails {
        let row = Row {
            words: &[PRINT, "none.ll"],
            name,
            bytes: ONE_BLOCK,
            reads_that_fail,
            most: MOST,
            writes_that_fail: &[],
            tells_that_fail: &[],
        };
        let left = run(rt.alloc(), &row)?;
        expect(
            &rt,
            &left,
            Status::ReadFault,
            b"",
            b"mssa: cannot read none.ll\n",
        );
    }
    Ok(())
}

// A sink for the line that fails changes no status.
#[test]
fn line_that_cannot_be_written(rt: HostRuntime) -> Result<(), Fail> {
    let rows: [(&[&str], &[u8], &[u64], Status); 4] = [
        (&[PRINT], ONE_BLOCK, &[], Status::Usage),
        (&[PRINT, "none.ll"], ONE_BLOCK, &[], Status::ReadFault),
        (&[PRINT, "f.ll"], b"}", &[], refused(1, 1)),
        (&[PRINT, "f.ll"], ONE_BLOCK, &[1], Status::WriteFault),
    ];
    for (words, bytes, writes_that_fail, status) in rows {
        let row = Row {
            words,
            name: "f.ll",
            bytes,
            reads_that_fail: &[],
            most: MOST,
            writes_that_fail,
            tells_that_fail: &[1],
        };
        let left = run(rt.alloc(), &row)?;
        expect(&rt, &left, status, b"", b"");
    }
    Ok(())
}

// A line that is cut off in its middle.
#[test]
fn line_whose_second_part_fails(rt: HostRuntime) -> Result<(), Fail> {
    let row = Row {
        words: &[PRINT, "cut.ll"],
        name: "cut.ll",
        bytes: b"}",
        reads_that_fail: &[],
        most: MOST,
        writes_that_fail: &[],
        tells_that_fail: &[2],
    };
    let left = run(rt.alloc(), &row)?;
    expect(&rt, &left, refused(1, 1), b"", b"mssa: ");
    Ok(())
}

// A sink that would take all of an output is given no more than 4,096 bytes of it in a call, and no call is made behind
// the last byte.
#[test]
fn pieces_of_4096_bytes(rt: HostRuntime) -> Result<(), Fail> {
    let alloc = rt.alloc();
    let mut text = Vec::from_slice(
        alloc,
        b"define void @f() {\n  %p = alloca i32, align 4\n".as_slice(),
    )?;
    for _ in 0..100 {
        text.extend_from_slice(b"  store i32 7, ptr %p, align 4\n".as_slice())?;
    }
    text.extend_from_slice(b"  ret void\n}\n".as_slice())?;
    let writes: [(&[u64], Status, usize); 3] = [
        (&[2], Status::WriteFault, 4096),
        (&[3], Status::WriteFault, 8192),
        (&[4], Status::Done, 8437),
    ];
    for (writes_that_fail, status, length) in writes {
        let row = Row {
            words: &[PRINT, "f.ll"],
            name: "f.ll",
            bytes: text.as_slice(),
            reads_that_fail: &[],
            most: MOST,
            writes_that_fail,
            tells_that_fail: &[],
        };
        let left = run(alloc, &row)?;
        assert_eq!(rt; left.status, status);
        assert_eq!(rt; left.out.bytes().len(), length);
    }
    Ok(())
}
