// Modules at a limit, and one past it.
use crate::row::{PRINT, refused, run_on};
use itoa::Buffer;
use ms_cli::Status;
use std::alloc::{AllocError, Global};
use std::test::Fail;

// A text of numbered items: what stands before them, around the number of each, and behind them.
#[derive(Clone, Copy)]
struct Listing<'a> {
    before: &'a [u8],
    item: &'a [u8],
    item_end: &'a [u8],
    after: &'a [u8],
}

const FUNCTIONS: Listing<'static> = Listing {
    before: b"",
    item: b"define void @f",
    item_end: b"() {\nret void\n}\n",
    after: b"",
};

// Each block but the first.
const BLOCKS: Listing<'static> = Listing {
    before: b"define void @f() {\nret void\n",
    item: b"b",
    item_end: b":\nret void\n",
    after: b"}\n",
};

const INSTRUCTIONS: Listing<'static> = Listing {
    before: b"define void @f(ptr %p) {\n",
    item: b"store i32 ",
    item_end: b", ptr %p\n",
    after: b"ret void\n}\n",
};

fn text_of(alloc: Global, listing: &Listing, count: u32) -> Result<Vec<u8>, AllocError> {
    let mut text = Vec::from_slice(alloc, listing.before)?;
    let mut digits = Buffer::new();
    for number in 0..count {
        text.extend_from_slice(listing.item)?;
        text.extend_from_slice(digits.format(number).as_bytes())?;
        text.extend_from_slice(listing.item_end)?;
    }
    text.extend_from_slice(listing.after)?;
    Ok(text)
}

#[test]
fn limits(rt: HostRuntime) -> Result<(), Fail> {
    let alloc = rt.alloc();
    // A line that begins a function, a block or an instruction too many is refused.
    let rows = [
        (FUNCTIONS, 256, Status::Done),
        (FUNCTIONS, 257, refused(2, 769)),
        (BLOCKS, 1_023, Status::Done),
        (BLOCKS, 1_024, refused(2, 2_049)),
        (INSTRUCTIONS, 4_096, Status::Done),
        (INSTRUCTIONS, 4_097, refused(2, 4_098)),
    ];
    for (listing, count, status) in rows {
        let text = text_of(alloc, &listing, count)?;
        let left = run_on(
            alloc,
            &[PRINT, "--disable-output", "m.ll"],
            "m.ll",
            text.as_slice(),
        )?;
        assert_eq!(rt; left.status, status);
        assert_eq!(rt; left.out.bytes().is_empty(), status != Status::Done);
    }
    Ok(())
}
