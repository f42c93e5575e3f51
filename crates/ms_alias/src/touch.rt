// What instructions read and write.
use crate::loc::Root;
use ms_ir::Arg;

/// So many bytes from an offset of a root on; or all that these arguments of a call lead to, and by the flags the memory that the
/// callee may know besides, and memory that no pointer reaches.
#[derive(Clone, Copy)]
pub enum Touch<'a> {
    Span {
        root: Root,
        from: i64,
        len: u32,
    },
    Call {
        args: &'a [Arg],
        other: bool,
        hidden: bool,
    },
}
