// Roots of pointers, and locations in memory.
use ms_ir::{GlobalNo, InstNo, LocalNo};

/// What remains of a pointer after its constant getelementptrs: an argument, an alloca, a select, a phi, a getelementptr with a local
/// among its indices, or a global.
#[derive(Clone, Copy, PartialEq, Eq)]
pub enum Root {
    Local(LocalNo),
    Global(GlobalNo),
}

/// A location in memory: so many bytes from an offset of a root on, or what an instruction reads.
#[derive(Clone, Copy, PartialEq, Eq)]
pub enum Loc {
    Bytes { root: Root, from: i64, len: u32 },
    ReadBy(InstNo),
}
