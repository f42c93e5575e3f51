use ms_ir::InstNo;

/// What became of a function: which instruction was put, taken, moved or given another source, if one was, and whether it is a
/// Def; whether only what was kept of the instruction itself is to go; whether the captured allocas are others than before; and
/// whether an edge was cut.
#[derive(Clone, Copy)]
pub struct Change {
    pub inst: Option<InstNo>,
    pub def: bool,
    pub own_only: bool,
    pub captured: bool,
    pub unlinked: bool,
}
