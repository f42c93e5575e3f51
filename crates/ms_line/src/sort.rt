/// The sort of a line, which decides where it may stand.
#[derive(Clone, Copy, Debug, PartialEq, Eq)]
pub enum Sort {
    /// No token.
    Blank,
    /// A line outside functions: kept, a group, a global variable or a declared function.
    Item,
    Define,
    Close,
    Label,
    Phi,
    Alloca,
    /// Any other instruction.
    Other,
    Term,
}
