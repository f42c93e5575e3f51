use thiserror::Error;

/// Why a line is not read. `Memory` says nothing of the line.
#[derive(Clone, Copy, Debug, PartialEq, Eq, Error)]
pub enum LineFault {
    /// The line is in no grammar.
    #[error("not of the profile")]
    NotOfProfile,
    /// The line is in the grammar, and a name, alloca, memcpy or offset passes its limit.
    #[error("limit passed")]
    TooLong,
    #[error("out of memory")]
    Memory,
}
