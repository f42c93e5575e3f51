use thiserror::Error;

/// Why lines give no module. `Name` has the least line with a fault in its names.
#[derive(Clone, Copy, Debug, PartialEq, Eq, Error)]
pub enum NameFault {
    #[error("line {0}: name")]
    Name(u32),
    #[error("out of memory")]
    Memory,
}
