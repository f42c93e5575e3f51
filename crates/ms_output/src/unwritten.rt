use crate::refusal::Refusal;
use ms_ir::Text;

/// Why nothing is written: the bytes are refused, and `func` is the name of the function that is refused for its loops, else empty; or
/// there was no memory.
#[derive(Drop)]
pub enum Unwritten {
    Refused { refusal: Refusal, func: Text },
    Memory,
}
