/// Why a module was refused: the number of the refusal, from 1 to 7 or 10, and its place: a line, counted from 1; for 7 the function's
/// number, in the order of the lines that name functions; for 10, a file that is too long, 0.
#[derive(Clone, Copy, Debug, PartialEq, Eq)]
pub struct Refusal {
    pub number: u32,
    pub place: u32,
}
