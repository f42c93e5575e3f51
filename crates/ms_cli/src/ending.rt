ghost use Rattle.std.specs.Prelude.{◌≡◌, []};

use crate::status::Status;
use ms_ir::Text;
use std::alloc::Global;

// How a run ended, and the name of the function that was refused, where one was.
#[derive(Drop)]
pub struct Ending {
    pub status: Status,
    pub func: Text,
}

// An ending that tells of no function.
pub fn plain(alloc: Global, status: Status) -> Ending
    ensures status { result.status ≡ status }
    ensures func { result.func ≡ [] }
{
    Ending {
        status,
        func: Text::new(alloc),
    }
}
