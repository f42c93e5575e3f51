// From the bytes of a file to what is written for them.
ghost use Rattle.std.specs.Prelude.{◌≡◌, ◌≤◌, ℕ, List, [], length};
ghost use Rattle.ms_read.specs.Draft.{IsDraft};
ghost use Rattle.ms_output.specs.Output.{limit, refusal_at, read_refusal, valid_refusal};
ghost use Rattle.ms_output.specs.Told.{Renders, RendersDraft, IsTold, IsToldOf};

use crate::forms::written_for;
use crate::funcs::func_name;
use crate::refusal::Refusal;
use crate::unwritten::Unwritten;
use crate::wanted::Wanted;
use ms_ir::{NoMemory, Text};
use ms_read::{Draft, ReadFault, read_module};
use ms_valid::{ValidFault, accept};
use std::alloc::Global;

// A refusal that tells of no function.
fn plain(alloc: Global, number: u32, place: u32) -> Unwritten
    ensures { result ≡ Unwritten.Refused (record { number = number; place = place }) [] }
{
    Unwritten::Refused {
        refusal: Refusal { number, place },
        func: Text::new(alloc),
    }
}

// The refusal of a function with its name, for its loops.
fn irreducible(alloc: Global, draft: &Draft, f: u32) -> Unwritten
    ensures { IsToldOf draft.now (refusal_at 7 f) result }
{
    match Text::from_bytes(alloc, func_name(draft, f)) {
        Ok(func) => Unwritten::Refused {
            refusal: Refusal {
                number: 7,
                place: f,
            },
            func,
        },
        Err(NoMemory) => Unwritten::Memory,
    }
}

// Why bytes that are not read are refused.
fn unread(alloc: Global, fault: ReadFault) -> Unwritten
    ensures { IsTold (read_refusal fault) result }
{
    match fault {
        ReadFault::Text(line) => plain(alloc, 1, line),
        ReadFault::Limit(line) => plain(alloc, 2, line),
        ReadFault::Memory => Unwritten::Memory,
    }
}

// Why a draft that is not accepted is refused, with the name of a refused function.
fn unaccepted(alloc: Global, draft: &Draft, fault: ValidFault) -> Unwritten
    ensures { IsToldOf draft.now (valid_refusal fault) result }
{
    match fault {
        ValidFault::Name(line) => plain(alloc, 3, line),
        ValidFault::Types(line) => plain(alloc, 4, line),
        ValidFault::Edges(line) => plain(alloc, 5, line),
        ValidFault::Order(line) => plain(alloc, 6, line),
        ValidFault::Irreducible(f) => irreducible(alloc, draft, f.0),
        ValidFault::Memory => Unwritten::Memory,
    }
}

// What is written for the draft of some bytes.
fn render_draft(alloc: Global, wanted: Wanted, draft: &Draft) -> Result<Text, Unwritten>
    requires { (bytes : List ℕ) × IsDraft bytes draft.now }
    ensures { RendersDraft wanted draft.now result }
{
    ms_read::laws::draft_told();
    ms_read::laws::places_told();
    ms_valid::laws::accepted_are_sound();
    let mut module = match accept(alloc, draft) {
        Ok(module) => module,
        Err(fault) => return Err(unaccepted(alloc, draft, fault)),
    };
    match written_for(alloc, wanted, &mut module) {
        Ok(text) => Ok(text),
        Err(NoMemory) => Err(Unwritten::Memory),
    }
}

/// What is written for the bytes of a file, at most 1,048,576 of them: the printed forms of the functions of the module that they are, in
/// its order, each as often as is wanted, and behind them the module's text where that is wanted; else the refusal of the bytes.
/// `Memory` says nothing of them.
///
/// The refusals come in this order: a line that is not of the profile or may not stand where it stands (1), or passes a limit (2),
/// whichever line is first; the least line with a fault in its names (3); in its types (4); in its edges (5); in the order of
/// definitions and uses (6); the first function with an irreducible loop (7).
pub fn render(alloc: Global, wanted: Wanted, bytes: &[u8]) -> Result<Text, Unwritten>
    requires { length bytes.now ≤ limit }
    ensures { Renders wanted bytes.now result }
{
    match read_module(alloc, bytes) {
        Ok(draft) => render_draft(alloc, wanted, &draft),
        Err(fault) => Err(unread(alloc, fault)),
    }
}
