// Where a text stands between two lines.
ghost use Rattle.std.specs.Prelude.{◌≡◌, ◌↔◌, IsTrue};
ghost use Rattle.ms_read.specs.Places.{next_outside, next_begun, next_in_block, next_ended, next_place, is_outside, begins_block, is_inst, plus, AreFew};
ghost use Rattle.ms_read.specs.Places as places;

use ms_line::Sort;

const MAX_FUNCTIONS: u32 = 256;

const MAX_BLOCKS: u32 = 1024;

const MAX_INSTS: u32 = 4096;

/// Between which lines the next one stands.
#[derive(Clone, Copy)]
pub enum Place {
    /// Outside functions.
    Outside,
    /// Behind a define line.
    Begun,
    /// At the front of a block, behind its label line or a phi. The field tells whether it is the function's first.
    Front(bool),
    /// In a block, behind another instruction. The field tells whether it is the function's first.
    Inner(bool),
    /// Behind a terminator.
    Ended,
}

/// How far a text is read: the place of its next line, its functions so far, and the blocks and
/// instructions of the last of them.
#[derive(Clone, Copy)]
pub struct Progress {
    pub place: Place,
    pub functions: u32,
    pub blocks: u32,
    pub insts: u32,
}

fn is_blank(sort: Sort) -> bool
    ensures { result ≡ places.is_blank sort }
{
    match sort {
        Sort::Blank => true,
        _ => false,
    }
}

fn place_outside(sort: Sort) -> Option<Place>
    ensures { result ≡ next_outside sort }
{
    match sort {
        Sort::Item => Some(Place::Outside),
        Sort::Define => Some(Place::Begun),
        _ => None,
    }
}

fn place_in_function(sort: Sort) -> Option<Place>
    ensures { result ≡ next_begun sort }
{
    match sort {
        Sort::Label | Sort::Phi => Some(Place::Front(true)),
        Sort::Alloca | Sort::Other => Some(Place::Inner(true)),
        Sort::Term => Some(Place::Ended),
        _ => None,
    }
}

fn place_in_block(front: bool, first: bool, sort: Sort) -> Option<Place>
    ensures { result ≡ next_in_block front first sort }
{
    match sort {
        Sort::Phi => {
            if front {
                Some(Place::Front(first))
            } else {
                None
            }
        }
        Sort::Alloca => {
            if first {
                Some(Place::Inner(first))
            } else {
                None
            }
        }
        Sort::Other => Some(Place::Inner(first)),
        Sort::Term => Some(Place::Ended),
        _ => None,
    }
}

fn place_behind_block(sort: Sort) -> Option<Place>
    ensures { result ≡ next_ended sort }
{
    match sort {
        Sort::Label => Some(Place::Front(false)),
        Sort::Close => Some(Place::Outside),
        _ => None,
    }
}

fn place_behind(place: Place, sort: Sort) -> Option<Place>
    ensures { result ≡ next_place place sort }
{
    if is_blank(sort) {
        return Some(place);
    }
    match place {
        Place::Outside => place_outside(sort),
        Place::Begun => place_in_function(sort),
        Place::Front(first) => place_in_block(true, first, sort),
        Place::Inner(first) => place_in_block(false, first, sort),
        Place::Ended => place_behind_block(sort),
    }
}

fn is_block_begin(place: Place, sort: Sort) -> bool
    ensures { result ≡ begins_block place sort }
{
    match (place, sort) {
        (_, Sort::Blank) => false,
        (Place::Begun, _) => true,
        (Place::Ended, Sort::Label) => true,
        _ => false,
    }
}

fn is_instruction(sort: Sort) -> bool
    ensures { result ≡ is_inst sort }
{
    match sort {
        Sort::Phi | Sort::Alloca | Sort::Other => true,
        _ => false,
    }
}

impl Progress {
    /// Before the first line.
    pub fn outset() -> Progress
        ensures { result ≡ places.outset }
    {
        Progress {
            place: Place::Outside,
            functions: 0,
            blocks: 0,
            insts: 0,
        }
    }

    /// Whether the next line stands outside functions.
    pub fn is_outside(self) -> bool
        ensures { result ≡ is_outside self.place }
    {
        match self.place {
            Place::Outside => true,
            _ => false,
        }
    }

    /// Whether there are not too many functions, blocks and instructions.
    pub fn are_few(self) -> bool
        ensures { IsTrue result ↔ AreFew self }
    {
        self.functions <= MAX_FUNCTIONS && self.blocks <= MAX_BLOCKS && self.insts <= MAX_INSTS
    }

    // Behind a line of this sort, where it leads to this place.
    fn counted(self, sort: Sort, place: Place) -> Progress
        requires { AreFew self }
        ensures { result ≡ places.counted self sort place }
    {
        match sort {
            Sort::Define => Progress {
                place,
                functions: self.functions + 1,
                blocks: 0,
                insts: 0,
            },
            _ => Progress {
                place,
                functions: self.functions,
                blocks: self.blocks + u32::from(is_block_begin(self.place, sort)),
                insts: self.insts + u32::from(is_instruction(sort)),
            },
        }
    }

    /// Behind a line of this sort. `None` exactly where it may not stand there.
    pub fn behind(self, sort: Sort) -> Option<Progress>
        requires { AreFew self }
        ensures { result ≡ places.behind self sort }
    {
        match place_behind(self.place, sort) {
            Some(place) => Some(self.counted(sort, place)),
            None => None,
        }
    }
}
