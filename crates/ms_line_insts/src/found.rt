use ms_grammar::RawInst;

/// What is found of an instruction: all of it, or that its bytes, its length or its offset pass a
/// limit, with whether it is an alloca. Names are not measured.
#[derive(Drop)]
pub enum FoundInst {
    Whole(RawInst),
    Past(bool),
}
