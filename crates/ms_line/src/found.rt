use crate::sort::Sort;
use ms_grammar::Line;

// What tokens say: a line as it is written, or that it passes a limit which is not one of names.
#[derive(Drop)]
pub enum Said {
    Whole(Line),
    Past(Sort),
}
