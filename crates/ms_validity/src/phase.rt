/// What is looked for in a module's functions once its names are known, in this order.
#[derive(Clone, Copy, PartialEq, Eq)]
pub enum Phase {
    Types,
    Edges,
    Order,
}
