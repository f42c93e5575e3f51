// What belongs together.
use ms_alias::Alias;
use ms_flow::Flow;
use ms_form::Form;
use ms_ir::Func;

/// A function, its flow graph, its memory form and the tables of its pointers, borrowed together. A call that takes it asks that they are one
/// another's (`IsPointed`).
#[derive(Drop)]
pub struct Pointed<'a> {
    pub func: &'a Func,
    pub flow: &'a Flow,
    pub form: &'a Form,
    pub alias: &'a Alias,
}
