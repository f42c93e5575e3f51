// What belongs together.
use ms_flow::Flow;
use ms_form::Form;
use ms_ir::Func;

/// A function, its flow graph and its memory form, borrowed together. A call that takes it asks that they are one another's (`IsFormed`).
#[derive(Drop)]
pub struct Formed<'a> {
    pub func: &'a Func,
    pub flow: &'a Flow,
    pub form: &'a Form,
}
