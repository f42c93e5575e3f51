// What a function is held with.
use ms_alias::Alias;
use ms_cache::Cache;
use ms_flow::Flow;
use ms_form::Form;
use ms_ir::{Func, Steps};

/// A function and what is told of it: its flow graph, its memory form, the tables of its pointers, and kept answers. `unread` is the counter that a change
/// hands on which counts for no one. It stands at 0, so nothing was read with it.
#[derive(Drop)]
pub struct Parts {
    pub func: Func,
    pub flow: Flow,
    pub form: Form,
    pub alias: Alias,
    pub kept: Cache,
    pub unread: Steps,
}
