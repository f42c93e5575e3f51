//! Tests of functions: instructions and blocks, flow graphs, memory forms, the search in them, edits of them, pointers, clobbers, values in
//! runs. They stand apart, since a crate with tests is proved twice.
#![tactic(auto)]

#[cfg(test)]
mod build;
#[cfg(test)]
mod climb;
#[cfg(test)]
mod flow;
#[cfg(test)]
mod form;
#[cfg(test)]
mod functions;
#[cfg(test)]
mod graph;
#[cfg(test)]
mod modules;
#[cfg(test)]
mod pointers;
#[cfg(test)]
mod starting;
#[cfg(test)]
mod update;
#[cfg(test)]
mod values;
