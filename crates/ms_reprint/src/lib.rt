//! An accepted module that is printed within the limits is read and accepted as the same module, and prints the same text (`laws::read_again`): be it read
//! from a text, or changed by edits and passes, so that its numbers of instructions and locals have gaps or stand in another order than the text.
//!
//! `ms_again` says so of items that rows say. Here such items are made for the module: some line of the grammar says each instruction, and its names become
//! the printed ones. They give the function in order (`ms_again::specs::Ordered`), which is sound as the function is (`laws::sound_in_order`); and what is
//! printed is within the limits, or one of them can be told (`laws::within_limits`).
#![tactic(auto)]

pub mod laws;
