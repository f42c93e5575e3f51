//! Tables of lines and of modules' texts, as they are read and printed. They stand apart, since a crate with tests is
//! proved twice.
#![tactic(auto)]

#[cfg(test)]
mod attributes;
#[cfg(test)]
mod built;
#[cfg(test)]
mod changed;
#[cfg(test)]
mod clang;
#[cfg(test)]
mod drafts;
#[cfg(test)]
mod forms;
#[cfg(test)]
mod functions;
#[cfg(test)]
mod names;
#[cfg(test)]
mod numbers;
#[cfg(test)]
mod outside;
#[cfg(test)]
mod parts;
#[cfg(test)]
mod printing;
#[cfg(test)]
mod sessions;
#[cfg(test)]
mod sorts;
#[cfg(test)]
mod tokens;
#[cfg(test)]
mod told;
#[cfg(test)]
mod validity;
