//! Scripts as texts: reading them and printing them.
#![tactic(auto)]

mod errors;
mod labels;
pub mod laws;
mod lines;
mod names;
mod numbers;
mod print_lines;
mod print_statement;
mod put;
mod read;
mod resolving;

pub use print_lines::print_script;

#[cfg(test)]
mod tests;

pub use read::read_script;
pub use tk_types::{
    Arg, Body, BodyKind, Boot, Condition, Device, Interrupt, Kind, Label, Operand, Operation,
    Reading, Script, Stmt,
};
