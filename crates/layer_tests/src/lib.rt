//! Tests of the public calls of the layers below `build`, as tables. They stand apart, since a crate with tests is
//! proved twice.
#![tactic(auto)]

#[cfg(test)]
mod base;
#[cfg(test)]
mod labels;
#[cfg(test)]
mod lexing;
#[cfg(test)]
mod outside;
#[cfg(test)]
mod parsing;
#[cfg(test)]
mod routing;
#[cfg(test)]
mod statics;
#[cfg(test)]
mod texts;
