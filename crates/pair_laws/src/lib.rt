//! What holds of the sources of generated pairs: their texts are accepted.
#![tactic(auto)]

mod laws;

pub use laws::{generated_sources_are_accepted, pairs_are_an_order};
