//! Runs of an array whose cells exchange words over shared queues: each is bounded, never stuck before its end, and
//! ends clean, and all mean the same.
#![tactic(auto)]

mod laws;

pub use laws::{
    bound_by_number, enabled_actors_are_listed, every_array_run_ends, every_run_ends,
    every_run_keeps_the_meaning, every_state_holds, groups_are_regular, one_meaning,
    queues_are_slices, routes_use_links_once,
};
