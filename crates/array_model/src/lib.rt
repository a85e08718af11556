//! The array that runs an image: its states, its steps and its runs (`specs/States.antt`, `specs/Steps.antt`,
//! `specs/Runs.antt`), which images are regular (`specs/Regular.antt`), what they mean (`specs/Meaning.antt`), and
//! what holds of every run of them.
#![tactic(auto)]

mod laws;

pub use laws::{
    enabled_actors_are_listed, every_run_keeps_the_meaning, every_state_holds, finished_runs_agree,
    regular_images_are_sure, regular_images_have_one_meaning,
};
