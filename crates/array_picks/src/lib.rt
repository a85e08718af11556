//! The runs that schedules pick over an image (`specs/Picked.antt`), and those that recorded entries make
//! (`specs/Replays.antt`): there is just one of each.
#![tactic(auto)]

mod laws;

pub use laws::{
    built_in_schedules_never_stop, each_schedule_picks_one_run, entries_make_one_run,
    picked_runs_are_runs, recorded_picks_are_entries, runs_end_finished, runs_replay_themselves,
};
