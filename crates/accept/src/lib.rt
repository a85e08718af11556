//! What a source is found to be: its first refusal, or what is made of a source without one.
#![tactic(auto)]

mod bound;
mod building;
mod errors;
mod imaging;
mod judging;
mod labels;
mod laws;
mod need_laws;
mod needing;
mod queues;
mod stalls;
mod static_faults;

pub use building::{AcceptError, Built, build};
pub use laws::{
    accepted_or_refused, accepted_programs_are_alike, accepted_programs_are_faithful,
    images_do_as_they_say, one_first_refusal, one_image, some_image,
};
pub use need_laws::{
    needs_refuse_but_for_room, one_answer_of_needs, proposed_labels_need_least,
    queues_are_too_few_where_no_labels_fit, some_answer_of_needs, too_few_for_all_labels,
};
pub use needing::{NeedLine, needs};
