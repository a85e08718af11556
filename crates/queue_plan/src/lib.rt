//! The messages that share a link's queues: their groups by label, the queues that a link needs, and the first lack
//! of them.
#![tactic(auto)]

mod grouping;
mod groups;
mod label_group;
mod lack;
mod laws;
mod users;

pub use grouping::group;
pub use groups::Groups;
pub use lack::Lack;
pub use laws::{
    finer_labels_need_no_more, groups_by_link, groups_fit, groups_rise, links_fit_by_need,
    users_are_grouped,
};
