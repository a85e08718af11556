//! The route of a message: the links that its directions walk over, or the first fault of the walk.
#![tactic(auto)]

mod defaults;
mod error;
mod laws;
mod route;
mod walk;

pub use error::RouteError;
pub use laws::{one_route, path_bounds, route_lengths};
pub use route::route_of;
