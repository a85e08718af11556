ghost use Rattle.std.specs.Prelude.{◌≡◌};
ghost use Rattle.routes.specs.declared.error.RouteError.TheVariants as R;

use std::alloc::{AllocError, AllocFailed};
use thiserror::Error;

/// Why directions are no route: the first thing that is wrong in their walk, or want of memory.
#[derive(Clone, Copy, Debug, PartialEq, Eq, Error)]
pub enum RouteError {
    /// A direction has no link where the walk has come to.
    #[error("the route leaves the grid")]
    LeavesGrid,
    /// The walk goes over a link, by its id, that it has used before.
    #[error("the route uses link {link} twice")]
    LinkTwice { link: u16 },
    /// The walk ends at another cell than the receiver.
    #[error("the route does not end at its receiver")]
    WrongEnd,
    /// Memory ran out, which may happen to any route.
    #[error("out of memory")]
    Memory,
}

impl From<AllocError> for RouteError {
    ghost from_gives = { λ _ e. e ≡ R.Memory };

    fn from(_error: AllocError) -> RouteError {
        RouteError::Memory
    }
}

impl<T: Drop> From<AllocFailed<T>> for RouteError {
    ghost from_gives = { λ _ e. e ≡ R.Memory };

    fn from(_error: AllocFailed<T>) -> RouteError {
        RouteError::Memory
    }
}
