//! The messages that use each link.
ghost use Rattle.std.specs.Prelude.{◌≡◌, ◌<◌, ◌++◌, [], ◌∷◌, if◌then◌else◌, length, map, filter, replicate, slice_index_or, All, EachIndex, IfOk, OnOk};
ghost use Rattle.cell_types.specs.Groups.{is_one_of, link_ids};
ghost use Rattle.cell_types.specs.Typed.{plain};
ghost use Rattle.queue_plan.specs.bodies.ByLabel.{uses};
ghost use Rattle.sys_base.specs.Paths.{Differ};

use cell_types::Program;
use std::alloc::Global;
use sys_base::{Items, Memory};

/// The messages that use each link, by its id, in the order that is given.
pub(crate) fn users_of(
    alloc: Global,
    program: &Program,
    lengths: &[u32],
    order: &[u16],
) -> Result<Vec<Items<u16>>, Memory>
    requires lengths { length lengths.now ≡ length program.now.messages }
    requires order { All (λ message. message < length program.now.messages) order.now }
    ensures { IfOk result (λ users. users.items
        ≡ map (λ link. filter (uses (plain program.now) lengths.now link) order.now) (link_ids (plain program.now))) }
{
    let mut users = no_users(alloc, program.queues().len())?;
    let messages = program.messages();
    for message in order {
        let index = usize::from(*message);
        let length = lengths[index];
        if length > 0 {
            add_user(&mut users, messages[index].route.as_slice(), *message)?;
        }
    }
    Ok(users)
}

/// So many links that nothing uses.
fn no_users(alloc: Global, links: usize) -> Result<Vec<Items<u16>>, Memory>
    ensures { IfOk result (λ users. users.items ≡ replicate links []) }
{
    let mut users = Vec::new(alloc);
    for _ in 0..links {
        users.push(Items::new(alloc))?;
    }
    Ok(users)
}

/// Adds a message to the users of each link of its route.
fn add_user(users: &mut [Items<u16>], route: &[u16], message: u16) -> Result<(), Memory>
    requires links { All (λ link. link < length users.old) route.now }
    requires differ { Differ route.now }
    ensures { OnOk result (EachIndex users.old (λ link. slice_index_or users.new link []
        ≡ slice_index_or users.old link [] ++ (if is_one_of route.now link then message ∷ [] else []))) }
{
    for link in route {
        let messages = &mut users[usize::from(*link)];
        messages.push(message)?;
    }
    Ok(())
}
