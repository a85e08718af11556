ghost use Rattle.std.specs.Prelude.{◌≡◌, ◌<◌, ◌≤◌, ◌*◌, ◌^◌, ℕ, pred, ◌++◌, IfOk, OnOk, length, flat_map, map};
ghost use Rattle.sys_base.specs.Groups.{below};
ghost use Rattle.sys_base.specs.declared.actor.Actor.TheVariants as A;
ghost use Rattle.cell_code.specs.Images.{IsShaped};
ghost use Rattle.cell_code.specs.Marks.{hops};
ghost use Rattle.array_model.specs.States.{cells};
ghost use Rattle.array_sim.specs.bodies.Inside.{scanned};

use cell_code::{Image, LinkImage};
use std::alloc::Global;
use sys_base::{Actor, Memory};

/// The actors that may be enabled at some time, in order: the cells, the forwards, and the links that have a group.
pub(crate) fn actors_of(alloc: Global, image: &Image) -> Result<Vec<Actor>, Memory>
    requires { IsShaped image.now }
    ensures { IfOk result (λ actors. actors.items ≡ scanned image.now) }
{
    let mut actors = Vec::new(alloc);
    add_cells(&mut actors, image.grid.cells())?;
    add_forwards(&mut actors, image)?;
    add_links(&mut actors, image.links.as_slice())?;
    Ok(actors)
}

/// Adds the cells below a number.
fn add_cells(actors: &mut Vec<Actor>, count: u16) -> Result<(), Memory>
    ensures { OnOk result (actors.new.items ≡ actors.old.items ++ map A.Cell (below count)) }
{
    for cell in 0..count {
        actors.push(Actor::Cell(cell))?;
    }
    Ok(())
}

/// Adds the forwards of each message: one from each hop but the last one.
fn add_forwards(actors: &mut Vec<Actor>, image: &Image) -> Result<(), Memory>
    requires shaped { IsShaped image.now }
    requires few_links { 4 * cells image.now ≤ 2 ^ 16 }
    ensures { OnOk result (actors.new.items ≡ actors.old.items
        ++ flat_map (λ m. map (A.Forward m) (below (pred (hops image.now m)))) (below (length image.now.messages))) }
{
    for (index, message) in image.messages.as_slice().iter().enumerate() {
        add_hops(actors, index as u16, message.route.len() - 1)?;
    }
    Ok(())
}

/// Adds the forwards of a message from the hops below a number.
fn add_hops(actors: &mut Vec<Actor>, message: u16, count: usize) -> Result<(), Memory>
    requires { count < 2 ^ 16 }
    ensures { OnOk result (actors.new.items ≡ actors.old.items ++ map (A.Forward message) (below count)) }
{
    for hop in 0..count {
        actors.push(Actor::Forward(message, hop as u16))?;
    }
    Ok(())
}

/// Adds the links.
fn add_links(actors: &mut Vec<Actor>, links: &[LinkImage]) -> Result<(), Memory>
    ensures { OnOk result (actors.new.items ≡ actors.old.items ++ map (λ link. A.Bind link.link) links.now) }
{
    for link in links {
        actors.push(Actor::Bind(link.link))?;
    }
    Ok(())
}
