ghost use Rattle.std.specs.Prelude.{◌≡◌, ◌<◌, length, map, IfOk};
ghost use Rattle.cell_types.specs.Groups.{lengths_of};
ghost use Rattle.cell_types.specs.Typed.{plain};
ghost use Rattle.cell_code.specs.Images.{grouped_links};
ghost use Rattle.queue_plan.specs.Grouping.{all_groups, groups_at};
ghost use Rattle.program_image.specs.ImageOf.{group_image, link_image, messages_of};

use cell_code::{Group, LinkImage};
use cell_types::Program;
use program_image::messages_keep_their_parts;
use queue_plan::{Groups, groups_by_link};
use std::alloc::Global;
use sys_base::{Items, Memory};

/// The images of the links that have a group.
pub(crate) fn link_images(
    alloc: Global,
    program: &Program,
    labels: &[u16],
    groups: &Groups,
) -> Result<Items<LinkImage>, Memory>
    requires labels { length labels.now ≡ length program.now.messages }
    requires groups { groups.now ≡ all_groups (plain program.now) labels.now (lengths_of (plain program.now)) }
    ensures { IfOk result (λ links. links ≡ map (link_image (plain program.now))
        (grouped_links program.now.grid (messages_of (plain program.now) labels.now))) }
{
    groups_by_link();
    messages_keep_their_parts();
    let queues = program.queues();
    let mut links = Items::new(alloc);
    for link in 0..queues.len() as u16 {
        let groups = group_images(alloc, groups, link)?;
        if !groups.is_empty() {
            links.push(LinkImage {
                link,
                queues: queues[usize::from(link)],
                groups,
            })?;
        }
    }
    Ok(links)
}

/// The images of a link's groups.
fn group_images(alloc: Global, groups: &Groups, link: u16) -> Result<Items<Group>, Memory>
    requires { link < length groups.now }
    ensures { IfOk result (λ images. images ≡ map group_image (groups_at groups.now link)) }
{
    let mut images = Items::new(alloc);
    let mut place = 0;
    while let Some(label) = groups.label(link, place) {
        let members = Items::from_slice(alloc, groups.members(link, place))?;
        images.push(Group { label, members })?;
        place += 1;
    }
    Ok(images)
}
