ghost use Rattle.std.specs.Prelude.{◌≡◌, ◌≤◌, ◌<◌, ◌↔◌, [], None, length, map, sum_by, slice_get};
ghost use Rattle.std.specs.Option.{option_map, option_map_or};
ghost use Rattle.cell_types.specs.Groups.{greatest};
ghost use Rattle.queue_plan.specs.Grouping.{groups_at, IsGroups};
ghost use Rattle.queue_plan.specs.Lacks.{lacks};

use crate::label_group::Group;
use crate::lack::{Lack, first_lack};
use cell_types::Program;
use std::marker::Model;
use sys_base::Items;

/// The groups of each link: the messages of one label that use the link (`docs/model.md`, "Groups and queues").
///
/// A link is given by its id, which is below four times the number of cells (`docs/model.md`, "The grid"), so at most
/// 1,023. It has at most 512 groups, in rising order of label. A group has 1 to 512 members: messages by their
/// indices, in rising order.
#[derive(Debug, Drop)]
pub struct Groups {
    links: Items<Items<Group>>,
}

impl Model for Groups {
    ghost use Rattle.std.specs.Prelude.{ℕ, List};
    ghost use Rattle.std.specs.Coded.{codes};
    ghost use Rattle.queue_plan.specs.Grouping.{IsGroups};

    ghost Value = { List (List (ℕ × List ℕ)) };

    ghost coded = { Prim.hlevel codes };

    ghost view = { λ g. g.links };

    ghost invariant = { λ g. IsGroups g.links };
}

impl Groups {
    /// The groups of each link.
    pub(crate) fn new(links: Items<Items<Group>>) -> Groups
        requires { IsGroups links }
        ensures { result ≡ links }
    {
        Groups { links }
    }

    /// The groups of a link, by its id.
    fn at(&self, link: u16) -> &[Group]
        ensures groups { result.now ≡ groups_at self.now link }
        ensures kept { IsGroups self.now }
    {
        match self.links.get(usize::from(link)) {
            Some(groups) => groups.as_slice(),
            None => &[],
        }
    }

    /// How many queues a link needs, by its id: the size of its largest group, at most 512. It is 0 exactly where the
    /// link has no group.
    pub fn need(&self, link: u16) -> u16
        requires { link < length self.now }
        ensures need { result ≡ greatest (map (λ group. length group.1) (groups_at self.now link)) }
        ensures kept { IsGroups self.now }
    {
        let mut need = 0;
        for group in self.at(link) {
            need = need.max(group.members().len() as u16);
        }
        need
    }

    /// The first group, by link and then by label, that has more members than its link has queues; `None` exactly
    /// where all groups fit.
    ///
    /// The program is meant to be the one whose groups these are; it has to have as many links.
    pub fn lack(&self, program: &Program) -> Option<Lack>
        requires { length self.now ≡ length program.now.queues }
        ensures lack { result ≡ slice_get (lacks self.now program.now.queues) 0 }
        ensures kept { IsGroups self.now }
    {
        let queues = program.queues();
        for (link, groups) in self.links.as_slice().iter().enumerate() {
            let lack = first_lack(groups.as_slice(), link as u16, queues[link]);
            if lack.is_some() {
                return lack;
            }
        }
        None
    }

    /// The label of a link's group, by the link's id and the group's place there, from 0; `None` exactly where the
    /// link has no more groups.
    pub fn label(&self, link: u16, place: u16) -> Option<u16>
        requires { link < length self.now }
        ensures label { result ≡ option_map (λ group. group.0) (slice_get (groups_at self.now link) place) }
        ensures kept { IsGroups self.now }
    {
        Some(self.at(link).get(usize::from(place))?.label())
    }

    /// The members of a link's group, by the link's id and the group's place there, from 0: messages by their indices,
    /// in rising order. There are none exactly where the link has no more groups.
    pub fn members(&self, link: u16, place: u16) -> &[u16]
        requires { link < length self.now }
        ensures members { result.now
            ≡ option_map_or (λ group. group.1) (slice_get (groups_at self.now link) place) [] }
        ensures empty { (result.now ≡ []) ↔ (slice_get (groups_at self.now link) place ≡ None) }
        ensures kept { IsGroups self.now }
    {
        match self.at(link).get(usize::from(place)) {
            Some(group) => group.members(),
            None => &[],
        }
    }

    /// How many groups all links have, at most 524,288.
    pub fn count(&self) -> u32
        ensures count { result ≡ sum_by length self.now }
        ensures most { result ≤ 524288 }
        ensures kept { IsGroups self.now }
    {
        let mut count = 0;
        for groups in self.links.as_slice() {
            count += groups.len() as u32;
        }
        count
    }
}
