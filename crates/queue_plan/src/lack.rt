ghost use Rattle.std.specs.Prelude.{◌≡◌, ◌≤◌, length, filter_map, slice_get, All};
ghost use Rattle.sys_base.specs.declared.limits.TheConstants.{MESSAGES};
ghost use Rattle.queue_plan.specs.Lacks.{lack_of};

use crate::label_group::Group;

/// A group that has more members than its link has queues (`docs/model.md`, "Groups and queues").
///
/// The ranges are those of what `Groups::lack` gives.
#[derive(Clone, Copy, Debug, PartialEq, Eq)]
pub struct Lack {
    /// The id of the link, below four times the number of cells.
    pub link: u16,
    /// The label of the group.
    pub label: u16,
    /// The number of the group's members, more than `has` and at most 512.
    pub need: u16,
    /// The queues of the link, at most 32 and fewer than `need`.
    pub has: u8,
}

/// What a link lacks for the first of its groups that has more members than the link has queues.
pub(crate) fn first_lack(groups: &[Group], link: u16, queues: u8) -> Option<Lack>
    requires { All (λ group. length group.1 ≤ MESSAGES) groups.now }
    ensures { result ≡ slice_get (filter_map (lack_of link queues) groups.now) 0 }
{
    for group in groups {
        let need = group.members().len() as u16;
        if u16::from(queues) < need {
            return Some(Lack {
                link,
                label: group.label(),
                need,
                has: queues,
            });
        }
    }
    None
}
