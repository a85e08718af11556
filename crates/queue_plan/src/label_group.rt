ghost use Rattle.std.specs.Prelude.{◌≡◌};

use std::marker::Model;
use sys_base::Items;

/// The messages of one label that use a link, by their indices.
#[derive(Debug, Drop)]
pub(crate) struct Group {
    label: u16,
    members: Items<u16>,
}

impl Model for Group {
    ghost use Rattle.std.specs.Prelude.{ℕ, List};
    ghost use Rattle.std.specs.Coded.{codes};

    ghost Value = { ℕ × List ℕ };

    ghost coded = { Prim.hlevel codes };

    ghost view = { λ g. (g.label, g.members) };
}

impl Group {
    /// The group with this label and these members.
    pub(crate) fn new(label: u16, members: Items<u16>) -> Group
        ensures { result ≡ (label, members) }
    {
        Group { label, members }
    }

    /// The label of the messages.
    pub(crate) fn label(&self) -> u16
        ensures { result ≡ self.now.0 }
    {
        self.label
    }

    /// The messages.
    pub(crate) fn members(&self) -> &[u16]
        ensures { result.now ≡ self.now.1 }
    {
        self.members.as_slice()
    }
}
