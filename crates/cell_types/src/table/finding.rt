ghost use Rattle.std.specs.Prelude.{◌≡◌};
ghost use Rattle.std.specs.Option.{option_map};
ghost use Rattle.cell_types.specs.bodies.Tables.{named_in, index_named, message_with_name, entry_as_message};

use super::{Entry, MessageTable};
use sys_base::Name;

impl<'a> MessageTable<'a> {
    /// The message with this name; `None` exactly where no message has it.
    pub(crate) fn find(&self, name: &Name) -> Option<Entry>
        ensures index { option_map (λ entry. entry.index) result ≡ index_named (named_in self.now) name.now }
        ensures message { option_map (entry_as_message name.now) result
            ≡ message_with_name (named_in self.now) name.now }
    {
        let index = self.names.place(name)?;
        let ends = self.ends[index];
        Some(Entry {
            index: index as u16,
            from: ends.from,
            to: ends.to,
        })
    }
}
