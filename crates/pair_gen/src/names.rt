ghost use Rattle.std.specs.Prelude.{◌≡◌, ◌<◌, map, IfOk};
ghost use Rattle.sys_base.specs.Groups.{below};
ghost use Rattle.sys_base.specs.Name.{IsName};
ghost use Rattle.pair_gen.specs.Generated.{message_name, variable_name};

use crate::square::MESSAGES;
use std::alloc::Global;
use sys_base::{Items, Memory, Name};

/// The names of a generated source: those of its messages, by their indices, and that of each cell's variable.
#[derive(Drop)]
pub(crate) struct Names {
    messages: Items<Name>,
    variable: Name,
    ghost messages_are: { messages ≡ map message_name (below 24) },
    ghost variable_is: { variable ≡ variable_name },
}

impl Names {
    #[tactic(auto, using(crate::proofs::NamesAre::variable_is_name))]
    pub(crate) fn new(alloc: Global) -> Result<Names, Memory> {
        Ok(Names {
            messages: message_names(alloc)?,
            variable: name(alloc, b"x")?,
        })
    }

    /// The name of a message.
    pub(crate) fn message(&self, message: u8) -> Result<Name, Memory>
        requires { message < 24 }
        ensures { IfOk result (λ name. name ≡ message_name message) }
    {
        self.messages.as_slice()[message as usize].copy()
    }

    /// The name of the variable.
    pub(crate) fn variable(&self) -> Result<Name, Memory>
        ensures { IfOk result (λ name. name ≡ variable_name) }
    {
        self.variable.copy()
    }
}

#[tactic(auto, using(crate::proofs::Below::map_below_more, crate::proofs::NamesAre::message_is_name))]
fn message_names(alloc: Global) -> Result<Items<Name>, Memory>
    ensures { IfOk result (λ names. names ≡ map message_name (below 24)) }
{
    let mut names = Items::new(alloc);
    for message in 0..MESSAGES {
        let text = format!(in alloc; "m{message}")?;
        names.push(name(alloc, text.as_bytes())?)?;
    }
    Ok(names)
}

/// The name with these bytes.
fn name(alloc: Global, bytes: &[u8]) -> Result<Name, Memory>
    requires { IsName bytes.now }
    ensures { IfOk result (λ name. name ≡ bytes.now) }
{
    let Some(name) = Name::new(alloc, bytes)? else {
        unreachable!()
    };
    Ok(name)
}
