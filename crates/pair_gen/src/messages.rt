ghost use Rattle.std.specs.Prelude.{◌≡◌, ◌<◌, map, IfOk};
ghost use Rattle.sys_base.specs.Groups.{below};
ghost use Rattle.pair_gen.specs.Generated.{message_decl};

use crate::names::Names;
use crate::square::{MESSAGES, place_of, receiver, sender};
use cell_tree::MessageDecl;
use std::alloc::Global;
use sys_base::{Items, Memory};

/// The declarations of the messages.
#[tactic(auto, using(crate::proofs::Below::map_below_more))]
pub(crate) fn message_declarations(
    alloc: Global,
    names: &Names,
) -> Result<Items<MessageDecl>, Memory>
    ensures { IfOk result (λ messages. messages ≡ map message_decl (below 24)) }
{
    let mut messages = Items::new(alloc);
    for message in 0..MESSAGES {
        messages.push(declaration(alloc, names, message)?)?;
    }
    Ok(messages)
}

fn declaration(alloc: Global, names: &Names, message: u8) -> Result<MessageDecl, Memory>
    requires { message < 24 }
    ensures { IfOk result (λ declared. declared ≡ message_decl message) }
{
    Ok(MessageDecl {
        name: names.message(message)?,
        from: place_of(sender(message)),
        to: place_of(receiver(message)),
        route: Items::new(alloc),
        label: None,
        line: 3 + u32::from(message),
    })
}
