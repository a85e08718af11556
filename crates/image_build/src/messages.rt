ghost use Rattle.std.specs.Prelude.{◌≡◌, ◌<◌, length, slice_index, IfOk};
ghost use Rattle.cell_types.specs.Typed.{plain};
ghost use Rattle.comm_sequence.specs.Sequences.{sequences_of};
ghost use Rattle.program_image.specs.ImageOf.{messages_of};

use cell_code::MessageImage;
use cell_types::{Message, Program};
use comm_sequence::Seqs;
use std::alloc::Global;
use sys_base::{Items, Memory};

/// The images of a program's messages.
pub(crate) fn message_images(
    alloc: Global,
    program: &Program,
    seqs: &Seqs,
    labels: &[u16],
) -> Result<Items<MessageImage>, Memory>
    requires seqs { seqs.now ≡ sequences_of (plain program.now) }
    requires labels { length labels.now ≡ length program.now.messages }
    ensures { IfOk result (λ images. images ≡ messages_of (plain program.now) labels.now) }
{
    let mut images = Items::new(alloc);
    for (index, message) in program.messages().iter().enumerate() {
        images.push(message_image(alloc, message, seqs.length(index as u16), labels[index])?)?;
    }
    Ok(images)
}

/// The image of a message with this length and this label.
fn message_image(
    alloc: Global,
    message: &Message,
    length: u32,
    label: u16,
) -> Result<MessageImage, Memory>
    ensures { IfOk result (λ image. image ≡ record {
      from = message.now.from;
      to = message.now.to;
      length = length;
      label = label;
      route = message.now.route;
    }) }
{
    Ok(MessageImage {
        from: message.from,
        to: message.to,
        length,
        label,
        route: Items::from_slice(alloc, message.route.as_slice())?,
    })
}
