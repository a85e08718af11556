ghost use Rattle.std.specs.Prelude.{◌≡◌, ◌≤◌, ◌<◌, IfOk, vec_len};
ghost use Rattle.std.specs.List.{All};
ghost use Rattle.pair_gen.specs.Pairs.{messages_drawn};

use rand_core::SeedableRng;
use rand_core::utils::NextWord;
use rand_pcg::Lcg64Xsh32;
use std::alloc::Global;
use sys_base::Memory;

/// The messages of the pairs, in order.
pub(crate) fn draw_messages(alloc: Global, seed: u64, pairs: u32) -> Result<Vec<u8>, Memory>
    requires some { 1 ≤ pairs }
    requires most { pairs ≤ 20000 }
    ensures drawn { IfOk result (λ messages. messages.items ≡ messages_drawn seed pairs) }
    ensures count { IfOk result (λ messages. vec_len messages ≡ pairs) }
    ensures known { IfOk result (λ messages. All (λ message. message < 24) messages.items) }
{
    let mut generator = Lcg64Xsh32::seed_from_u64(seed);
    let mut messages = Vec::with_capacity(alloc, pairs as usize)?;
    for pair in 0..pairs {
        let word = generator.next_word();
        messages.push((8 * (3 * pair / pairs) + word % 8) as u8)?;
    }
    Ok(messages)
}
