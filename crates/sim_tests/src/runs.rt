//! Arrays take the steps that their schedules pick, and come to their end.
ghost use Rattle.std.specs.Prelude.{◌≡◌};

use crate::images::{chain, no_inputs, shared};
use array_sim::Sim;
use std::test::Fail;
use sys_base::{Actor, Word};

/// Takes some steps, each the first or the last one of those that can be taken, until the array is finished: whether
/// it came so.
fn follows(sim: &mut Sim, steps: &[Actor], last: bool) -> bool
    ensures { sim.new.array.image ≡ sim.old.array.image }
{
    for actor in steps {
        let list = sim.enabled();
        let next = if last { list.last() } else { list.first() };
        let picked = next.copied() == Some(*actor);
        if !picked || sim.finished() || sim.steps() == u32::MAX || !sim.step(*actor) {
            return false;
        }
    }
    sim.finished()
}

#[test]
fn messages_share_a_queue(rt: HostRuntime) -> Result<(), Fail> {
    let alloc = rt.alloc();
    let Some(image) = shared(alloc)? else {
        return Err("no grid".into());
    };
    let mut sim = Sim::new(alloc, &image, no_inputs(alloc, 2)?, 1)?;
    let first = Actor::Cell(0);
    let second = Actor::Cell(1);
    let link = Actor::Bind(1);
    // The first cell can step, and the second one can't.
    assert_eq!(rt; sim.enabled(), [first, link].as_slice());
    assert!(rt; !sim.step(second));
    assert_eq!(rt; sim.steps(), 0);
    let steps = [
        first, link, first, first, second, first, first, second, link, first, second, second,
        second,
    ];
    assert!(rt; follows(&mut sim, &steps, false));
    assert!(rt; sim.enabled().is_empty());
    assert_eq!(rt; sim.steps(), 13);
    assert_eq!(rt; sim.output(1), [Word::Num(3)].as_slice());
    assert_eq!(rt; sim.peak(1), 1);
    Ok(())
}

#[test]
fn words_move_on(rt: HostRuntime) -> Result<(), Fail> {
    let alloc = rt.alloc();
    let Some(image) = chain(alloc)? else {
        return Err("no grid".into());
    };
    let mut sim = Sim::new(alloc, &image, no_inputs(alloc, 3)?, 1)?;
    let send = Actor::Cell(0);
    let get = Actor::Cell(2);
    let on = Actor::Forward(0, 0);
    let steps = [
        Actor::Bind(5),
        Actor::Bind(1),
        get,
        send,
        send,
        send,
        send,
        send,
        on,
        get,
        get,
        get,
        get,
        send,
        send,
        send,
        send,
        send,
        on,
        get,
        get,
        get,
        get,
        send,
        send,
        send,
        send,
        send,
        on,
        get,
        get,
        get,
        get,
        send,
    ];
    assert!(rt; follows(&mut sim, &steps, true));
    assert_eq!(rt; sim.steps(), 34);
    let output = [Word::Num(1), Word::Num(2), Word::Num(3)];
    assert_eq!(rt; sim.output(2), output.as_slice());
    assert_eq!(rt; sim.peak(1), 1);
    assert_eq!(rt; sim.peak(5), 1);
    assert_eq!(rt; sim.peak(0), 0);
    Ok(())
}
