//! The queues of small arrays, call by call.
use crate::calls::{Call, all_answer};
use crate::images::{chain, paired, shared, wide};
use link_queues::Fabric;
use std::test::Fail;
use sys_base::Word;

#[test]
fn a_slot_is_freed_and_taken_again(rt: HostRuntime) -> Result<(), Fail> {
    let alloc = rt.alloc();
    let Some(image) = shared(alloc)? else {
        return Err("no grid".into());
    };
    let mut fabric = Fabric::new(alloc, &image, 1)?;
    let calls = [
        Call::CanPush(0, false),
        Call::CanBind(1, true),
        Call::CanBind(0, false),
        Call::Bind(1),
        Call::Slot(0, 0, Some(0)),
        Call::Slot(1, 0, None),
        Call::Push(0, Word::Num(7)),
        Call::CanPush(0, false),
        Call::Held(1, 1),
        Call::Pop(0, Word::Num(7)),
        Call::CanBind(1, false),
        Call::Push(0, Word::Num(8)),
        Call::CanBind(1, false),
        Call::Pop(0, Word::Num(8)),
        Call::Slot(0, 0, None),
        Call::Slot(1, 0, None),
        Call::CanPush(0, false),
        Call::Bind(1),
        Call::Slot(1, 0, Some(0)),
        Call::CanBind(1, false),
    ];
    assert!(rt; all_answer(&mut fabric, &image, &calls));
    Ok(())
}

#[test]
fn words_move_on(rt: HostRuntime) -> Result<(), Fail> {
    let alloc = rt.alloc();
    let Some(image) = chain(alloc)? else {
        return Err("no grid".into());
    };
    let mut fabric = Fabric::new(alloc, &image, 2)?;
    let calls = [
        Call::Bind(1),
        Call::Slot(0, 0, Some(0)),
        Call::Slot(1, 0, Some(1)),
        Call::Push(0, Word::Num(7)),
        Call::Push(0, Word::Num(8)),
        Call::Push(1, Word::Num(9)),
        Call::Held(1, 3),
        Call::CanForward(0, 0, false),
        Call::Bind(5),
        Call::CanForward(0, 1, false),
        Call::Forward(0, 0),
        Call::Slot(0, 0, Some(0)),
        Call::Forward(0, 0),
        Call::Slot(0, 0, None),
        Call::CanForward(0, 0, false),
        Call::Held(1, 1),
        Call::Held(5, 2),
        Call::Pop(0, Word::Num(7)),
        Call::Pop(0, Word::Num(8)),
        Call::CanPop(0, false),
        Call::Slot(0, 1, None),
        Call::Pop(1, Word::Num(9)),
    ];
    assert!(rt; all_answer(&mut fabric, &image, &calls));
    Ok(())
}

#[test]
fn members_are_bound_at_once(rt: HostRuntime) -> Result<(), Fail> {
    let alloc = rt.alloc();
    let Some(image) = paired(alloc)? else {
        return Err("no grid".into());
    };
    let mut fabric = Fabric::new(alloc, &image, 1)?;
    let calls = [
        Call::Bind(1),
        Call::Slot(0, 0, Some(0)),
        Call::Slot(1, 0, Some(1)),
        Call::CanBind(1, false),
        Call::Held(1, 0),
        Call::Bind(5),
        Call::Slot(2, 0, Some(0)),
        Call::Slot(3, 0, Some(1)),
        Call::Push(1, Word::Num(1)),
        Call::CanPush(1, false),
        Call::Push(0, Word::Num(5)),
        Call::Held(1, 2),
        Call::Held(5, 0),
        Call::Pop(1, Word::Num(1)),
        Call::Push(1, Word::Num(0)),
        Call::Pop(0, Word::Num(5)),
        Call::Pop(1, Word::Num(0)),
        Call::Held(1, 0),
    ];
    assert!(rt; all_answer(&mut fabric, &image, &calls));
    Ok(())
}

#[test]
fn a_link_has_32_queues(rt: HostRuntime) -> Result<(), Fail> {
    let alloc = rt.alloc();
    let Some(image) = wide(alloc)? else {
        return Err("no grid".into());
    };
    let mut fabric = Fabric::new(alloc, &image, 1)?;
    let calls = [
        Call::Bind(1),
        Call::Slot(0, 0, Some(0)),
        Call::Slot(19, 0, Some(19)),
        Call::Slot(31, 0, Some(31)),
        Call::Slot(32, 0, None),
        Call::CanBind(1, false),
        Call::Push(31, Word::Num(1)),
        Call::Push(19, Word::Num(2)),
        Call::Held(1, 2),
        Call::Pop(19, Word::Num(2)),
        Call::Slot(19, 0, None),
        Call::Bind(1),
        Call::Slot(32, 0, Some(19)),
        Call::Push(32, Word::Num(3)),
        Call::Pop(31, Word::Num(1)),
        Call::Pop(32, Word::Num(3)),
        Call::Held(1, 0),
    ];
    assert!(rt; all_answer(&mut fabric, &image, &calls));
    Ok(())
}
