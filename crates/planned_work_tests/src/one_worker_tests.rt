//! A plan on one worker: the history is what the rules owe, the lowest first.
use crate::driving::{closed, goes_alone, open};
use crate::found::Found;
use crate::plans::{three_tasks, without_actions};
use lock_transforms::Kind;
use planned_work::{PlanRefusal, WorkPlan};
use std::alloc::{AllocError, Global};

// Whether one worker comes to the end of the plan, by entries of these kinds.
fn makes(
    alloc: Global,
    plan: Result<WorkPlan, PlanRefusal>,
    faulty: Option<u32>,
    kinds: &[Kind],
) -> Result<bool, AllocError> {
    let mut workers = open(alloc, plan, 2, 1)?;
    Ok(goes_alone(&mut workers, faulty, &Found::Kinds(kinds)))
}

#[test]
fn all_pass(rt: HostRuntime) -> Result<(), AllocError> {
    let kinds = [
        Kind::Start(0),
        Kind::Block(Some(0)),
        Kind::Unblock(Some(closed(0, None))),
        Kind::Submit(0),
        Kind::Park(0),
        Kind::Claim(1),
        Kind::Close(closed(1, None)),
        Kind::Claim(2),
        Kind::Close(closed(2, None)),
        Kind::Resume(0),
        Kind::End(0),
        Kind::Start(1),
        Kind::Submit(1),
        Kind::Park(1),
        Kind::Claim(3),
        Kind::Close(closed(3, None)),
        Kind::Resume(1),
        Kind::Submit(2),
        Kind::Park(2),
        Kind::Claim(4),
        Kind::Close(closed(4, None)),
        Kind::Resume(2),
        Kind::End(1),
        Kind::Start(2),
        Kind::Submit(3),
        Kind::Park(3),
        Kind::Claim(5),
        Kind::Close(closed(5, None)),
        Kind::Resume(3),
        Kind::End(2),
    ];
    let makes = makes(rt.alloc(), three_tasks(rt.alloc()), None, &kinds)?;
    assert!(rt; makes);
    Ok(())
}

#[test]
fn one_fails_and_what_comes_after_is_skipped(rt: HostRuntime) -> Result<(), AllocError> {
    let faulty = Some(3);
    let kinds = [
        Kind::Start(0),
        Kind::Block(Some(0)),
        Kind::Unblock(Some(closed(0, None))),
        Kind::Submit(0),
        Kind::Park(0),
        Kind::Claim(1),
        Kind::Close(closed(1, None)),
        Kind::Claim(2),
        Kind::Close(closed(2, None)),
        Kind::Resume(0),
        Kind::End(0),
        Kind::Start(1),
        Kind::Submit(1),
        Kind::Park(1),
        Kind::Claim(3),
        Kind::Close(closed(3, faulty)),
        Kind::Resume(1),
        Kind::End(1),
        Kind::Skip(2),
    ];
    let makes = makes(rt.alloc(), three_tasks(rt.alloc()), faulty, &kinds)?;
    assert!(rt; makes);
    Ok(())
}

#[test]
fn a_fetch_that_fails_lets_its_items_run(rt: HostRuntime) -> Result<(), AllocError> {
    let faulty = Some(0);
    let kinds = [
        Kind::Start(0),
        Kind::Block(Some(0)),
        Kind::Unblock(Some(closed(0, faulty))),
        Kind::Submit(0),
        Kind::Park(0),
        Kind::Claim(1),
        Kind::Close(closed(1, None)),
        Kind::Claim(2),
        Kind::Close(closed(2, None)),
        Kind::Resume(0),
        Kind::End(0),
        Kind::Skip(1),
        Kind::Skip(2),
    ];
    let makes = makes(rt.alloc(), three_tasks(rt.alloc()), faulty, &kinds)?;
    assert!(rt; makes);
    Ok(())
}

#[test]
fn tasks_without_actions_pass(rt: HostRuntime) -> Result<(), AllocError> {
    let kinds = [Kind::Start(0), Kind::End(0), Kind::Start(1), Kind::End(1)];
    let makes = makes(rt.alloc(), without_actions(rt.alloc()), None, &kinds)?;
    assert!(rt; makes);
    Ok(())
}
