//! Whole histories that were read from their texts, and checked.
use crate::history_reader_tests::text_of;
use file_access::{AheadSource, Source};
use history_check::{Checked, check_input};
use plan_reader::{Plan, read_plan};
use std::alloc::{AllocError, Global};
use std::io::BufReader;
use std::test::Fail;
use whole_histories::{check, read_history};

/// A task with one item.
static PLAN: &[u8] = b"[[project]]\nname = \"p\"\n\n\
    [[task]]\nname = \"t\"\nproject = \"p\"\n\n\
    [[task.action]]\n\n\
    [[task.action.item]]\ndo = \"lines\"\nfile = \"a.txt\"\n";

const PASSED_OVER: &[u8] = b"passed over\n";

const BEHIND: &[u8] = b"!\n";

/// Lines behind a head, and what is answered.
static HISTORIES: [(&[u8], Checked); 4] = [
    (b"end 0\n", Checked::Lawful(0)),
    (
        b"1 w0 start 0 | lock 0, take, task 0 waiting running\n\
        2 w0 submit 0 | action 0 waiting queued, unit 0 waiting queued\n\
        end 2\n",
        Checked::Lawful(2),
    ),
    (
        b"1 w0 end 0 | task 0 running passed, unlock 0, give\n\
        2 w0 start 0 | lock 0, take, task 0 waiting running\n\
        end 2\n",
        Checked::NotLawful(1),
    ),
    (
        b"1 w0 start 0 | lock 0, take, task 0 waiting running\n\
        2 w1 handback | failed\n\
        end 2\n",
        Checked::NotLawful(2),
    ),
];

/// Heads of one worker's histories, and what is answered where two lawful entries stand behind them: the plan's graph has two locks.
static HEADS: [(&[u8], Checked); 4] = [
    (
        b"history 1\nworkers 1 max 1 parallel no\n",
        Checked::Lawful(2),
    ),
    (
        b"history 2\nworkers 1 max 1 parallel no locks 2\n",
        Checked::Lawful(2),
    ),
    (
        b"history 2\nworkers 1 max 1 parallel no locks 1\n",
        Checked::NotLawful(0),
    ),
    (
        b"history 2\nworkers 1 max 1 parallel no locks 3\n",
        Checked::NotLawful(0),
    ),
];

// Whether a history that was read whole has this answer.
fn is_answer(alloc: Global, plan: &Plan, text: &[u8], checked: Checked) -> bool {
    match read_history(alloc, text) {
        Ok(history) => {
            let answer = check(alloc, plan, &history);
            drop(history);
            matches!(answer, Ok(answer) if answer == checked)
        }
        Err(_) => false,
    }
}

// Whether the history of this text is answered so.
fn is_answered(
    alloc: Global,
    plan: &Plan,
    parts: &[&[u8]],
    checked: Checked,
) -> Result<bool, AllocError> {
    let text = text_of(alloc, parts)?;
    Ok(is_answer(alloc, plan, &text, checked))
}

// Whether each list of lines and each head has its answer.
fn are_answered(alloc: Global, plan: &Plan) -> Result<bool, AllocError> {
    for (lines, checked) in &HISTORIES {
        if !is_answered(alloc, plan, &[HEADS[0].0, *lines], *checked)? {
            return Ok(false);
        }
    }
    for (head, checked) in &HEADS {
        if !is_answered(alloc, plan, &[*head, HISTORIES[1].0], *checked)? {
            return Ok(false);
        }
    }
    Ok(true)
}

#[test]
fn whole_histories_and_numbers_of_locks(rt: HostRuntime) -> Result<(), Fail> {
    let plan = read_plan(rt.alloc(), PLAN)?;
    let are_answered = are_answered(rt.alloc(), &plan);
    drop(plan);
    assert!(rt; are_answered?);
    Ok(())
}

// Whether an input has this answer, and is left at the byte behind its end.
fn is_answer_of<S: Source>(alloc: Global, plan: &Plan, input: &mut S, checked: Checked) -> bool {
    let mut next = [0u8; 1];
    matches!(check_input(alloc, plan, input), Ok(answer) if answer == checked)
        && matches!(input.take(&mut next), Ok(1))
        && next == *b"!"
}

// Whether the input has this answer, however many of its bytes are read ahead.
fn is_answer_ahead(
    alloc: Global,
    plan: &Plan,
    text: &[u8],
    checked: Checked,
) -> Result<bool, Fail> {
    for capacity in 1..80 {
        let reader = BufReader::with_capacity(alloc, capacity, text)?;
        if !is_answer_of(alloc, plan, &mut AheadSource::new(reader), checked) {
            return Ok(false);
        }
    }
    Ok(true)
}

// Whether each history has its answer as an input.
fn are_answered_ahead(alloc: Global, plan: &Plan) -> Result<bool, Fail> {
    for (lines, checked) in &HISTORIES {
        let text = text_of(alloc, &[PASSED_OVER, HEADS[0].0, *lines, BEHIND])?;
        if !is_answer_ahead(alloc, plan, &text, *checked)? {
            return Ok(false);
        }
    }
    Ok(true)
}

#[test]
fn inputs_that_are_read_ahead(rt: HostRuntime) -> Result<(), Fail> {
    let plan = read_plan(rt.alloc(), PLAN)?;
    let are_answered = are_answered_ahead(rt.alloc(), &plan);
    drop(plan);
    assert!(rt; are_answered?);
    Ok(())
}
