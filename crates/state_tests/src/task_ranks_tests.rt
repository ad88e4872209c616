//! Cycles of tasks.
ghost use Rattle.std.specs.List.{list_all};
ghost use Rattle.std.specs.Prelude.{◌≡◌, length, nat_lt, true};
ghost use Rattle.ready_work.specs.Rank.{InRange, lists_of};

use ready_work::first_cycle;
use std::alloc::{AllocError, Global};

fn are_below(numbers: &[u32], bound: usize) -> bool
    ensures { result ≡ list_all (λ number. nat_lt number bound) numbers.now }
{
    numbers.iter().all(|number| (*number as usize) < bound)
}

fn are_all_below(lists: &[Vec<u32>], bound: usize) -> bool
    ensures { result ≡ list_all (λ list. list_all (λ number. nat_lt number bound) list.items) lists.now }
{
    lists.iter().all(|list| are_below(list, bound))
}

fn are_in_range(lists: &[Vec<u32>]) -> bool
    ensures { result ≡ true → InRange (lists_of lists.now) }
{
    are_all_below(lists, lists.len())
}

/// For each task those that it comes after, and the first task without a rank.
type Row = (&'static [&'static [u32]], Option<usize>);

static ROWS: [Row; 7] = [
    (&[], None),
    // A chain, and one the other way round.
    (&[&[], &[0], &[1], &[2]], None),
    (&[&[1], &[2], &[3], &[]], None),
    // Two ways to one task.
    (&[&[1, 2], &[3], &[3], &[]], None),
    // A task after itself, two after each other, and one after a cycle.
    (&[&[], &[1]], Some(1)),
    (&[&[1], &[0]], Some(0)),
    (&[&[], &[0, 3], &[], &[2, 3]], Some(1)),
];

fn lists(alloc: Global, rows: &[&[u32]]) -> Result<Vec<Vec<u32>>, AllocError> {
    let mut lists = Vec::new(alloc);
    for row in rows {
        lists.push(row.to_vec(alloc)?)?;
    }
    Ok(lists)
}

// Whether this is the first task without a rank.
fn is_first(alloc: Global, rows: &[&[u32]], expected: Option<usize>) -> Result<bool, AllocError> {
    let lists = lists(alloc, rows)?;
    Ok(are_in_range(&lists) && first_cycle(alloc, &lists)? == expected)
}

#[test]
fn cycles_are_found_and_their_absence(rt: HostRuntime) -> Result<(), AllocError> {
    for (rows, expected) in &ROWS {
        assert!(rt; is_first(rt.alloc(), rows, *expected)?);
    }
    Ok(())
}
