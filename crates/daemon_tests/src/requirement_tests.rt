//! Tests of `daemon_requirements`.
use crate::asked::{Asked, PLAIN, fields, requirements};
use daemon_requirements::{Linked, PairList, RequirementRefusal, Requirements};
use item_actions::KeepAlive;
use std::alloc::{AllocError, Global};

// Whether a daemon of these requirements covers what is asked for.
fn covers_asked(alloc: Global, daemon: &Requirements, asked: &Asked) -> Result<bool, AllocError> {
    let asked = requirements(alloc, asked)?;
    let covered = daemon.covers(&asked);
    drop(asked);
    Ok(covered)
}

// Whether a daemon for the first covers what the second asks for.
fn covers(alloc: Global, daemon: &Asked, asked: &Asked) -> Result<bool, AllocError> {
    let daemon = requirements(alloc, daemon)?;
    let covered = covers_asked(alloc, &daemon, asked);
    drop(daemon);
    covered
}

const A_1: Asked = Asked {
    heap_mb: 1024,
    properties: &[("a", "1")],
    ..PLAIN
};

const LASTING: Asked = Asked {
    keep: KeepAlive::Daemon,
    ..PLAIN
};

/// What a daemon was started with, what is asked, and whether the daemon covers it.
static COVERS: [(&str, Asked, Asked, bool); 11] = [
    (
        "a smaller heap and the same property",
        A_1,
        Asked {
            properties: &[("a", "1")],
            ..PLAIN
        },
        true,
    ),
    ("a smaller heap and no property", A_1, PLAIN, true),
    ("the same", PLAIN, PLAIN, true),
    (
        "an argument twice",
        Asked {
            args: &["-a", "-b"],
            ..PLAIN
        },
        Asked {
            args: &["-b", "-b"],
            ..PLAIN
        },
        true,
    ),
    (
        "another value of a property",
        A_1,
        Asked {
            properties: &[("a", "2")],
            ..PLAIN
        },
        false,
    ),
    (
        "a larger heap",
        Asked {
            heap_mb: 256,
            ..PLAIN
        },
        PLAIN,
        false,
    ),
    (
        "one argument more",
        Asked {
            args: &["-a"],
            ..PLAIN
        },
        Asked {
            args: &["-a", "-b"],
            ..PLAIN
        },
        false,
    ),
    (
        "another case of the encoding",
        PLAIN,
        Asked {
            encoding: "utf-8",
            ..PLAIN
        },
        false,
    ),
    ("a shorter keep-alive mode", PLAIN, LASTING, false),
    ("a longer keep-alive mode", LASTING, PLAIN, false),
    ("the same longer keep-alive mode", LASTING, LASTING, true),
];

// How fields are refused, if they are.
fn refusal(alloc: Global, asked: &Asked) -> Result<Option<RequirementRefusal>, AllocError> {
    match Requirements::of(fields(alloc, asked)?) {
        Ok(_) => Ok(None),
        Err(refusal) => Ok(Some(refusal)),
    }
}

static REFUSALS: [(Asked, Option<RequirementRefusal>); 5] = [
    (
        Asked {
            heap_mb: 0,
            ..PLAIN
        },
        Some(RequirementRefusal::HeapRange),
    ),
    (
        Asked {
            heap_mb: 65536,
            ..PLAIN
        },
        None,
    ),
    (
        Asked {
            heap_mb: 65537,
            ..PLAIN
        },
        Some(RequirementRefusal::HeapRange),
    ),
    (
        Asked {
            variables: &[("x", "1"), ("y", "1"), ("x", "2")],
            ..PLAIN
        },
        Some(RequirementRefusal::TwiceNamed(PairList::Variables, 2)),
    ),
    (
        Asked {
            variables: &[("x", "1"), ("y", "1"), ("x", "2")],
            properties: &[("x", "1"), ("x", "1")],
            ..PLAIN
        },
        Some(RequirementRefusal::TwiceNamed(PairList::Properties, 1)),
    ),
];

static ONE_OF_EACH: Asked = Asked {
    args: &["-a"],
    variables: &[("x", "1")],
    ..PLAIN
};

// Whether a copy of what is asked covers it, is covered by it and has its heap.
fn copies(alloc: Global, asked: &Asked) -> Result<bool, AllocError> {
    let requirements = requirements(alloc, asked)?;
    let are_same = is_copied(alloc, &requirements);
    drop(requirements);
    are_same
}

fn is_copied(alloc: Global, requirements: &Requirements) -> Result<bool, AllocError> {
    let copy = requirements.copy(alloc)?;
    let is_same = requirements.covers(&copy) && copy.covers(requirements);
    let has_heap = copy.fields().heap_mb == 512;
    drop(copy);
    Ok(is_same && has_heap)
}

/// A link that is nothing but the requirements that it is made for, and whether it is settled.
#[derive(Drop)]
pub(crate) struct Link {
    pub(crate) made_for: Requirements,
    pub(crate) settled: bool,
}

impl Linked for Link {
    ghost requirements = { λ link. link.made_for };

    ghost settled = { λ link. link.settled };

    fn made_for(&self) -> &Requirements {
        &self.made_for
    }
}

/// The heap that a link is made for.
pub(crate) fn heap_of<L: Linked>(link: &L) -> u32 {
    link.made_for().fields().heap_mb
}

// Whether a link tells the heap that it is made for.
fn tells_its_heap(alloc: Global) -> Result<bool, AllocError> {
    let made_for = requirements(alloc, &PLAIN)?;
    let settled = true;
    Ok(heap_of(&Link { made_for, settled }) == 512)
}

#[test]
fn requirements_are_covered_refused_and_copied_as_the_rules_say(
    rt: HostRuntime,
) -> Result<(), AllocError> {
    for (name, daemon, asked, expected) in &COVERS {
        assert!(rt; covers(rt.alloc(), daemon, asked)? == *expected, "{name}");
    }
    for (asked, expected) in &REFUSALS {
        assert!(rt;
            refusal(rt.alloc(), asked)? == *expected,
            "{} MB",
            asked.heap_mb
        );
    }
    assert!(rt; copies(rt.alloc(), &ONE_OF_EACH)? && tells_its_heap(rt.alloc())?);
    Ok(())
}
