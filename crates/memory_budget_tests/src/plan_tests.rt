//! Tests of `run_in_budget` on the items of a plan, which the desk reads first, by its call 0.
ghost use Rattle.std.specs.Prelude.{◌≡◌, IfSome, true};
ghost use Rattle.item_actions.specs.Forms.{is_file_name};
ghost use Rattle.memory_budget.specs.Waiting.{AsksProcess};

use crate::run_tests::{
    Blanks, Came, MemoryBudget, Seat, close, is_what_came, new_lock, run_and_stop, seat_at,
};
use crate::scene_tests::is_second_right;
use daemon_manager::Tally;
use daemon_requirements::{Isolation, Work};
use file_access::{Files, Read};
use item_actions::{MAX_FILE_BYTES, Text, is_file_name};
use memory_budget::{BudgetLedger, SharedBudget};
use memory_desk::{Lie, MemoryDesk, MemoryLink};
use memory_files::{FileEntry, FileMap};
use plan_reader::{Plan, UnitWork, read_plan, units_of};
use std::alloc::Global;
use std::marker::Brand;
use std::process::Abort;
use std::sync::Wait;
use std::sync::ledger::Ledger;
use std::test::Fail;

/// A task of two items, each in a daemon of 512 MB.
static PLAN: &[u8] = b"project = [{ name = \"app\" }]\n\n\
    [[task]]\nname = \"count\"\nproject = \"app\"\n\n\
    [[task.action]]\nwait = \"retain\"\nitem = [\n\
    { do = \"lines\", file = \"a.txt\", isolation = \"process\" },\n\
    { do = \"lines\", file = \"a.txt\", isolation = \"process\" },\n\
    ]\n";

/// Room for one daemon.
const BUDGET_MB: u64 = 512;

/// The call of the desk that receives the first reply, behind the reading of the plan, a start and a request.
const FIRST_REPLY: u64 = 3;

/// What comes in place of the first reply: a Stop, a reply for unit 9, a fault. None is a call that fails.
static ANSWERS: [Option<&[u8]>; 4] = [
    None,
    Some(b"\x03\0\0\0\0"),
    Some(b"\x02\0\0\0\x0d\0\0\0\x09\x01\0\0\0\0\0\0\0\x03"),
    Some(b"\x02\0\0\0\x05\0\0\0\0\x05"),
];

// A file of this name, with these bytes.
fn entry(alloc: Global, name: &str, bytes: &[u8]) -> Result<FileEntry, Fail> {
    let name = Text::from_str(alloc, name)?;
    let bytes = Vec::from_slice(alloc, bytes)?;
    Ok(FileEntry { name, bytes })
}

// A desk with the plan and a.txt, which has 3 lines.
fn desk(alloc: Global, answer: Option<&[u8]>) -> Result<Box<MemoryDesk>, Fail> {
    let mut entries = Vec::new(alloc);
    entries.push(entry(alloc, "plan.toml", PLAN)?)?;
    entries.push(entry(alloc, "a.txt", b"one\ntwo\nthree\n")?)?;
    let mut failing = Vec::new(alloc);
    let mut lies = Vec::new(alloc);
    match answer {
        None => failing.push(FIRST_REPLY)?,
        Some(bytes) => lies.push(Lie {
            call: FIRST_REPLY,
            bytes: Vec::from_slice(alloc, bytes)?,
        })?,
    }
    let desk = MemoryDesk::new(alloc, FileMap::new(entries), failing, lies);
    Ok(Box::new(alloc, desk)?)
}

// The plan, which the desk reads.
fn plan<R: Abort>(rt: &R, alloc: Global, desk: &mut MemoryDesk) -> Result<Plan, Fail> {
    let name = Text::from_str(alloc, "plan.toml")?;
    match desk.read(alloc, &name, MAX_FILE_BYTES) {
        Ok(Read::Bytes(bytes)) => {
            let plan = read_plan(alloc, bytes.as_bytes());
            desk.give_back(bytes);
            Ok(plan?)
        }
        _ => panic!(rt; "the plan wasn't read"),
    }
}

// The work of a unit that is an item in a process.
fn work_of<'a>(unit: &UnitWork<'a>) -> Option<&'a Work>
    ensures process { IfSome result (λ work. AsksProcess work.now.isolation) }
    ensures form { IfSome result (λ work. is_file_name work.now.file ≡ true) }
{
    match *unit {
        UnitWork::Item(work) if is_for_daemon(work) => Some(work),
        _ => None,
    }
}

// Whether the item has the form of an item that runs within a budget.
fn is_for_daemon(work: &Work) -> bool
    ensures process { result ≡ true → AsksProcess work.now.isolation }
    ensures form { result ≡ true → is_file_name work.now.file ≡ true }
{
    matches!(work.isolation, Isolation::Process(_)) && is_file_name(work.file.bytes())
}

/// What comes of the plan's items, by their numbers.
static CAME: [Came; 2] = [Came::Fault, Came::Three];

// Whether the plan's items come to what they have to, one after the other, and no daemon is one too many.
fn all_run<R: Wait + Abort, U: BudgetLedger, F: Ledger>(
    pool: &MemoryBudget<'_, R, U, F>,
    seat: &mut Seat,
    mine: &mut Tally<U, F>,
    units: &[UnitWork<'_>],
) -> bool {
    let mut unit = 0u32;
    for (of_unit, came) in units.iter().zip(&CAME) {
        let Some(work) = work_of(of_unit) else {
            return false;
        };
        let (budgeted, spare_mb) = run_and_stop(pool, seat, mine, unit, work);
        if !is_what_came(&budgeted, *came) || spare_mb.is_some() {
            return false;
        }
        unit = unit.saturating_add(1);
    }
    units.len() == CAME.len()
}

// Whether the first item is a fault whatever comes in place of its reply, and the second is worked out by another daemon.
fn is_second_worked_out<R: Wait + Abort, U: BudgetLedger, F: Ledger>(
    rt: &R,
    alloc: Global,
    answer: Option<&[u8]>,
    blanks: Blanks,
) -> Result<bool, Fail>
    requires budget { BUDGET_MB ≡ U.budget_mb }
    requires reserved { (blanks.reserved.name ≡ U.name) × (blanks.reserved.parts ≡ U.parts) × (U.parts ≡ 2) }
    requires failed { (blanks.failed.name ≡ F.name) × (blanks.failed.parts ≡ F.parts) × (F.parts ≡ 2) }
{
    let mut seat = seat_at(rt, alloc, 0, desk(alloc, answer)?)?;
    let plan = plan(rt, alloc, &mut *seat.desk)?;
    let units = units_of(alloc, &plan)?;
    let (lock, mut tallies) = new_lock::<R, MemoryLink, U, F>(rt, alloc, BUDGET_MB, blanks);
    let mut mine = tallies.split_off();
    let pool = SharedBudget {
        rt,
        alloc,
        pool: &lock,
    };
    let ran = all_run(&pool, &mut seat, &mut mine, &units);
    tallies.merge(mine);
    let events = close(lock, tallies, &mut *seat.desk);
    Ok(ran && seat.desk.count() == 1 && is_second_right(&events))
}

// The same in new ledgers.
fn is_second_counted<R: Wait + Abort>(
    rt: &R,
    alloc: Global,
    answer: Option<&[u8]>,
) -> Result<bool, Fail> {
    let blanks = Blanks::new(2);
    is_second_worked_out::<R, Brand, Brand>(rt, alloc, answer, blanks)
}

#[test]
fn the_items_of_a_plan_run_within_a_budget(rt: HostRuntime) -> Result<(), Fail> {
    for answer in &ANSWERS {
        assert!(rt; is_second_counted(&rt, rt.alloc(), *answer)?);
    }
    Ok(())
}
