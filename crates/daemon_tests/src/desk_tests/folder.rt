//! Children of a real folder.
use super::ask_twice;
use crate::asked::{Asked, PLAIN};
use crate::lines::check;
use daemon_desk::FolderDesk;
use file_access::{DeskFail, Files, Read};
use item_actions::{KeepAlive, Text};
use std::alloc::{AllocError, Global};
use std::process::{Processes, SystemProcess};
use std::{fs, io, rt};

// It replies from the file that its argument names, and from the one that a variable names. Then it keeps what comes until
// its input ends.
const SCRIPT: &[u8] = b"cat \"$1\"\ncat \"$BYTES\"\nexec cat > daemon_desk_came\n";

// What stands in each file at first.
static FILES: [(&str, &[u8]); 4] = [
    ("worker", SCRIPT),
    (
        "daemon_desk_lines",
        b"\x12\0\0\0\x0e\0\0\0\0\x01\x01\0\0\0\0\0\0\0\x03",
    ),
    (
        "daemon_desk_bytes",
        b"\x12\0\0\0\x0e\0\0\0\x01\x01\x01\0\0\0\0\0\0\0\x0e",
    ),
    // The replies of both, in version 1.
    (
        "daemon_desk_before",
        b"\x02\0\0\0\x0d\0\0\0\0\x01\0\0\0\0\0\0\0\x03\x02\0\0\0\x0d\0\0\0\x01\x01\0\0\0\0\0\0\0\x0e",
    ),
];

// The requests of units 0 and 1, and Stop.
const CAME: &[u8] =
    b"\x11\0\0\0\x0d\0\0\0\0\x01\x01\0\x05a.txt\x11\0\0\0\x0d\0\0\0\x01\x01\x03\0\x05a.txt\x03\0\0\0\0";

fn write_files(rt: &HostRuntime) -> io::Result<()> {
    for (name, bytes) in &FILES {
        fs::write(rt, *name, *bytes)?;
    }
    Ok(())
}

fn remove_files(rt: &HostRuntime) -> io::Result<()> {
    for (name, _) in &FILES {
        fs::remove_file(rt, *name)?;
    }
    fs::remove_file(rt, "daemon_desk_came")
}

// What the desk gets of a child for what is asked, and how many of its calls failed.
fn ask_and_count<R: rt::Files + Processes<Started = SystemProcess>>(
    alloc: Global,
    desk: &mut FolderDesk<&R>,
    asked: &Asked,
    line: &mut String,
) -> Result<(), AllocError> {
    ask_twice(alloc, desk, asked, Some(asked.keep), line)?;
    write!(line, "{} failed", desk.count())
}

// What a desk whose own program is `program` gets of a child for what is asked, and how many of its calls failed. Whether a
// request can still be sent to a child that ended isn't known, so both steps have one name here.
fn seen<R: rt::Files + Processes<Started = SystemProcess>>(
    rt: &R,
    alloc: Global,
    program: &str,
    asked: &Asked,
) -> Result<String, AllocError> {
    let program = Text::from_str(alloc, program)?;
    let mut desk = FolderDesk::new(rt, alloc, program);
    let mut line = String::new(alloc);
    let asked = ask_and_count(alloc, &mut desk, asked, &mut line);
    drop(desk);
    asked?;
    line.as_str().replace(alloc, "send", "receive")
}

// Whether each frame came once to the child that ended last.
fn has_come(rt: &HostRuntime) -> io::Result<bool> {
    let came = fs::read(rt, "daemon_desk_came")?;
    Ok(came.as_slice() == CAME)
}

const OWN: Asked = Asked {
    args: &["daemon_desk_lines"],
    variables: &[("BYTES", "daemon_desk_bytes")],
    ..PLAIN
};

const NAMED: Asked = Asked {
    program: "sh",
    ..OWN
};

// It answers in version 1, whatever it is asked.
const BEFORE: Asked = Asked {
    args: &["daemon_desk_before"],
    variables: &[("BYTES", "daemon_desk_none")],
    ..NAMED
};

const MISSING: Asked = Asked {
    program: "daemon_desk_none",
    ..PLAIN
};

const ENDS: Asked = Asked {
    program: "true",
    ..PLAIN
};

/// The program of a desk, what is asked, what comes of it, and whether each frame came once to the child that ended last.
static CHILDREN: [(&str, Asked, &str, bool); 5] = [
    ("daemon_desk_none", NAMED, "3. 14. 0 failed", true),
    ("sh", OWN, "3. 14. 0 failed", false),
    (
        "daemon_desk_none",
        BEFORE,
        "receive failed. receive failed. 2 failed",
        false,
    ),
    // A missing program and a child that ends are faults.
    ("sh", MISSING, "start failed. 1 failed", false),
    (
        "sh",
        ENDS,
        "receive failed. receive failed. 2 failed",
        false,
    ),
];

#[test]
fn a_child_gets_its_argument_its_variable_and_each_frame_once(rt: HostRuntime) -> io::Result<()> {
    write_files(&rt)?;
    for (program, asked, expected, comes) in &CHILDREN {
        check(&rt, &seen(&rt, rt.alloc(), program, asked)?, expected);
        assert!(rt; !*comes || has_come(&rt)?);
    }
    remove_files(&rt)
}

// What came of a read.
fn word(read: &Result<Read, DeskFail>) -> &'static str {
    match read {
        Ok(Read::NotThere) => "not there",
        Ok(_) => "there",
        Err(DeskFail::Failed) => "a fault",
        Err(DeskFail::NoMemory) => "no memory",
    }
}

// What comes of reading a file of this name, and how many calls failed.
fn add_read<R: rt::Files>(
    alloc: Global,
    desk: &mut FolderDesk<&R>,
    name: &str,
    line: &mut String,
) -> Result<(), AllocError> {
    let name = Text::from_str(alloc, name)?;
    let read = desk.read(alloc, &name, 10);
    let word = word(&read);
    drop(read);
    write!(line, "{word}, {} failed. ", desk.count())
}

// What comes of reading a file that isn't there, and then the folder itself.
fn add_reads<R: rt::Files>(
    alloc: Global,
    desk: &mut FolderDesk<&R>,
    line: &mut String,
) -> Result<(), AllocError> {
    add_read(alloc, desk, "daemon_desk_none", line)?;
    add_read(alloc, desk, ".", line)
}

// What a desk of the folder comes to by these reads.
fn reads<R: rt::Files>(rt: &R, alloc: Global) -> Result<String, AllocError> {
    let program = Text::from_str(alloc, "sh")?;
    let mut desk = FolderDesk::new(rt, alloc, program);
    let mut line = String::new(alloc);
    let added = add_reads(alloc, &mut desk, &mut line);
    drop(desk);
    added?;
    Ok(line)
}

#[test]
fn reads_of_the_folder_are_counted_where_they_fail(rt: HostRuntime) -> Result<(), AllocError> {
    check(
        &rt,
        &reads(&rt, rt.alloc())?,
        "not there, 0 failed. a fault, 1 failed. ",
    );
    Ok(())
}
