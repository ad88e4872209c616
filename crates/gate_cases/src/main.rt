//! Makes the calls of the program that case files list, and prints what each answered and wrote.
//!
//! The words after the program's name are the names of case files. A line `=== NAME` begins a case, and a line
//! that begins with `--- ` a section of it. What stands before the first case of a file belongs to each of them.
//! `case_files` says what the sections mean.
#![tactic(auto)]

mod answers;
mod calls;
mod rows;
mod watches;

use crate::answers::run_once;
use crate::rows::run_each;
use anyhow::Result;
use case_files::{Case, case_of, sections_of};
use std::sync::Wait;
use std::thread::Threads;
use std::{env, fs};

// Makes the calls of a case, and prints what they answered.
fn run_case<T: Threads + Wait + Sync>(rt: &HostRuntime, threads: &T, case: &Case) -> Result<()> {
    match case.each {
        Some(each) => run_each(rt, threads, case, each),
        None => run_once(rt, threads, case),
    }
}

// Makes the calls of a case that has a part of a case file, besides the part that all cases have.
fn run_part<T: Threads + Wait + Sync>(
    rt: &HostRuntime,
    threads: &T,
    shared: &str,
    part: &str,
) -> Result<()> {
    println!(rt; "=== {}", part.lines().next().unwrap_or(""))?;
    let sections = sections_of(rt.alloc(), shared, part)?;
    let case = case_of(rt.alloc(), &sections)?;
    let ran = run_case(rt, threads, &case);
    drop(case);
    ran
}

// Makes the calls of a case file, in order.
fn run_text<T: Threads + Wait + Sync>(rt: &HostRuntime, threads: &T, text: &str) -> Result<()> {
    let mut parts = text.split("\n=== ");
    let shared = parts.next().unwrap_or("");
    for part in parts {
        run_part(rt, threads, shared, part)?;
    }
    Ok(())
}

// Makes the calls of the case file of this name.
fn run_file<T: Threads + Wait + Sync>(rt: &HostRuntime, threads: &T, name: &str) -> Result<()> {
    let text = fs::read_to_string(rt, name)?;
    run_text(rt, threads, text.as_str())
}

fn main(rt: HostRuntime) -> Result<()> {
    for name in env::args(&rt)?.skip(1) {
        run_file(&rt, &rt, name.as_str())?;
    }
    Ok(())
}
