//! Takes in the sheets of a rope section and the hunks on them: reads a job from standard input, one command a line, and prints what was done.
#![tactic(auto)]

mod file_sheet;
mod report;
mod sheets;
mod store;
mod table;
mod words;
mod work;

use crate::words::Summed;
use crate::work::Handheld;
use job::lines::{Lines, bare_line};
use std::io;
use std::io::Read;

fn main(rt: HostRuntime) -> io::Result<()> {
    let mut job = Vec::new(rt.alloc());
    rt.stdin().read_to_end(&mut job)?;
    let mut handheld = Handheld::new(rt.alloc());
    for line in Lines::of(&job) {
        handheld.do_line(&rt, bare_line(line))?;
    }
    println!(rt; "{}", Summed(handheld.summary()))
}
