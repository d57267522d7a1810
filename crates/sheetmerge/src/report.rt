//! What is printed for a command: the command itself, and a refusal by its number.
use job::command::Command;
use job::escape::Shown;
use job::outcome::Outcome;
use job::spell::{Spell, put};
use rules::refusal::Refusal;
use std::fmt::Display;
use std::io;
use std::io::Write;

/// Prints a command as it was read, and a colon.
pub fn echo(rt: &HostRuntime, command: Command<'_>) -> io::Result<()> {
    say(rt, &command, b": ")
}

/// Prints bytes so that a terminal can show them, and ends the line.
pub fn show_line(rt: &HostRuntime, bytes: &[u8]) -> io::Result<()> {
    say(rt, &Shown(bytes), b"\n")
}

/// Prints what spells itself, and what ends it.
pub fn say<S: Spell>(rt: &HostRuntime, what: &S, end: &[u8]) -> io::Result<()> {
    let mut report = Vec::new(rt.alloc());
    what.spell(&mut report)?;
    put(&mut report, end)?;
    rt.stdout().write_all(&report)
}

/// Prints what a call answered, or why it is refused.
pub fn tell<A: Display + Drop, R: Refusal + Display>(
    rt: &HostRuntime,
    answer: Result<A, R>,
) -> io::Result<Outcome> {
    match answer {
        Ok(answer) => {
            println!(rt; "{answer}")?;
            Ok(Outcome::Done)
        }
        Err(refusal) => {
            let number = refusal.number();
            let layer = refusal.layer();
            let place = refusal.place();
            println!(rt; "refused {number} ({layer}), place {place}: {refusal}")?;
            Ok(Outcome::Refused)
        }
    }
}

/// Prints why a command came to nothing before a call.
pub fn fail(rt: &HostRuntime, why: &str) -> io::Result<Outcome> {
    println!(rt; "failed, {why}")?;
    Ok(Outcome::Failed)
}
