ghost use Rattle.std.specs.Prelude.{◌≡◌};
ghost use Rattle.std.specs.Option.{option_map};
ghost use Rattle.job.specs.Orders.{ReadsBack, order, order_of, read_alone, read_word, read_worded};

use crate::command::{Command, Verb};
use crate::names::from_name;
use crate::read::sheets::{read_lines, read_row, read_sheet};
use crate::read::table::{read_enter, read_open, read_withdraw};
use crate::read::words::FrontNamed;

mod numbers;
mod sheets;
mod table;
mod words;

/// What a line of a job asks for, or nothing where it is not understood.
#[tactic(auto, using(crate::proofs::ReadsBack::reads_back))]
pub fn read_command(line: &[u8]) -> Option<Command<'_>>
    ensures answer { option_map order result ≡ order_of line.now }
    ensures law { ReadsBack }
{
    read_alone(line).or_else(|| read_worded(line))
}

/// The commands that are a word alone, or no word: a blank line or a comment.
fn read_alone(line: &[u8]) -> Option<Command<'_>>
    ensures { option_map order result ≡ read_alone line.now }
{
    match line {
        [] | [b'#', ..] => Some(Command::Nothing),
        _ => read_word(line),
    }
}

fn read_word(line: &[u8]) -> Option<Command<'_>>
    ensures { option_map order result ≡ read_word line.now }
{
    match from_name(line)? {
        Verb::Help => Some(Command::Help),
        Verb::Open => Some(Command::Open),
        Verb::Held => Some(Command::Held),
        _ => None,
    }
}

/// The commands that go on behind their first word.
fn read_worded(line: &[u8]) -> Option<Command<'_>>
    ensures { option_map order result ≡ read_worded line.now }
{
    let (verb, rest) = Verb::at_front(line)?;
    match verb {
        Verb::Lines => read_lines(rest),
        Verb::Sheet => read_sheet(rest),
        Verb::Row => read_row(rest),
        Verb::Open => read_open(rest),
        Verb::Enter => read_enter(rest),
        Verb::Withdraw => read_withdraw(rest),
        Verb::Held | Verb::Help => None,
    }
}
