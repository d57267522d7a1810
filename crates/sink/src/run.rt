ghost use Rattle.std.specs.Prelude.{◌≡◌, ◌+◌, true, take as first, is_ok, is_err};
ghost use Rattle.rules.specs.Pieces.{made, total};
ghost use Rattle.sink.specs.Pieces.{chunks};
ghost use Rattle.sink.specs.Answers.{counted, fitting, write_answer};
ghost use Rattle.sink.specs.Sinks.{LeavesAlone};

use crate::piece::Piece;
use crate::refusal::{TooLong, Unwritten};
use crate::sink::Sink;
use crate::tally::Tally;

/// Gives the sink one piece after another, up to the first that it refuses, and says how many it took.
pub fn take_all<S: Sink>(sink: &mut S, pieces: &[Piece<'_>]) -> usize
    ensures answer { result ≡ fitting (S.Sink.taken sink.old) (S.Sink.announced sink.old) (chunks pieces.now) }
    ensures value { S.Sink.value sink.new ≡ made S.Sink.rule (S.Sink.value sink.old) (first result (chunks pieces.now)) }
    ensures taken { S.Sink.taken sink.new ≡ S.Sink.taken sink.old + total (first result (chunks pieces.now)) }
    ensures announced { S.Sink.announced sink.new ≡ S.Sink.announced sink.old }
    ensures alone { LeavesAlone S.Sink sink.old sink.new }
    ensures untouched { result ≡ 0 → sink.new ≡ sink.old }
{
    // Stays: `position` would lend the sink to a closure, after which a proof knows nothing of it.
    for (n, p) in pieces.iter().enumerate() {
        if sink.take(*p).is_err() {
            return n;
        }
    }
    pieces.len()
}

// The length of the pieces together, measured over a tally, where it can be counted.
fn length_of(pieces: &[Piece<'_>]) -> Option<usize>
    ensures { result ≡ counted (total (chunks pieces.now)) }
{
    let mut tally = Tally::new();
    let _ = tally.begin(usize::MAX);
    let taken = take_all(&mut tally, pieces);
    (taken == pieces.len()).then_some(tally.count())
}

/// Measures the pieces over a tally, announces their length and gives them all; or refuses and changes nothing.
pub fn write_all<S: Sink>(sink: &mut S, pieces: &[Piece<'_>]) -> Result<(), Unwritten>
    ensures answer { result ≡ write_answer (total (chunks pieces.now)) (S.Sink.capacity sink.old) }
    ensures value { is_ok result ≡ true → S.Sink.value sink.new ≡ made S.Sink.rule (S.Sink.fresh sink.old) (chunks pieces.now) }
    ensures taken { is_ok result ≡ true → S.Sink.taken sink.new ≡ total (chunks pieces.now) }
    ensures announced { is_ok result ≡ true → S.Sink.announced sink.new ≡ total (chunks pieces.now) }
    ensures alone { LeavesAlone S.Sink sink.old sink.new }
    ensures refused { is_err result ≡ true → sink.new ≡ sink.old }
{
    let needed = length_of(pieces).ok_or(Unwritten::Uncountable)?;
    sink.begin(needed).map_err(|TooLong { capacity }| Unwritten::TooLong { needed, capacity })?;
    let _ = take_all(sink, pieces);
    Ok(())
}
