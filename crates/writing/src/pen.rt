ghost use Rattle.std.specs.Prelude.{◌≡◌, ℕ, ◌≤◌, false, List, [], ◌∷◌, length};
ghost use Rattle.rules.specs.Hunks.{sheet_of, side_lines};
ghost use Rattle.rules.specs.Lines.{between};
ghost use Rattle.rules.specs.Pieces.{common};
ghost use Rattle.rules.specs.Steps.{put, close, each, left_open};
ghost use Rattle.reading.specs.Reading.{AllReadable};
ghost use Rattle.sink.specs.Pieces.{chunk, kind_of};
ghost use Rattle.writing.specs.States.{HasRoom, Wrote};

use crate::ending::ending_bytes;
use reading::hunk::{line_at, read_range};
use reading::three::ThreeSheets;
use rules::ending::Ending;
use rules::hunk::{Hunk, Side, Span};
use sink::piece::{Kind, Piece};
use sink::sink::Sink;

/// What writes into a sink: it remembers whether a line is open.
#[derive(Drop)]
// Stays: the sheets are handed to each call, for as a field of the pen each of the steps that follow one another would have to say again that they are the same.
pub struct Pen<'a, S> {
    sink: &'a mut S,
    ajar: bool,
}

/// Whether a line is open after some bytes.
fn is_open(ajar: bool, bytes: &[u8]) -> bool
    ensures { result ≡ left_open ajar bytes.now }
{
    bytes.last().map_or(ajar, |last| *last != b'\n')
}

impl<'a, S: Sink> Pen<'a, S> {
    /// A pen over a sink, with no line open.
    pub fn new(sink: &'a mut S) -> Pen<'a, S>
        ensures same_sink { result.sink.ghost_name ≡ sink.entry.ghost_name }
        ensures sink { result.sink.now ≡ sink.old }
        ensures closed { result.ajar ≡ false }
    {
        Pen { sink, ajar: false }
    }

    /// A pen over a sink in which a line is open already, or is not.
    pub fn over(sink: &'a mut S, ajar: bool) -> Pen<'a, S>
        ensures same_sink { result.sink.ghost_name ≡ sink.entry.ghost_name }
        ensures sink { result.sink.now ≡ sink.old }
        ensures flag { result.ajar ≡ ajar }
    {
        Pen { sink, ajar }
    }

    /// Whether a line is open.
    pub fn is_ajar(&self) -> bool
        ensures { result ≡ self.now.ajar }
    {
        self.ajar
    }

    /// Writes one piece.
    // Stays: each method names its steps in both clauses: `HasRoom` and `Wrote` are the words, and the steps are what the method is.
    pub fn piece(&mut self, piece: Piece<'_>)
        requires { HasRoom S.Sink self.old (put (chunk piece) ∷ []) }
        ensures { Wrote S.Sink self.old self.new (put (chunk piece.entry) ∷ []) }
    {
        let _ = self.sink.take(piece);
        self.ajar = is_open(self.ajar, piece.bytes());
    }

    /// Writes an ending if a line is open.
    pub fn close_line(&mut self, ending: Ending)
        requires { HasRoom S.Sink self.old (close ending ∷ []) }
        ensures { Wrote S.Sink self.old self.new (close ending ∷ []) }
    {
        if self.ajar {
            let _ = self.sink.take(Piece::Ending(ending_bytes(ending)));
        }
        self.ajar = false;
    }

    /// Writes a range of lines of the sheet that the side names, each as a piece of the kind.
    pub fn lines<T: ThreeSheets>(&mut self, three: &T, side: Side, range: Span, kind: Kind)
        requires within { range.end ≤ length (sheet_of (T.sheets three.now) side) }
        requires room { HasRoom S.Sink self.old (each (kind_of kind) (between (sheet_of (T.sheets three.now) side) range.start range.end)) }
        ensures { Wrote S.Sink self.old self.new (each (kind_of kind) (between (sheet_of (T.sheets three.now) side) range.start range.end)) }
    {
        // Stays: a sheet gives a line by its number.
        for n in range.start..range.end {
            self.piece(Piece::new(kind, line_at(three, side, n)));
        }
    }

    /// Writes the ancestor's lines of a range as common.
    pub fn ancestor<T: ThreeSheets>(&mut self, three: &T, range: Span)
        requires within { range.end ≤ length (T.sheets three.now).ancestor }
        requires room { HasRoom S.Sink self.old (each common (between (T.sheets three.now).ancestor range.start range.end)) }
        ensures { Wrote S.Sink self.old self.new (each common (between (T.sheets three.now).ancestor range.start range.end)) }
    {
        self.lines(three, Side::Ancestor, range, Kind::Common);
    }

    /// Writes the lines of the hunks.
    pub fn hunks<T: ThreeSheets>(&mut self, three: &T, hunks: &[Hunk], kind: Kind)
        requires readable { AllReadable (T.sheets three.now) hunks.now }
        requires room { HasRoom S.Sink self.old (each (kind_of kind) (side_lines (T.sheets three.now) hunks.now)) }
        ensures { Wrote S.Sink self.old self.new (each (kind_of kind) (side_lines (T.sheets three.now) hunks.now)) }
    {
        // Stays: what is read of a hunk is a range of lines, which `lines` writes; a cursor over them all would write the same loop again.
        for hunk in hunks {
            self.lines(three, hunk.side, read_range(*hunk), kind);
        }
    }
}
