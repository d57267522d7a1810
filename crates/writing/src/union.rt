ghost use Rattle.std.specs.Prelude.{◌≡◌, ℕ, ◌≤◌, List, [], ◌∷◌, ◌++◌};
ghost use Rattle.rules.specs.Hunks.{side_lines};
ghost use Rattle.rules.specs.Endings.{ending_of, or_newline};
ghost use Rattle.rules.specs.Pieces.{ours, theirs};
ghost use Rattle.rules.specs.Steps.{close, each};
ghost use Rattle.rules.specs.Unions.{back_close, both_steps, union_steps};
ghost use Rattle.writing.specs.Sides.{Readables, lists_lent};
ghost use Rattle.writing.specs.States.{HasRoom, Wrote};

use crate::pen::Pen;
use crate::sides::Sides;
use reading::ending::detect_line_ending;
use reading::three::ThreeSheets;
use rules::ending::Ending;
use rules::hunk::Hunk;
use sink::piece::Kind;
use sink::sink::Sink;

/// The line ending that hunks show, or newline.
fn shown_ending<T: ThreeSheets>(three: &T, hunks: &[Hunk]) -> Ending
    ensures { result ≡ or_newline (ending_of (T.sheets three.now) hunks.now) }
{
    detect_line_ending(three, hunks).unwrap_or(Ending::Newline)
}

impl<'a, S: Sink> Pen<'a, S> {
    /// Writes what is left of ours, then of theirs, if either has a line, and closes an open line ahead of each.
    fn both<T: ThreeSheets>(&mut self, three: &T, sides: Sides<'_>)
        requires readable { Readables (T.sheets three.now) (lists_lent sides) }
        requires room { HasRoom S.Sink self.old (both_steps (T.sheets three.now) sides.front.now sides.left.now sides.right.now) }
        ensures { Wrote S.Sink self.old self.new (both_steps (T.sheets three.now) sides.entry.front.now sides.entry.left.now sides.entry.right.now) }
    {
        if sides.any_line_left(three) {
            self.close_line(shown_ending(three, sides.front));
            self.hunks(three, sides.left, Kind::Ours);
            self.close_line(shown_ending(three, sides.left));
            self.hunks(three, sides.right, Kind::Theirs);
        }
    }

    /// Closes an open line ahead of back, if there is a back.
    fn close_ahead<T: ThreeSheets>(&mut self, three: &T, right: &[Hunk], back: &[Hunk])
        requires { HasRoom S.Sink self.old (back_close (T.sheets three.now) right.now back.now) }
        ensures { Wrote S.Sink self.old self.new (back_close (T.sheets three.now) right.now back.now) }
    {
        if !back.is_empty() {
            self.close_line(shown_ending(three, right));
        }
    }

    /// Writes a group under Union: front, both sides, back.
    pub fn union<T: ThreeSheets>(&mut self, three: &T, sides: Sides<'_>)
        requires readable { Readables (T.sheets three.now) (lists_lent sides) }
        requires room { HasRoom S.Sink self.old (union_steps (T.sheets three.now) (lists_lent sides)) }
        ensures { Wrote S.Sink self.old self.new (union_steps (T.sheets three.now) (lists_lent sides.entry)) }
    {
        self.hunks(three, sides.front, Kind::Common);
        self.both(three, sides);
        self.close_ahead(three, sides.right, sides.back);
        self.hunks(three, sides.back, Kind::Common);
    }
}
