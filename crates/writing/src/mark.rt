ghost use Rattle.std.specs.Prelude.{◌≡◌, ℕ, ◌≤◌, replicate};
ghost use Rattle.std.specs.Option.{option_map};
ghost use Rattle.rules.specs.Limits.{max_marker_size};
ghost use Rattle.rules.specs.Markers.{label_steps, marker_steps};
ghost use Rattle.writing.specs.Marks.{mark_byte};
ghost use Rattle.writing.specs.States.{HasRoom, Wrote};

use crate::ending::ending_bytes;
use crate::pen::Pen;
use rules::ending::Ending;
use rules::limits::MAX_MARKER_SIZE;
use sink::piece::Piece;
use sink::sink::Sink;

/// The four markers of a block.
#[derive(Clone, Copy)]
pub enum Mark {
    Ours,
    Base,
    Middle,
    Theirs,
}

impl Mark {
    /// The marker's character as often as the largest marker has it.
    fn run(self) -> &'static [u8; MAX_MARKER_SIZE as usize]
        ensures { result.now ≡ replicate max_marker_size (mark_byte self) }
    {
        // Stays: an array that is borrowed for good needs its byte where it stands, so each mark has an arm.
        match self {
            Mark::Ours => &[b'<'; MAX_MARKER_SIZE as usize],
            Mark::Base => &[b'|'; MAX_MARKER_SIZE as usize],
            Mark::Middle => &[b'='; MAX_MARKER_SIZE as usize],
            Mark::Theirs => &[b'>'; MAX_MARKER_SIZE as usize],
        }
    }
}

impl<'a, S: Sink> Pen<'a, S> {
    /// Writes a marker line: its character so many times, a space and its label if one is given, and its ending. An open line
    /// is closed first.
    pub fn marker(&mut self, mark: Mark, size: u32, label: Option<&[u8]>, ending: Ending)
        requires size { size ≤ max_marker_size }
        requires room { HasRoom S.Sink self.old (marker_steps (mark_byte mark) size (option_map (λ x. x.now) label) ending) }
        ensures { Wrote S.Sink self.old self.new (marker_steps (mark_byte mark) size (option_map (λ x. x.now) label.entry) ending) }
    {
        self.close_line(ending);
        self.piece(Piece::Marker(&mark.run()[..size as usize]));
        self.label(label);
        self.piece(Piece::Marker(ending_bytes(ending)));
    }

    /// Writes a space and the label, if one is given.
    fn label(&mut self, label: Option<&[u8]>)
        requires { HasRoom S.Sink self.old (label_steps (option_map (λ x. x.now) label)) }
        ensures { Wrote S.Sink self.old self.new (label_steps (option_map (λ x. x.now) label.entry)) }
    {
        if let Some(text) = label {
            self.piece(Piece::Marker(b" "));
            self.piece(Piece::Marker(text));
        }
    }
}
