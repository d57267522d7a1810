ghost use Rattle.std.specs.Prelude.{◌≡◌};
ghost use Rattle.sink.specs.Pieces.{chunk, chunk_of, kind_of};

/// What a piece is in the rendering: a line of the result, of one of the three sheets in a block, a part of a marker, or a
/// line ending that was put in.
#[derive(Clone, Copy, PartialEq, Eq, Debug)]
pub enum Kind {
    Common,
    Ours,
    Base,
    Theirs,
    Marker,
    Ending,
}

/// A kind together with borrowed bytes: a part of a sheet, a label or a fixed marker run.
#[derive(Clone, Copy)]
pub enum Piece<'a> {
    Common(&'a [u8]),
    Ours(&'a [u8]),
    Base(&'a [u8]),
    Theirs(&'a [u8]),
    Marker(&'a [u8]),
    Ending(&'a [u8]),
}

impl<'a> Piece<'a> {
    /// The piece of a kind that holds these bytes.
    pub fn new(kind: Kind, bytes: &'a [u8]) -> Piece<'a>
        ensures { chunk result ≡ chunk_of kind bytes.now }
    {
        // Stays: (a) a piece is an enum of the six kinds, each with its borrowed bytes, so each kind names its case.
        match kind {
            Kind::Common => Piece::Common(bytes),
            Kind::Ours => Piece::Ours(bytes),
            Kind::Base => Piece::Base(bytes),
            Kind::Theirs => Piece::Theirs(bytes),
            Kind::Marker => Piece::Marker(bytes),
            Kind::Ending => Piece::Ending(bytes),
        }
    }

    /// What the piece is.
    pub fn kind(self) -> Kind
        ensures { kind_of result ≡ (chunk self.entry).kind }
    {
        // Stays: (a) the same, from case to kind.
        match self {
            Piece::Common(_) => Kind::Common,
            Piece::Ours(_) => Kind::Ours,
            Piece::Base(_) => Kind::Base,
            Piece::Theirs(_) => Kind::Theirs,
            Piece::Marker(_) => Kind::Marker,
            Piece::Ending(_) => Kind::Ending,
        }
    }

    /// The bytes that the piece borrows.
    pub fn bytes(self) -> &'a [u8]
        ensures { result.now ≡ (chunk self.entry).bytes }
    {
        match self {
            Piece::Common(b)
            | Piece::Ours(b)
            | Piece::Base(b)
            | Piece::Theirs(b)
            | Piece::Marker(b)
            | Piece::Ending(b) => b,
        }
    }
}
