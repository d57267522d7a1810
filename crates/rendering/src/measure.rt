//! The length of a rendering, measured by writing it over a tally.
ghost use Rattle.std.specs.Prelude.{◌≡◌};
ghost use Rattle.rules.specs.Pieces.{total};
ghost use Rattle.rendering.specs.Renderings.{Bounded, Writable, pieces_in};

use crate::whole::Rendering;
use reading::three::ThreeSheets;
use sink::sink::Sink;
use sink::tally::Tally;

impl<'a, T: ThreeSheets> Rendering<'a, T> {
    /// How many bytes `write` gives a sink.
    pub fn measure(&self) -> u32
        requires writable { Writable T.ThreeSheets self.now }
        requires bounded { Bounded T.ThreeSheets self.now }
        ensures { result ≡ total (pieces_in T.ThreeSheets self.now) }
    {
        // Stays: (d) a tally is told what is to come as every sink is; a constructor for it would be public, for two callers, with a contract of its own.
        let mut tally = Tally::new();
        let _ = tally.begin(usize::MAX);
        let _ = self.write(&mut tally);
        tally.count() as u32
    }
}
