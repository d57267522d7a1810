ghost use Rattle.std.specs.Prelude.{◌≡◌, ℕ};
ghost use Rattle.contract.specs.Places.{passes, place, Placed};

use reading::hunk::lines_of;
use rules::hunk::Hunk;

/// What becomes of the lines ahead of a cut. A hunk without lines that follows them stays: behind the cut if they leave, with them if they stay.
#[derive(Clone, Copy, PartialEq, Eq, Debug)]
pub enum Ahead {
    Leaves,
    Stays,
}

impl Ahead {
    // Whether a cut behind `n` more lines falls behind the hunk.
    fn passes(self, n: u32, hunk: Hunk) -> bool
        ensures { result ≡ passes self n hunk }
    {
        match self {
            Ahead::Leaves => lines_of(hunk) <= n && n > 0,
            Ahead::Stays => lines_of(hunk) <= n,
        }
    }
}

/// Where a cut falls in a list of hunks: so many whole hunks ahead of it, and so many lines of the next one.
#[derive(Clone, Copy, PartialEq, Eq, Debug)]
pub struct Place {
    pub whole: usize,
    // Stays: 0 where no hunk is cut is the number of lines itself, and no stand-in for one.
    pub lines: u32,
}

impl Place {
    /// The place behind the first `n` lines.
    #[tactic(auto, using(crate::proofs::Places::past, crate::proofs::Places::halt, crate::proofs::Places::end, crate::proofs::Places::placed))]
    pub fn behind(n: u32, hunks: &[Hunk], ahead: Ahead) -> Place
        ensures value { result ≡ place ahead n hunks.now }
        ensures placed { Placed result hunks.now }
    {
        // Stays: what is left of the lines decides where the cut falls, so it is counted down.
        let mut rest = n;
        for (whole, hunk) in hunks.iter().enumerate() {
            if !ahead.passes(rest, *hunk) {
                return Place { whole, lines: rest };
            }
            rest -= lines_of(*hunk);
        }
        Place {
            whole: hunks.len(),
            lines: 0,
        }
    }
}
