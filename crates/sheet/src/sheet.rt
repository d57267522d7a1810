ghost use Rattle.std.specs.Prelude.{◌≡◌, length, drop};
ghost use Rattle.std.specs.Option.{option_map};
ghost use Rattle.rules.specs.Texts.{nth_line, LineList};

use crate::lines::Lines;

/// A fixed list of lines. A kind of sheet shows its list together with the facts that it is made of lines and
/// stays within the limits; asking changes nothing.
pub trait Sheet {
    ghost sheet: { Self → LineList };

    /// How many lines there are.
    fn count(&self) -> u32
        ensures { result ≡ length (sheet self.now).lines };

    /// Line `n`, or nothing past the last.
    fn line(&self, n: u32) -> Option<&[u8]>
        ensures { option_map (λ x. x.now) result ≡ nth_line (sheet self.now).lines n };

    /// The lines from the first on.
    final fn lines(&self) -> Lines<'_, Self>
    where
        Self: Sized,
        ensures { drop result.at (sheet result.sheet.now).lines ≡ (sheet self.now).lines }
    {
        Lines { sheet: self, at: 0 }
    }
}
