ghost use Rattle.std.specs.Prelude.{◌≡◌};
ghost use Rattle.rules.specs.Endings.{ending_bytes};

use rules::ending::Ending;

/// The bytes of a line ending.
pub fn ending_bytes(ending: Ending) -> &'static [u8]
    ensures { result.now ≡ ending_bytes ending }
{
    match ending {
        Ending::Newline => b"\n",
        Ending::ReturnNewline => b"\r\n",
    }
}
