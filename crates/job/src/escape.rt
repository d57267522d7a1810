ghost use Rattle.std.specs.Prelude.{◌≡◌, ℕ, ◌+◌, ◌/◌, ◌%◌, ◌<◌, ◌≤◌, List, [], ◌∷◌, ◌++◌};
ghost use Rattle.job.specs.Escapes.{hex_digit, shown, shown_byte};
ghost use Rattle.job.specs.Reports.{Adds};

use crate::spell::Spell;
use std::alloc::AllocError;

/// Bytes as a terminal can show them.
#[derive(Clone, Copy)]
pub struct Shown<'a>(pub &'a [u8]);

impl Spell for Shown<'_> {
    ghost spelled = { λ it. shown it.0.now };

    fn spell(&self, report: &mut Vec<u8>) -> Result<(), AllocError> {
        let Shown(bytes) = *self;
        for b in bytes {
            show_byte(report, *b)?;
        }
        Ok(())
    }
}

// Stays: (a) what is printed is fixed: `escape_ascii` escapes quotes too.
fn show_byte(report: &mut Vec<u8>, b: u8) -> Result<(), AllocError>
    ensures { Adds result report.old.items report.new.items (shown_byte b) }
{
    match b {
        b'\n' => report.extend_from_slice(b"\\n"),
        b'\r' => report.extend_from_slice(b"\\r"),
        b'\t' => report.extend_from_slice(b"\\t"),
        b'\\' => report.extend_from_slice(b"\\\\"),
        32..=126 => report.extend_from_slice(&[b]),
        _ => report.extend_from_slice(&[b'\\', b'x', hex_digit(b / 16), hex_digit(b % 16)]),
    }
}

// Stays: (d) `char::from_digit` answers an Option of a char, to be unwrapped and made a byte.
fn hex_digit(d: u8) -> u8
    requires { d < 16 }
    ensures { result ≡ hex_digit d }
{
    match d {
        0..=9 => b'0' + d,
        _ => b'a' + (d - 10),
    }
}
