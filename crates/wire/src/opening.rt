//! The opening of a plan file: its length and its version.
ghost use Rattle.std.specs.Prelude.{◌≡◌, ℕ, ◌≤◌, length, Ok, Err, MatchResult};
ghost use Rattle.wire.specs.Opening.{opening};

use crate::faults::FileFault;

const LONGEST_FILE: usize = 8_000;

const VERSION: u8 = 1;

/// What follows the version byte, where the file is not too long and has the version that is known.
pub fn open(bytes: &[u8]) -> Result<&[u8], FileFault>
    ensures { MatchResult result (λ rest. opening bytes.now ≡ Ok rest.now) (λ e. opening bytes.now ≡ Err e) }
{
    if bytes.len() > LONGEST_FILE {
        return Err(FileFault::TooLong);
    }
    match bytes {
        [VERSION, rest @ ..] => Ok(rest),
        _ => Err(FileFault::Version),
    }
}
