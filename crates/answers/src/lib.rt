//! What the programs that read answers share: parts of known lengths, and why a list is not read on.

#![tactic(auto)]

ghost use Rattle.std.specs.Prelude.{◌≡◌, IfOk, length};
ghost use Rattle.std.specs.Io.KnownBytes.{Consumes};

use std::io;
use std::io::{ErrorKind, Read};

/// Why a list of answers is not read on.
#[derive(Debug, Drop)]
pub enum Stop {
    /// It ends too early, or what comes next has not its form.
    Broken,
    /// Reading or printing failed.
    Failed(io::Error),
}

impl From<io::Error> for Stop {
    ghost use Rattle.answers.specs.Stopping.{Stops};

    ghost from_gives = { Stops };

    /// A list that ends within a part is broken.
    fn from(error: io::Error) -> Self {
        match error.kind() {
            ErrorKind::UnexpectedEof => Stop::Broken,
            _ => Stop::Failed(error),
        }
    }
}

/// The next n bytes, read into the front of `room`. Where there are fewer, or no room for them, the list is broken.
pub fn read_part<'a, R: Read>(
    reader: &mut R,
    room: &'a mut [u8],
    n: usize,
) -> Result<&'a [u8], Stop>
    ensures whole { IfOk result (λ part. length part.now ≡ n) }
    ensures bytes { IfOk result (λ part. Consumes (R.remaining reader.old) (R.remaining reader.new) part.now) }
{
    let Some(part) = room.get_mut(..n) else {
        return Err(Stop::Broken);
    };
    reader.read_exact(part)?;
    Ok(part)
}

#[cfg(test)]
mod tests {
    use super::*;
    use std::test::Fail;

    #[test]
    fn parts(rt: HostRuntime) -> Result<(), Fail> {
        let mut room = [0u8; 2];
        let mut reader = [1u8, 2, 3].as_slice();
        let part = read_part(&mut reader, &mut room, 2)?;
        assert_eq!(rt; part, [1u8, 2].as_slice());
        let short = read_part(&mut reader, &mut room, 2);
        assert!(rt; matches!(short, Err(Stop::Broken)));
        Ok(())
    }
}
