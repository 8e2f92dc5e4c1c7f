ghost use Rattle.app_output.specs.Output.{IsFlushed, Puts};

use crate::stop::OutputStop;
use cf_io::{Flush, Put, Sink};

/// Puts a piece whole.
pub fn put_piece<S: Sink>(piece: &[u8], out: &mut S) -> Result<(), OutputStop>
    ensures { Puts piece.now (S.told out.old) (S.told out.new) result }
{
    match out.put(piece) {
        Put::All => Ok(()),
        Put::Failed(_) => Err(OutputStop::WriteFault),
    }
}

/// Hands on what was held back.
pub fn flush<S: Sink>(out: &mut S) -> Result<(), OutputStop>
    ensures { IsFlushed (S.told out.old) (S.told out.new) result }
{
    match out.flush() {
        Flush::All => Ok(()),
        Flush::Failed => Err(OutputStop::WriteFault),
    }
}
