ghost use Rattle.std.specs.Prelude.{◌≡◌};
ghost use Rattle.app_output.specs.Ended.{status_after};

use app_words::Status;

/// Why a text was not put as a whole.
#[derive(Clone, Copy)]
pub enum OutputStop {
    /// Writing failed; the sink counted that.
    WriteFault,
    /// Memory ran out.
    Memory,
}

/// The status after writing.
pub fn status_after(written: Result<(), OutputStop>) -> Status
    ensures { result ≡ status_after written }
{
    match written {
        Ok(()) => Status::Ok,
        Err(OutputStop::WriteFault) => Status::WriteFault,
        Err(OutputStop::Memory) => Status::Memory,
    }
}
