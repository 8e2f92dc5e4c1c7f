ghost use Rattle.std.specs.Prelude.{◌≡◌};
ghost use Rattle.app_words.specs.Status.{status_number};
ghost use Rattle.app_words.specs.declared.status.Status.TheVariants as statuses;

use cf_types::{Memory, Text};

/// How a run of a program ended.
#[derive(Drop)]
pub enum Status {
    /// All was written.
    Ok,
    /// The configuration has a fault: its file, the line, counted from 1, or 0 for the file itself, and the code. See
    /// config(5).
    ConfigRefused { file: Text, line: u32, code: u8 },
    /// The words have none of the forms.
    Usage,
    /// The machine file has a fault: the line, counted from 1, and the code.
    MachineRefused { line: u32, code: u8 },
    /// A script, by its number from 1, or the order file, by 0, has a bad line: its number, counted from 1, and its code.
    /// See drvctl(8).
    ScriptRefused { which: u8, line: u32, code: u8 },
    /// A history is not accepted: its first bad line, counted from 1, or 0 if it has no head. Reading the inputs never
    /// returns this.
    HistoryRefused { line: u32 },
    /// There is no file of this name.
    Absent { name: Text },
    /// The file of this name has more than 1,048,576 bytes.
    TooLong { name: Text },
    /// Reading a file failed.
    ReadFault,
    /// Writing the output failed.
    WriteFault,
    /// Memory ran out.
    Memory,
    /// Scripts stand still: nobody goes on, and not all have ended. Who waits for which device, and who holds it, a line each with
    /// its newline; nothing if the output has these lines. Only `drvrun` and `drvall` return this.
    Stuck { waits: Text },
    /// More worlds than this bound can be reached. Only `drvall` returns this.
    Worlds { most: u32 },
    /// The configuration and the machine have nothing of this name. Only `devwhy` returns this.
    Unknown { name: Text },
}

impl Status {
    /// The exit status of the program, 0 to 13.
    pub fn number(&self) -> u8
        ensures { result ≡ status_number self.now }
    {
        match self {
            Status::Ok => 0,
            Status::ConfigRefused { .. } => 1,
            Status::Usage => 2,
            Status::MachineRefused { .. } => 3,
            Status::ScriptRefused { .. } => 4,
            Status::HistoryRefused { .. } => 5,
            Status::Absent { .. } => 6,
            Status::TooLong { .. } => 7,
            Status::ReadFault => 8,
            Status::WriteFault => 9,
            Status::Memory => 10,
            Status::Stuck { .. } => 11,
            Status::Worlds { .. } => 12,
            Status::Unknown { .. } => 13,
        }
    }
}

impl From<Memory> for Status {
    ghost from_gives = { λ _ status. status ≡ statuses.Memory };

    fn from(_memory: Memory) -> Status {
        Status::Memory
    }
}
