ghost use Rattle.std.specs.Prelude.{◌≡◌};
ghost use Rattle.script_text.specs.Left.{stop_at};

use machine_text::LineStop;
use thiserror::Error;

/// Why a script or an order file cannot be read.
#[derive(Clone, Copy, Debug, PartialEq, Eq, Error)]
pub enum ScriptStop {
    /// The first bad line, counted from 1, and its code, of those of scripts.
    #[error("line {line}: code {code}")]
    Fault { line: u32, code: u8 },
    /// Memory ran out.
    #[error("out of memory")]
    Memory,
}

impl ScriptStop {
    /// A line's stop, with the line's number.
    pub fn at(line: u32, stop: LineStop) -> ScriptStop
        ensures { result ≡ stop_at line stop }
    {
        match stop {
            LineStop::Code(code) => ScriptStop::Fault { line, code },
            LineStop::Memory => ScriptStop::Memory,
        }
    }
}
