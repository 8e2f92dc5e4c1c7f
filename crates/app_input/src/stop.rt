ghost use Rattle.std.specs.Prelude.{◌≡◌};
ghost use Rattle.app_input.specs.Stop.{status_of_stop};

use app_words::Status;
use cf_compile::CompileStop;
use cf_types::Refusal;

/// The status that says why a configuration was not compiled.
pub fn status_of_stop(stop: CompileStop) -> Status
    ensures { result ≡ status_of_stop stop }
{
    match stop {
        CompileStop::Refused(Refusal { file, line, code }) => {
            Status::ConfigRefused { file, line, code }
        }
        CompileStop::ReadFault => Status::ReadFault,
        CompileStop::Memory => Status::Memory,
    }
}
