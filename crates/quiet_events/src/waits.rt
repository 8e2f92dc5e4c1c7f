ghost use Rattle.std.specs.Prelude.{◌≡◌, false, not};
ghost use Rattle.quiet_events.specs.Quiet.{EndsNoWait, is_quiet};

use run_rules::Act;

/// Whether an event is of the kinds that end no wait.
#[inline(always)]
fn is_quiet(act: &Act) -> bool
    ensures { result ≡ is_quiet act.now }
{
    matches!(
        act,
        Act::Found { got: None, .. }
            | Act::Rescan { .. }
            | Act::OpenDev { .. }
            | Act::OpenSole { .. }
            | Act::IoStart { .. }
            | Act::IoDone { .. }
            | Act::ListDev { .. }
            | Act::TreeDev { .. }
            | Act::Plug { .. }
            | Act::Sleep { .. }
            | Act::Wake { .. }
    )
}

/// Whether an event may end the wait of another caller. Callers wait for the boot to end, for a reference to go, for a scan to
/// end, or for a power command to end. If the answer is no, then in every world of a run, whoever does the event, each other
/// caller that waits still waits for the same, and nobody gives a reference back.
#[inline(always)]
pub fn may_end_wait(act: &Act) -> bool
    ensures which { result ≡ not (is_quiet act.now) }
    ensures law { result ≡ false → EndsNoWait act.now }
{
    !is_quiet(act)
}
