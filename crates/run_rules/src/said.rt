//! What the line of a command says by itself, without a look at a world.
ghost use Rattle.std.specs.Prelude.{◌≡◌, false, true, Some, option_map};
ghost use Rattle.run_rules.specs.declared.event.Act.TheVariants as act;
ghost use Rattle.run_rules.specs.Next as next;
ghost use Rattle.run_rules.specs.Run as run;
ghost use Rattle.run_rules.specs.Said.{name_given, names_device};
ghost use Rattle.run_rules.specs.World.{World};

use crate::deed::CommandRefusal;
use crate::event::{Act, IoAnswer, PowerKind, Reply};
use cf_types::{Command, Name, Ticket};

impl IoAnswer {
    /// The result of a transfer: the number of the spot plus the value that was sent, modulo 2^32, or the error of a bad
    /// spot.
    #[tactic(auto, unfolding(crate::specs::Run::answer_of))]
    pub fn of(ticket: Ticket) -> IoAnswer
        ensures { result ≡ run.answer_of ticket }
    {
        if ticket.bad {
            IoAnswer::DeviceError
        } else {
            IoAnswer::Number((ticket.slot as u32).wrapping_add(ticket.value))
        }
    }
}

impl Reply {
    /// The reply of a refusal that names no device.
    pub fn of_refusal(why: CommandRefusal) -> Reply
        requires { names_device why ≡ false }
        ensures { (w : World) → run.reply_of w why ≡ result }
    {
        match why {
            CommandRefusal::NoDevice => Reply::NoDevice,
            CommandRefusal::Gone => Reply::Gone,
            CommandRefusal::Exclusive => Reply::Exclusive,
            CommandRefusal::TooMany => Reply::TooMany,
            CommandRefusal::Shared => Reply::Shared,
            CommandRefusal::NotHeld => Reply::NotHeld,
            CommandRefusal::Asleep => Reply::Asleep,
            CommandRefusal::Busy(_) => unreachable!(),
            CommandRefusal::NoRescan => Reply::NoRescan,
            CommandRefusal::BadAttribute => Reply::BadAttribute,
            CommandRefusal::BadLocator => Reply::BadLocator,
            CommandRefusal::NoSpot => Reply::NoSpot,
        }
    }
}

/// The name that a command gives; none if it is a list or a tree.
pub fn name_given(said: &Command) -> Option<&Name>
    ensures { name_given said.now ≡ option_map (λ name. name.now) result }
{
    match said {
        Command::OpenDev(name) => Some(name),
        Command::OpenSole(name) => Some(name),
        Command::CloseDev(name) => Some(name),
        Command::Io(name, _) => Some(name),
        Command::Detach(name) => Some(name),
        Command::Rescan { device, .. } => Some(device),
        Command::ListDev(_) => None,
        Command::TreeDev(_) => None,
        Command::Suspend(name) => Some(name),
        Command::Resume(name) => Some(name),
        Command::ResumeTree(name) => Some(name),
        Command::Plug(name) => Some(name),
        Command::Unplug(name) => Some(name),
    }
}

/// The name that a power command gives.
pub fn power_name(said: &Command) -> &Name
    requires { next.is_power said.now ≡ true }
    ensures { result.now ≡ run.power_name (Some said.now) }
{
    match said {
        Command::Suspend(name) => name,
        Command::Resume(name) => name,
        Command::ResumeTree(name) => name,
        _ => unreachable!(),
    }
}

impl Act {
    /// The line of a command with the name that it gives, and its reply.
    pub fn of_command(said: &Command, device: Name, reply: Reply) -> Act
        requires { name_given said.now ≡ Some device }
        ensures { (w : World) → run.told w said.now reply ≡ result }
    {
        match said {
            Command::OpenDev(_) => Act::OpenDev { device, reply },
            Command::OpenSole(_) => Act::OpenSole { device, reply },
            Command::CloseDev(_) => Act::CloseDev { device, reply },
            Command::Io(_, value) => Act::IoStart {
                device,
                value: *value,
                reply,
            },
            Command::Detach(_) => Act::Detach { device, reply },
            Command::Rescan { .. } => Act::Rescan { device, reply },
            Command::Suspend(_) => Act::power(PowerKind::Suspend, device, reply),
            Command::Resume(_) => Act::power(PowerKind::Resume, device, reply),
            Command::ResumeTree(_) => Act::power(PowerKind::ResumeTree, device, reply),
            Command::Plug(_) => Act::Plug {
                spot: device,
                reply,
            },
            Command::Unplug(_) => Act::Unplug {
                spot: device,
                reply,
            },
            Command::ListDev(_) => unreachable!(),
            Command::TreeDev(_) => unreachable!(),
        }
    }

    /// A power command that begins, or does not.
    fn power(kind: PowerKind, device: Name, reply: Reply) -> Act
        ensures { result ≡ act.Power kind device reply }
    {
        Act::Power {
            kind,
            device,
            reply,
        }
    }
}
