//! An act that comes again and again, with its text.
ghost use Rattle.std.specs.Prelude.{◌≡◌};
ghost use Rattle.run_rules.specs.Lines.{act_text};

use run_rules::SharedAct;

/// What is said again and again about a device: that a spot below it was searched and nothing came, that it fell
/// asleep, that it woke.
#[derive(Clone, Copy, PartialEq, Eq)]
pub enum Again {
    Nothing,
    Asleep,
    Awake,
}

/// Which act it is: what it says, the row and the unit of the device that it names, and the spot that was searched, or
/// on which the device is.
#[derive(Clone, Copy, PartialEq, Eq)]
pub struct ActKey {
    pub again: Again,
    pub row: u32,
    pub unit: u32,
    pub spot: u16,
}

/// An act that came before, with its text.
#[derive(Drop)]
pub struct KnownAct {
    pub key: ActKey,
    pub act: SharedAct,
    pub text: Vec<u8>,
    pub ghost spelled: { text.items ≡ act_text act },
}
