/// The program whose words are read.
#[derive(Clone, Copy)]
pub enum Program {
    /// The compiler of configurations, which also boots machines by them.
    Devconf,
    /// Boots a machine and runs scripts on it side by side.
    Drvrun,
    /// Boots a machine and goes through every order in which scripts can take their turns.
    Drvall,
    /// Says why a driver attached or did not, in the boot of a machine or by a configuration alone.
    Devwhy,
}
