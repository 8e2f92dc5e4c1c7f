use crate::names::Names;
use cf_types::Machine;

/// A machine that is read, with the names of its spots.
#[derive(Drop)]
pub struct Draft<'t> {
    pub machine: Machine,
    pub names: Names<'t>,
}
