//! The world of a run, with the books about it.
use crate::parts::Core;
use crate::site::Site;
use std::marker::Model;

/// What a run goes by, and what its events change. Contracts see the world. Each value keeps its books: the rows are marked as
/// they are live, exactly the units of live devices are taken, and what is kept of past events is what they said.
#[derive(Drop)]
pub struct Held {
    pub site: Site,
    pub core: Core,
}

impl Model for Held {
    ghost use Rattle.run_rules.specs.World.{World};

    ghost Value = { World };

    ghost use Rattle.run_world.specs.Held.{HasBooks, held_world};

    ghost view = { held_world };

    ghost invariant = { HasBooks };
}
