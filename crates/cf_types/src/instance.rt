use crate::{Locs, ParentSpec, Place, UnitMark};

/// What a device instance joins: its device, the attachment and the place of it that are taken, the parent device that
/// it names, and one value for each locator of the place.
#[derive(Drop)]
pub struct Joined {
    pub device: u32,
    pub attach: u32,
    pub place: Place,
    pub parent: Option<ParentSpec>,
    pub locs: Locs,
}

/// A device instance: the place of its statement in the list of placed statements, what it joins, its unit and its
/// flags.
#[derive(Drop)]
pub struct Instance {
    pub stmt: u32,
    pub joined: Joined,
    pub mark: UnitMark,
    pub flags: i64,
}

/// What an instance attaches to, once its words are looked up: the root, a parent device with a unit or any, or an
/// interface attribute with `?`.
#[derive(Clone, Copy)]
pub enum Target {
    AtRoot,
    Below(ParentSpec),
    On(u32),
}

/// An attachment with one of its places.
#[derive(Clone, Copy)]
pub struct AttachPlace {
    pub attach: u32,
    pub place: Place,
}
