use crate::{Few, ItemList, List, Locs, Name, SharedText, Text};

/// A locator of an attribute, with its default; an instance may leave it out if it is optional.
#[derive(Drop)]
pub struct Locator {
    pub name: Name,
    pub default: Option<i64>,
    pub optional: bool,
}

/// An attribute. Its number is its place in the tables.
#[derive(Drop)]
pub struct Attr {
    pub name: Name,
    /// An interface attribute: devices may attach to it.
    pub iface: bool,
    /// A device class.
    pub class: bool,
    /// The attribute of a pseudo-device.
    pub pseudo: bool,
    /// At most 16, of different names.
    pub locs: List<Locator>,
    /// The numbers of the attributes that it names, all of them earlier.
    pub needs: Few<u32>,
}

/// A device definition. Its number is its place in the tables.
#[derive(Drop)]
pub struct Device {
    pub name: Name,
    /// The interface attribute of its own name, if braces are written.
    pub own: Option<u32>,
    /// The attributes that it names.
    pub needs: Few<u32>,
}

/// Where a device attaches: at the root, or at an interface attribute.
#[derive(Clone, Copy, Debug, PartialEq, Eq, Hash)]
pub enum Place {
    Root,
    At(u32),
}

/// An attachment of a device, as `attach com at isa with com_isa`.
#[derive(Drop)]
pub struct Attach {
    pub name: Name,
    pub device: u32,
    /// Where it may attach, in written order.
    pub places: Few<Place>,
    pub needs: Few<u32>,
}

/// The parent device that a row names; the unit is `None` if `?` is written.
#[derive(Clone, Copy, Debug, PartialEq, Eq)]
pub struct ParentSpec {
    pub device: u32,
    pub unit: Option<u32>,
}

/// A device instance that may be found, after the cfdata row of autoconf(9).
#[derive(Drop)]
pub struct Row {
    pub device: u32,
    /// Its unit, or the first one that a starred row may take.
    pub unit: u32,
    pub star: bool,
    pub attach: u32,
    pub place: Place,
    pub parent: Option<ParentSpec>,
    /// One value for each locator of its place.
    pub locs: Locs,
    pub flags: i64,
}

/// A pseudo-device, and how many of it there are: 1 to 65,535.
#[derive(Drop)]
pub struct Pseudo {
    pub name: Name,
    pub count: u32,
}

/// What a warning is about.
#[derive(Clone, Copy, Debug, PartialEq, Eq)]
pub enum WarnKind {
    /// A negation took nothing back.
    Nothing,
    /// An instance has no parent that leads to the root.
    Orphan,
}

/// A statement that was accepted and had no effect.
#[derive(Drop)]
pub struct Warning {
    /// The name of the file, which all warnings of it share.
    pub file: SharedText,
    pub line: u32,
    pub kind: WarnKind,
}

/// What a configuration means, modelled on the tables that config(1) makes.
#[derive(Drop)]
pub struct Tables {
    pub attrs: List<Attr>,
    pub devices: List<Device>,
    pub attaches: List<Attach>,
    pub rows: List<Row>,
    pub pseudos: List<Pseudo>,
    pub options: ItemList,
    pub makeoptions: ItemList,
    pub file_systems: List<Name>,
    pub warnings: List<Warning>,
}

/// The first fault of a configuration: the file as it was named, the line, counted from 1, or 0 for the file as a
/// whole, and the code.
#[derive(Debug, Drop)]
pub struct Refusal {
    pub file: Text,
    pub line: u32,
    pub code: u8,
}
