//! The codes of the faults of files, as fault lines print them. Each kind of file has its own family.

/// The codes of a configuration and the files that it includes.
pub mod configuration {
    /// The file is absent.
    pub const FILE_ABSENT: u8 = 1;

    /// The file has more bytes than a file may have.
    pub const FILE_TOO_LONG: u8 = 2;

    /// A byte is not allowed at its place.
    pub const BAD_BYTE: u8 = 3;

    /// A string is open at the end of its line.
    pub const OPEN_STRING: u8 = 4;

    /// A number is out of its range.
    pub const OUT_OF_RANGE: u8 = 5;

    /// The statement has none of the forms, or a word or list in it is too long.
    pub const NO_FORM: u8 = 6;

    /// This language leaves out the statement, or a locator's string or size.
    pub const LEFT_OUT: u8 = 7;

    /// An attribute is unknown, or the parent of an instance is neither a device nor an attribute.
    pub const UNKNOWN_ATTRIBUTE: u8 = 8;

    /// An attribute that is used as a place is not an interface attribute.
    pub const NO_INTERFACE: u8 = 9;

    /// A device or a pseudo-device is unknown.
    pub const UNKNOWN_DEVICE: u8 = 10;

    /// The device of an instance has no attachment at all.
    pub const NO_ATTACHMENT: u8 = 11;

    /// None of the device's attachments fits the parent.
    pub const NO_FITTING_ATTACHMENT: u8 = 12;

    /// A locator without brackets is missing.
    pub const MISSING_LOCATOR: u8 = 13;

    /// The attribute has no locator of this name.
    pub const UNKNOWN_LOCATOR: u8 = 14;

    /// A locator is written twice in one list or instance.
    pub const LOCATOR_TWICE: u8 = 15;

    /// `?` is given for a locator that has no default.
    pub const NO_DEFAULT: u8 = 16;

    /// A unit is written on an attribute.
    pub const UNIT_ON_ATTRIBUTE: u8 = 17;

    /// The name is defined already, or is `root`.
    pub const NAME_TAKEN: u8 = 18;

    /// A device names a second device class.
    pub const SECOND_CLASS: u8 = 19;

    /// The file would be included too deep, or would be one file too many.
    pub const TOO_MANY_FILES: u8 = 20;

    /// A condition word is where none may be, or a condition is open at the end of its file.
    pub const BAD_NESTING: u8 = 21;

    /// There is no prefix that `prefix` could remove.
    pub const NO_PREFIX: u8 = 22;

    /// The statement would exceed the greatest number of placed statements.
    pub const TOO_MANY_STATEMENTS: u8 = 23;

    /// The instance would exceed the greatest number of instances.
    pub const TOO_MANY_INSTANCES: u8 = 24;

    /// An interface list would have too many entries.
    pub const TOO_MANY_INTERFACES: u8 = 25;

    /// The first word of a `file` statement is not a path.
    pub const NO_PATH: u8 = 26;

    /// What follows the path of a `file` statement does not have the form of a condition, flags and a rule.
    pub const NO_CONDITION: u8 = 27;

    /// A condition nests too deep.
    pub const TOO_DEEP: u8 = 28;
}

/// The codes of a machine file.
pub mod machine {
    /// The line has none of the forms, or it has a byte that is not allowed.
    pub const BAD_LINE: u8 = 1;

    /// An earlier line gave a spot of this name.
    pub const SPOT_TWICE: u8 = 2;

    /// No earlier line gave the parent or the matched spot.
    pub const UNKNOWN_SPOT: u8 = 3;

    /// The attribute is unknown or not an interface attribute, or only one side is `root`.
    pub const NO_INTERFACE: u8 = 4;

    /// The attribute has no locator of this name.
    pub const UNKNOWN_LOCATOR: u8 = 5;

    /// The attachment is unknown.
    pub const UNKNOWN_ATTACHMENT: u8 = 6;

    /// A number is out of its range.
    pub const OUT_OF_RANGE: u8 = 7;

    /// The spot would exceed the greatest number of spots.
    pub const TOO_MANY_SPOTS: u8 = 8;

    /// The spot would be too deep.
    pub const TOO_DEEP: u8 = 9;
}

/// The codes of a script, of which an order file has the second and the third.
pub mod script {
    /// The first word is not a command.
    pub const NO_COMMAND: u8 = 1;

    /// A byte is not allowed, or the other words don't have the command's form.
    pub const WRONG_WORDS: u8 = 2;

    /// A number is out of its range.
    pub const OUT_OF_RANGE: u8 = 3;

    /// The command would exceed the greatest number of commands in a script.
    pub const TOO_MANY_COMMANDS: u8 = 4;
}
