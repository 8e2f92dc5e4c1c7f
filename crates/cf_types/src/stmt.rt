use crate::{Few, Items, List, Locator, Name, Pieces, Refusal, Text};

/// What a token of a configuration file is.
#[derive(Clone, Copy, Debug, PartialEq, Eq)]
pub enum TokenKind {
    /// A run of letters, digits and `_ - . / * ? $`.
    Chunk,
    /// A string between quotes.
    Text,
    /// A punctuation mark, or `+=`.
    Mark,
    /// The end of a statement.
    Stop,
}

/// A token: its kind, its span in the text, from `start` up to `end`, and its line, counted from 1.
#[derive(Clone, Copy, Debug, PartialEq, Eq)]
pub struct Token {
    pub kind: TokenKind,
    pub start: u32,
    pub end: u32,
    pub line: u32,
}

/// A token with its bytes; those of a string are without its quotes.
#[derive(Drop)]
pub struct Piece {
    pub kind: TokenKind,
    pub text: Text,
}

/// The unit of a device instance: a number up to 65,535, or `*` for any that is free.
#[derive(Clone, Copy, Debug, PartialEq, Eq)]
pub enum UnitMark {
    Fixed(u32),
    Star,
}

/// What an instance attaches to: the root, or a device or an attribute, whose unit is `None` if `?` is written.
#[derive(Drop)]
pub enum AtSpec {
    Root,
    Named { base: Name, unit: Option<u32> },
}

/// A locator that an instance gives. The value is `None` if `?` is written.
#[derive(Drop)]
pub struct GivenLoc {
    pub name: Name,
    pub value: Option<i64>,
}

/// The word of a conditional statement.
#[derive(Clone, Copy, Debug, PartialEq, Eq)]
pub enum CondWord {
    IfDef,
    IfNDef,
    ElifDef,
    ElifNDef,
    Else,
    EndIf,
}

/// What kind of items a negation takes back.
#[derive(Clone, Copy, Debug, PartialEq, Eq)]
pub enum ItemKind {
    Options,
    MakeOptions,
    PseudoDevice,
    FileSystem,
}

/// An option or a makeoption; `plus` if its value is added by `+=`.
#[derive(Drop)]
pub struct Item {
    pub name: Name,
    pub plus: bool,
    pub value: Option<Text>,
}

/// A statement of a configuration file, with its words in written order. See config(5).
#[derive(Drop)]
pub enum Stmt {
    /// `include` or, if it is optional, `cinclude`.
    Include {
        path: Text,
        optional: bool,
    },
    /// `prefix`; without a path it removes the top prefix.
    Prefix {
        path: Option<Text>,
    },
    /// `ifdef` and its kin; `else` and `endif` have no name.
    Cond {
        word: CondWord,
        name: Option<Name>,
    },
    /// `define`; the locators are there exactly if braces are written.
    Define {
        name: Name,
        locs: Option<List<Locator>>,
        needs: Few<Name>,
    },
    /// `devclass`.
    Class {
        name: Name,
    },
    /// `defpseudo`.
    DefPseudo {
        name: Name,
        locs: Option<List<Locator>>,
        needs: Few<Name>,
    },
    /// `device`.
    Device {
        name: Name,
        locs: Option<List<Locator>>,
        needs: Few<Name>,
    },
    /// `attach`; the place `root` is the name `root`.
    Attach {
        device: Name,
        places: Few<Name>,
        attach_name: Option<Name>,
        needs: Few<Name>,
    },
    /// A device instance, as `com0 at isa?`; the flags are 0 if none are written.
    Inst {
        base: Name,
        mark: UnitMark,
        at: AtSpec,
        pairs: List<GivenLoc>,
        flags: i64,
    },
    /// `no` and an instance, optionally with what it attaches to.
    NoInst {
        base: Name,
        mark: UnitMark,
        at: Option<AtSpec>,
    },
    /// `no device at`.
    NoDevice {
        at: AtSpec,
    },
    /// `no` and items by name.
    NoItems {
        kind: ItemKind,
        names: Few<Name>,
    },
    /// `options`.
    Options {
        items: Items,
    },
    /// `makeoptions`.
    MakeOptions {
        items: Items,
    },
    /// `file-system`.
    FileSystems {
        names: Few<Name>,
    },
    /// `pseudo-device`; the count is 1 if none is written.
    PseudoDevice {
        name: Name,
        count: u32,
    },
    /// A statement of which only the form is checked, such as `maxusers`.
    Checked {
        word: Name,
    },
    /// A statement that may have any tokens, such as `file`.
    Free {
        word: Name,
        rest: Pieces,
    },
}

/// A statement in the place where it is read: `file` is a place in the list of files, and lines count from 1.
#[derive(Drop)]
pub struct Placed {
    pub stmt: Stmt,
    pub file: u32,
    pub line: u32,
}

/// What reading the named file and all that it includes gives.
#[derive(Drop)]
pub struct Expanded {
    /// The statements in reading order, up to the first fault.
    pub placed: List<Placed>,
    /// The names of the files, in the order in which they were loaded.
    pub files: List<Text>,
    /// The first fault of loading, of form, of nesting or of place.
    pub fault: Option<Refusal>,
}
