ghost use Rattle.std.specs.Prelude.{◌≡◌};
ghost use Rattle.cf_grammar.specs.Statement.{AreWithin};
ghost use Rattle.cf_expand.specs.Lines.{statement_of};

use crate::conditions::Conditions;
use crate::statement::Statement;
use cf_lexer::Cutting;
use cf_types::{Text, Token};

/// A file that is being read.
#[derive(Drop)]
pub struct Source {
    pub name: Text,
    /// Its place in the list of files.
    pub number: u32,
    pub text: Text,
    /// How many conditions may be open in it at once.
    pub room: usize,
    /// How many levels of files may be below it.
    pub levels: u32,
}

impl Source {
    /// The statement of these tokens of it.
    #[inline(always)]
    pub fn statement<'a, 't>(&'a self, tokens: &'t [Token]) -> Statement<'a, 't>
        requires { AreWithin self.now.text tokens.now }
        ensures { result ≡ statement_of self.now.text tokens.now }
    {
        Statement::make(self.text.items(), tokens)
    }
}

/// Where a statement stands: its file, and the conditions that are open in it there.
#[derive(Clone, Copy)]
pub struct Place<'a> {
    pub source: &'a Source,
    pub conditions: &'a Conditions,
}

/// How far a file may go: how many conditions may be open in it at once, and how many levels of files may be below it.
#[derive(Clone, Copy)]
pub struct Limits {
    pub room: usize,
    pub levels: u32,
}

/// A file that was opened, with its text cut into tokens.
#[derive(Drop)]
pub struct Opened {
    pub source: Source,
    pub cutting: Cutting,
}

/// The path of an `include`, or of a `cinclude`, whose file may be absent.
#[derive(Drop)]
pub struct Include {
    pub path: Text,
    pub optional: bool,
}
