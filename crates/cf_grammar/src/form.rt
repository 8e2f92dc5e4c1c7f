ghost use Rattle.std.specs.Prelude.{◌≡◌, IfOk, map, true};
ghost use Rattle.config_rules.specs.Form.{form_by, form_of};
ghost use Rattle.cf_grammar.specs.Keywords.{first_keyword};
ghost use Rattle.cf_grammar.specs.Statement.{are_short};
ghost use Rattle.cf_words.specs.Words.{piece_of};

use crate::attach::attach;
use crate::checked::{config, free, ident, machine, max_partitions, max_users, pseudo_device};
use crate::define::{Defines, defining, device};
use crate::directive::{class, condition, file_systems, include, prefix};
use crate::instance::instance;
use crate::item::{make_options, options};
use crate::negation::negation;
use cf_types::{Keyword, Memory, Stmt};
use cf_words::{Known, Word};

/// The statement that a keyword and the words after it are.
#[inline(always)]
fn by_keyword(
    known: &mut Known,
    sized: bool,
    keyword: Keyword,
    words: &[Word],
) -> Result<Option<Stmt>, Memory>
    ensures { IfOk result (λ s. s ≡ form_by keyword sized (map piece_of words.now)) }
{
    match keyword {
        Keyword::Include => include(known.alloc(), false, words),
        Keyword::CInclude => include(known.alloc(), true, words),
        Keyword::Prefix => prefix(known.alloc(), words),
        Keyword::Condition(word) => condition(known.alloc(), word, words),
        Keyword::Define => defining(known, sized, Defines::Attribute, words),
        Keyword::DevClass => class(known.alloc(), words),
        Keyword::DefPseudo => defining(known, sized, Defines::PseudoDevice, words),
        Keyword::Device => device(known, sized, words),
        Keyword::Attach => attach(known, words),
        Keyword::No => negation(known, sized, words),
        Keyword::Options => options(known.alloc(), words),
        Keyword::MakeOptions => make_options(known.alloc(), words),
        Keyword::FileSystem => file_systems(known, words),
        Keyword::PseudoDevice => pseudo_device(known.alloc(), sized, words),
        Keyword::MaxUsers => max_users(known, sized, words),
        Keyword::MaxPartitions => max_partitions(known, sized, words),
        Keyword::Machine => machine(known, words),
        Keyword::Ident => ident(known, words),
        Keyword::Config => config(known, words),
        Keyword::DefFlag
        | Keyword::DefParam
        | Keyword::DefFs
        | Keyword::File
        | Keyword::DeviceMajor
        | Keyword::Version
        | Keyword::Obsolete => free(known, keyword, words),
    }
}

/// The statement that these words are; the first is this keyword, or no keyword, and none is too long. If sizes don't
/// count, a number out of its range counts as 0.
pub fn form_of(
    known: &mut Known,
    sized: bool,
    keyword: Option<Keyword>,
    words: &[Word],
) -> Result<Option<Stmt>, Memory>
    requires keyword { keyword ≡ first_keyword (map piece_of words.now) }
    requires short { are_short (map piece_of words.now) ≡ true }
    ensures { IfOk result (λ s. s ≡ form_of sized (map piece_of words.now)) }
{
    let [_, rest @ ..] = words else {
        return Ok(None);
    };
    match keyword {
        Some(Keyword::No) => negation(known, sized, rest),
        Some(keyword) => by_keyword(known, sized, keyword, rest),
        None => instance(known, sized, words),
    }
}
