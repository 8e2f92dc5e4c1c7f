ghost use Rattle.std.specs.Prelude.{◌≡◌, ◌||◌, IfOk, Some, codes, map, option_and_then, option_map};
ghost use Rattle.config_rules.specs.Form.{bytes_of, each, is_mark, item, make_item, name_of, option_item, parted};
ghost use Rattle.cf_words.specs.Words.{piece_of};
ghost use Rattle.cf_grammar.specs.Items.{item_form, valued_item};

use cf_types::{Item, Items, List, Memory, Stmt};
use cf_words::{Word, bytes_of, count_parts, first_part, name_of};
use std::alloc::Global;
use std::sync::Arc;

/// An item with a value.
fn valued(alloc: Global, name: Word, plus: bool, value: Word) -> Result<Option<Item>, Memory>
    ensures { IfOk result (λ i. i ≡ valued_item plus (piece_of name.entry) (piece_of value.entry)) }
{
    let Some(name) = name_of(alloc, name)? else {
        return Ok(None);
    };
    match bytes_of(alloc, value)? {
        Some(value) => Ok(Some(Item {
            name,
            plus,
            value: Some(value),
        })),
        None => Ok(None),
    }
}

/// An option: a name, optionally with `=` and a value.
fn option_item(alloc: Global, words: &[Word]) -> Result<Option<Item>, Memory>
    ensures { IfOk result (λ i. i ≡ option_item (map piece_of words.now)) }
{
    match words {
        [name] => match name_of(alloc, *name)? {
            Some(name) => Ok(Some(Item {
                name,
                plus: false,
                value: None,
            })),
            None => Ok(None),
        },
        [name, equals, value] => {
            if !equals.is_mark(b"=") {
                return Ok(None);
            }
            valued(alloc, *name, false, *value)
        }
        _ => Ok(None),
    }
}

/// Whether a word is `=` or `+=`.
#[inline(always)]
fn sets_or_adds(word: Word) -> bool
    ensures { result ≡ (is_mark (codes "=") (piece_of word.entry) || is_mark (codes "+=") (piece_of word.entry)) }
{
    word.is_mark(b"=") || word.is_mark(b"+=")
}

/// A makeoption: a name, `=` or `+=`, and a value.
fn make_item(alloc: Global, words: &[Word]) -> Result<Option<Item>, Memory>
    ensures { IfOk result (λ i. i ≡ make_item (map piece_of words.now)) }
{
    let [name, equals, value] = words else {
        return Ok(None);
    };
    if !sets_or_adds(*equals) {
        return Ok(None);
    }
    valued(alloc, *name, equals.is_mark(b"+="), *value)
}

/// Which items are read.
#[derive(Clone, Copy)]
pub enum ItemForm {
    Options,
    MakeOptions,
}

#[inline(always)]
fn item_of(alloc: Global, form: ItemForm, words: &[Word]) -> Result<Option<Item>, Memory>
    ensures { IfOk result (λ i. i ≡ item_form form (map piece_of words.now)) }
{
    match form {
        ItemForm::Options => option_item(alloc, words),
        ItemForm::MakeOptions => make_item(alloc, words),
    }
}

/// The items between commas.
fn items_of(alloc: Global, form: ItemForm, words: &[Word]) -> Result<Option<List<Item>>, Memory>
    ensures { IfOk result (λ items. items ≡ each (item_form form) (parted (map piece_of words.now))) }
{
    let mut items = Vec::with_capacity(alloc, count_parts(words))?;
    let mut left = Some(words);
    while let Some(rest) = left {
        let (part, behind) = first_part(rest);
        match item_of(alloc, form, part)? {
            Some(item) => items.push(item)?,
            None => return Ok(None),
        }
        left = behind;
    }
    Ok(Some(List::from_vec(items)))
}

/// How many items a statement has at least whose items may be shared.
const MANY: usize = 64;

/// The items of a statement. If they are many, statements that are made from this one can share them.
#[inline(always)]
fn held(alloc: Global, items: List<Item>) -> Result<Items, Memory>
    ensures { IfOk result (λ held. held ≡ items) }
{
    if items.len() < MANY {
        return Ok(Items::own(items));
    }
    Ok(Items::shared(Arc::new(alloc, items)?))
}

/// `options`: options, separated by commas.
#[inline(always)]
pub fn options(alloc: Global, words: &[Word]) -> Result<Option<Stmt>, Memory>
    ensures { IfOk result (λ s. s ≡ option_map Stmt.Options (each option_item (parted (map piece_of words.now)))) }
{
    match items_of(alloc, ItemForm::Options, words)? {
        Some(items) => Ok(Some(Stmt::Options {
            items: held(alloc, items)?,
        })),
        None => Ok(None),
    }
}

/// `makeoptions`: makeoptions, separated by commas.
#[inline(always)]
pub fn make_options(alloc: Global, words: &[Word]) -> Result<Option<Stmt>, Memory>
    ensures { IfOk result (λ s. s ≡ option_map Stmt.MakeOptions (each make_item (parted (map piece_of words.now)))) }
{
    match items_of(alloc, ItemForm::MakeOptions, words)? {
        Some(items) => Ok(Some(Stmt::MakeOptions {
            items: held(alloc, items)?,
        })),
        None => Ok(None),
    }
}
