ghost use Rattle.std.specs.Prelude.{◌≡◌, IfOk, codes, map};
ghost use Rattle.config_rules.specs.Form.{attach_stmt, attached};
ghost use Rattle.cf_words.specs.Words.{piece_of};
ghost use Rattle.cf_grammar.specs.Places.{is_before_last};

use crate::define::needs_of;
use cf_types::{Few, Memory, Name, Stmt};
use cf_words::{Known, Word, alone_name, known_name, names_of, split_before};

/// Whether a statement's places end with `with` and one word more.
#[inline(always)]
fn is_named(words: &[Word]) -> bool
    ensures { result ≡ is_before_last (codes "with") (map piece_of words.now) }
{
    match words {
        [.., before, with, _] => with.is_word(b"with") && !before.is_mark(b","),
        _ => false,
    }
}

/// The places, and the attachment's name after `with`, if one is written.
#[inline(always)]
fn attached(
    known: &mut Known,
    device: Name,
    needs: Few<Name>,
    words: &[Word],
) -> Result<Option<Stmt>, Memory>
    ensures { IfOk result (λ s. s ≡ attached device needs (map piece_of words.now)) }
{
    if !is_named(words) {
        return match names_of(known, words)? {
            Some(places) => Ok(Some(Stmt::Attach {
                device,
                places,
                attach_name: None,
                needs,
            })),
            None => Ok(None),
        };
    }
    let Some(places) = names_of(known, &words[..words.len() - 2])? else {
        return Ok(None);
    };
    match alone_name(known.alloc(), &words[words.len() - 1..])? {
        Some(name) => Ok(Some(Stmt::Attach {
            device,
            places,
            attach_name: Some(name),
            needs,
        })),
        None => Ok(None),
    }
}

/// `attach`: a device, `at`, one or more places, perhaps `with` and a name, and optionally attributes after a colon.
#[inline(always)]
pub fn attach(known: &mut Known, words: &[Word]) -> Result<Option<Stmt>, Memory>
    ensures { IfOk result (λ s. s ≡ attach_stmt (map piece_of words.now)) }
{
    let [device, at, rest @ ..] = words else {
        return Ok(None);
    };
    if !at.is_word(b"at") {
        return Ok(None);
    }
    let Some(device) = known_name(known, *device)? else {
        return Ok(None);
    };
    let (places, needs) = split_before(rest, b":");
    match needs_of(known, needs)? {
        Some(needs) => attached(known, device, needs, places),
        None => Ok(None),
    }
}
