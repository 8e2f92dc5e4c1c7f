//! What the reader of the lines of a history uses.
ghost use Rattle.std.specs.Prelude.{◌≡◌, [], IfOk};
ghost use Rattle.plain_search.specs.Open.{Follows};

use crate::head::Heads;
use cf_types::Memory;
use plain_event::Teller;
use plain_search::Seeker;
use plain_world::Rules;
use run_rules::Format;
use std::alloc::Global;

/// How many bytes are enough for most lines.
const USUAL: usize = 96;

/// What the reader of lines uses: the search for the next deed, the maker of its event, the format, room for the line
/// that is due, and the heads of lines.
#[derive(Drop)]
pub struct Reader<'a> {
    pub seeker: Seeker<'a>,
    pub teller: Teller<'a>,
    pub format: Format,
    pub due: Vec<u8>,
    pub heads: Heads,
    pub ghost same: { seeker.rules.now ≡ teller.rules.now },
}

/// A reader of lines of a format.
pub fn reader_by<'a>(
    alloc: Global,
    rules: &'a Rules<'a>,
    format: Format,
) -> Result<Reader<'a>, Memory>
    ensures means { IfOk result (λ r. (r.teller.rules.now ≡ rules.now) × (r.format ≡ format)) }
    ensures follows { IfOk result (λ r. Follows r.seeker []) }
{
    let seeker = Seeker::make(alloc, rules)?;
    let teller = Teller::make(alloc, rules)?;
    let due = Vec::with_capacity(alloc, USUAL)?;
    let heads = Heads::make(alloc)?;
    Ok(Reader {
        seeker,
        teller,
        format,
        due,
        heads,
    })
}
