//! Long lists of tokens that have been read, so that statements with the same tokens share their memory.
ghost use Rattle.std.specs.Prelude.{◌≡◌, IfOk, IfSome, length, map};
ghost use Rattle.std.specs.Arc.{arc_value};
ghost use Rattle.cf_types.specs.Pieces.{AreIn, token_in};

use cf_types::{Memory, PieceList, Pieces, Token};
use std::alloc::Global;
use std::sync::Arc;

/// How many tokens a list has at least that is shared.
const MANY: usize = 64;

/// How many lists are kept.
const LISTS: usize = 16;

/// The long lists of tokens that were read last.
#[derive(Drop)]
pub struct KnownLists {
    lists: Vec<Arc<PieceList>>,
    /// The place of the list that the next one replaces.
    next: usize,
}

impl KnownLists {
    /// No list is known. It takes no memory.
    pub fn make(alloc: Global) -> KnownLists {
        KnownLists {
            lists: Vec::new(alloc),
            next: 0,
        }
    }

    /// The known list that has the same tokens.
    fn same(&self, list: &PieceList) -> Option<&Arc<PieceList>>
        ensures { IfSome result (λ known. arc_value known.now ≡ list.now) }
    {
        for known in &self.lists {
            if known.is_same(list) {
                return Some(known);
            }
        }
        None
    }

    /// The known list that has these tokens of a text.
    fn same_tokens(&self, text: &[u8], tokens: &[Token]) -> Option<&Arc<PieceList>>
        ensures { IfSome result (λ known. arc_value known.now ≡ map (token_in text.now) tokens.now) }
    {
        for known in &self.lists {
            if known.is_of(text, tokens) {
                return Some(known);
            }
        }
        None
    }

    /// Keeps a list, perhaps in the place of another one.
    fn keep(&mut self, list: Arc<PieceList>) -> Result<(), Memory> {
        if self.lists.len() < LISTS {
            self.lists.push(list)?;
            return Ok(());
        }
        if let Some(place) = self.lists.get_mut(self.next) {
            *place = list;
        }
        self.next = if self.next < LISTS - 1 {
            self.next + 1
        } else {
            0
        };
        Ok(())
    }

    /// Keeps a list that is not known, for all who have it.
    fn share_new(&mut self, list: PieceList) -> Result<Pieces, Memory>
        ensures { IfOk result (λ pieces. pieces ≡ list) }
    {
        let list = Arc::new(*self.lists.allocator(), list)?;
        self.keep(list.clone()?)?;
        Ok(Pieces::shared(list))
    }

    /// The tokens of a long list. If the same list is known, they share the memory of that one.
    fn share_long(&mut self, list: PieceList) -> Result<Pieces, Memory>
        ensures { IfOk result (λ pieces. pieces ≡ list) }
    {
        if let Some(known) = self.same(&list) {
            return Ok(Pieces::shared(known.clone()?));
        }
        self.share_new(list)
    }

    /// Many tokens of a text. If they are a known list, they share the memory of that one, and no list is made.
    fn share_many(&mut self, text: &[u8], tokens: &[Token]) -> Result<Pieces, Memory>
        requires { AreIn (length text.now) tokens.now }
        ensures { IfOk result (λ pieces. pieces ≡ map (token_in text.now) tokens.now) }
    {
        if let Some(known) = self.same_tokens(text, tokens) {
            return Ok(Pieces::shared(known.clone()?));
        }
        let list = PieceList::of_tokens(*self.lists.allocator(), text, tokens)?;
        self.share_new(list)
    }

    /// The tokens of this list. If it is long and the same list is known, they share the memory of that one.
    #[inline(always)]
    pub fn share(&mut self, list: PieceList) -> Result<Pieces, Memory>
        ensures { IfOk result (λ pieces. pieces ≡ list) }
    {
        if list.len() < MANY {
            return Ok(Pieces::own(list));
        }
        self.share_long(list)
    }

    /// These tokens of a text. If they are many and a known list, they share the memory of that one.
    #[inline(always)]
    pub fn share_tokens(&mut self, text: &[u8], tokens: &[Token]) -> Result<Pieces, Memory>
        requires { AreIn (length text.now) tokens.now }
        ensures { IfOk result (λ pieces. pieces ≡ map (token_in text.now) tokens.now) }
    {
        if tokens.len() < MANY {
            let list = PieceList::of_tokens(*self.lists.allocator(), text, tokens)?;
            return Ok(Pieces::own(list));
        }
        self.share_many(text, tokens)
    }
}
