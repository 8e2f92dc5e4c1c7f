ghost use Rattle.std.proofs.Props.{props};
ghost use Rattle.std.specs.Prelude.{◌≡◌, IfOk, IfSome};
ghost use Rattle.run_rules.specs.Lines.{act_text};

use crate::event::Act;
use cf_types::Memory;
use std::alloc::{AllocError, Global};
use std::marker::Model;
use std::sync::Arc;

/// An act, and its spelling, if that was kept.
#[derive(Drop)]
struct ToldAct {
    act: Act,
    text: Option<Vec<u8>>,
    ghost spelled: { IfSome text (λ text. text.items ≡ act_text act) } by { Prim.hlevel props },
}

/// What happened, as events hold it: equal events share it. A clone is a further owner and takes no memory. Contracts
/// see the act.
#[derive(Drop)]
pub struct SharedAct {
    told: Arc<ToldAct>,
}

impl Model for SharedAct {
    ghost use Rattle.std.specs.Arc.{arc_value};
    ghost use Rattle.run_rules.specs.declared.event.Act.{Act};

    ghost Value = { Act };

    ghost view = { λ shared. (arc_value shared.told).act };
}

impl SharedAct {
    /// This act, in a block of memory of its own.
    #[inline(always)]
    pub fn make(alloc: Global, act: Act) -> Result<SharedAct, Memory>
        ensures { IfOk result (λ shared. shared ≡ act) }
    {
        let told = ToldAct { act, text: None };
        Ok(SharedAct {
            told: Arc::new(alloc, told)?,
        })
    }

    /// This act, with its text as the lines of a history of format 2 have it: for acts that come again and again.
    pub fn with_text(alloc: Global, act: Act, text: Vec<u8>) -> Result<SharedAct, Memory>
        requires { text.items ≡ act_text act }
        ensures { IfOk result (λ shared. shared ≡ act) }
    {
        let told = ToldAct {
            act,
            text: Some(text),
        };
        Ok(SharedAct {
            told: Arc::new(alloc, told)?,
        })
    }

    /// The act.
    #[inline(always)]
    pub fn get(&self) -> &Act
        ensures { result.now ≡ self.now }
    {
        &self.told.act
    }

    /// The text of the act, if it was kept.
    #[inline(always)]
    pub fn text(&self) -> Option<&[u8]>
        ensures { IfSome result (λ text. text.now ≡ act_text self.now) }
    {
        match &self.told.text {
            Some(text) => Some(text),
            None => None,
        }
    }
}

impl Clone for SharedAct {
    #[inline(always)]
    fn clone(&self) -> Result<SharedAct, AllocError>
        ensures { IfOk result (λ shared. shared ≡ self.now) }
    {
        Ok(SharedAct {
            told: self.told.clone()?,
        })
    }
}
