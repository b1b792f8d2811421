// What a claim says: the words of its row, beside the tables that it speaks of.
ghost use Rattle.std.specs.Prelude.{◌≡◌};
ghost use Rattle.model.specs.Records.{set_of};
ghost use Rattle.model.specs.Claims.{process_in, type_in, S, Q, T};

use crate::words::{set_at, word};
use model::layout::{CLAIM_PROCESS, CLAIM_Q, CLAIM_S, CLAIM_T, CLAIM_TYPE};
use sets::RoleSet;

// A claim beside the tables that it speaks of. Any rows will do: a word that a row does not have reads as 0.
#[derive(Clone, Copy)]
pub struct Claim<'a> {
    pub tables: &'a [u32],
    pub words: &'a [u32],
}

impl Claim<'_> {
    // The process, by its place.
    pub fn process(self) -> u32
        ensures { result ≡ process_in self.entry.words.now }
    {
        word(self.words, CLAIM_PROCESS)
    }

    // The protected filesystem type k.
    pub fn protected(self) -> u32
        ensures { result ≡ type_in self.entry.words.now }
    {
        word(self.words, CLAIM_TYPE)
    }

    // The role set S.
    pub fn roles(self) -> RoleSet
        ensures { result ≡ set_of (S self.entry.words.now) }
    {
        set_at(self.words, CLAIM_S)
    }

    // The process type set Q.
    pub fn process_types(self) -> RoleSet
        ensures { result ≡ set_of (Q self.entry.words.now) }
    {
        set_at(self.words, CLAIM_Q)
    }

    // The type set T(o).
    pub fn types(self, o: u32) -> RoleSet
        ensures { result ≡ set_of (T self.entry.words.now o) }
    {
        set_at(self.words, CLAIM_T + (o as usize))
    }
}
