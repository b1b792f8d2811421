// Rules C6 to C9: what stands at the file places, which of it the roles of S can start, and which values that carries.
ghost use Rattle.std.specs.Prelude.{◌≡◌, ℕ, ◌+◌, List, true, ◌||◌, IfOk};
ghost use Rattle.model.specs.Numbers.{◌unless◌, INHERIT-USER, UP-MIXED};
ghost use Rattle.model.specs.Records.{file_word as file_word_of};
ghost use Rattle.model.specs.Refusals.{first_broken};
ghost use Rattle.model.specs.Claims.{S, T, own_forced, carried as carried_of, holds, C6, C8, C9};
ghost use Rattle.claimsets.specs.Family.{EVERY-ROLE, born, row_of, reach as reach_of, closed as closed_of};
ghost use Rattle.claims.specs.Parts.{Settled, Adds, Tells, carried_with, last_closed as last_closed_of, holds_by, C8By, every_user, C9By, by_files};

use claimroles::plain_in;
use claimsets::{EVERY_ROLE, births, closed, reach};
use model::Rule;
use model::layout::{KEPT_FORCED, KEPT_INITIAL, KEPT_TYPE, KIND};
use model::numbers::{
    CHANGE_OWNER, DIR, EXECUTE, FILES, FILESYSTEM, FREE, INHERIT_PARENT, INHERIT_USER, PROCESS,
    UP_MIXED, USERS,
};
use rules::refusal::keeps;
use sets::{RoleSet, all};
use tables::claim::Claim;
use tables::records::{file_word, kept_at, process_at, user_role};

// What is carried so far: whether all plain values are in S (C7), which special values there are, and the two values that were found last.
#[derive(Clone, Copy)]
pub struct Carried {
    pub plain: bool,
    pub user: bool,
    pub mixed: bool,
    pub initial: u32,
    pub forced: u32,
}

// Nothing is carried; an inherited value is neither plain nor one of the two special ones.
const NOTHING: Carried = Carried {
    plain: true,
    user: false,
    mixed: false,
    initial: INHERIT_PARENT,
    forced: INHERIT_PARENT,
};

impl Carried {
    // And with an initial and a forced value, of an object that a role in S can start; values that were found last add nothing.
    #[tactic(auto, using(crate::proofs::Found::found), unfolding(crate::specs::Parts::carried_with))]
    fn with(self, s: RoleSet, initial: u32, forced: u32) -> Carried
        ensures with { result ≡ carried_with self s.bits initial forced }
        ensures adds { Settled s.bits self → Adds s.bits self initial forced result }
    {
        if initial == self.initial && forced == self.forced {
            return self;
        }
        Carried {
            plain: self.plain && plain_in(s, initial) && plain_in(s, forced),
            user: self.user || forced == INHERIT_USER,
            mixed: self.mixed || forced == UP_MIXED,
            initial,
            forced,
        }
    }

    // And with object o, where its types meet those that a role in S can start.
    #[tactic(auto, using(crate::proofs::Parts::objects), unfolding(model::specs::Claims::startable, model::specs::Claims::starts))]
    fn with_object(self, claim: Claim<'_>, o: u32, started: RoleSet) -> Carried
        ensures { started.bits ≡ reach_of claim.entry.tables.now (S claim.entry.words.now) FILESYSTEM EXECUTE → Tells claim.entry.tables.now claim.entry.words.now o self → Tells claim.entry.tables.now claim.entry.words.now (o + 1) result }
    {
        let t = claim.tables;
        if claim.types(o).meets(started) {
            let initial = kept_at(t, KEPT_INITIAL, o);
            self.with(claim.roles(), initial, kept_at(t, KEPT_FORCED, o))
        } else {
            self
        }
    }
}

// C6 of a place: T of a free place is empty; T(o) holds o's effective type; that of a DIR is closed, as the set known is: it is not closed again.
#[tactic(auto, using(crate::proofs::Parts::places, crate::proofs::Found::known), unfolding(model::specs::Claims::holds, crate::specs::Parts::holds_by))]
fn holds(claim: Claim<'_>, o: u32, row: [u32; 32], known: RoleSet) -> bool
    ensures known { closed_of row known.bits ≡ true → result ≡ holds_by claim.entry.tables.now o (file_word_of claim.entry.tables.now o KIND) (T claim.entry.words.now o) (last_closed_of row known.bits (file_word_of claim.entry.tables.now o KIND) (T claim.entry.words.now o)) }
    ensures holds { row ≡ row_of (born claim.entry.tables.now EVERY-ROLE) → closed_of row known.bits ≡ true → result ≡ holds claim.entry.tables.now claim.entry.words.now o }
{
    let types = claim.types(o);
    let kind = file_word(claim.tables, o, KIND);
    let own = types.has(kept_at(claim.tables, KEPT_TYPE, o));
    if kind == FREE {
        types.bits == 0
    } else if kind == DIR {
        own && (types == known || closed(row, types))
    } else {
        own
    }
}

// The last set found closed, after a place of that kind and with these types; those of a DIR that holds what C6 asks are closed.
#[tactic(auto, unfolding(crate::specs::Parts::last_closed))]
fn last_closed(known: RoleSet, kind: u32, types: RoleSet) -> RoleSet
    ensures last { (row : List ℕ) → (kind ≡ DIR → closed_of row types.bits ≡ true) → result.bits ≡ last_closed_of row known.bits kind types.bits }
    ensures closed { (row : List ℕ) → closed_of row known.bits ≡ true → (kind ≡ DIR → closed_of row types.bits ≡ true) → closed_of row result.bits ≡ true }
{
    if kind == DIR { types } else { known }
}

// The process's forced value.
fn own_forced(claim: Claim<'_>) -> u32
    ensures { result ≡ own_forced claim.entry.tables.now claim.entry.words.now }
{
    u32::from(process_at(claim.tables, claim.process()).forced)
}

// C8: if inherit user is carried, the default role of the process's owner is in S.
#[tactic(auto, unfolding(model::specs::Claims::C8, crate::specs::Parts::C8By))]
fn c8(claim: Claim<'_>, user: bool) -> bool
    ensures by { result ≡ C8By claim.entry.tables.now claim.entry.words.now (S claim.entry.words.now) user }
    ensures rule { user ≡ carried_of claim.entry.tables.now claim.entry.words.now INHERIT-USER → result ≡ C8 claim.entry.tables.now claim.entry.words.now }
{
    let me = process_at(claim.tables, claim.process());
    !user || claim.roles().has(user_role(claim.tables, me.owner))
}

// Whether every user's default role is in the set.
#[tactic(auto, unfolding(crate::specs::Parts::every_user))]
fn every_user(t: &[u32], set: RoleSet) -> bool
    ensures { result ≡ every_user t.now set.bits }
{
    all(USERS, |u| set.has(user_role(t, u)))
}

// C9: if a role in S has CHANGE_OWNER to a type in Q, and a value that follows the owner is carried, every user's default role is in S.
#[tactic(auto, using(crate::proofs::Parts::objects), unfolding(model::specs::Claims::C9, crate::specs::Parts::C9By, crate::specs::Parts::every_user))]
fn c9(claim: Claim<'_>, follows: bool) -> bool
    ensures by { result ≡ C9By claim.entry.tables.now claim.entry.words.now (S claim.entry.words.now) follows }
    ensures rule { follows ≡ (carried_of claim.entry.tables.now claim.entry.words.now INHERIT-USER || carried_of claim.entry.tables.now claim.entry.words.now UP-MIXED) → result ≡ C9 claim.entry.tables.now claim.entry.words.now }
{
    let s = claim.roles();
    !follows
        || every_user(claim.tables, s)
        || !claim
            .process_types()
            .meets(reach(claim.tables, s, PROCESS, CHANGE_OWNER))
}

// C6, and what is carried where it holds, by one walk over the files. An outsider may create too, so C6 counts all 32 roles.
#[tactic(auto, using(crate::proofs::Parts::walks), unfolding(model::specs::Claims::C6, crate::specs::Parts::known_below, crate::specs::Parts::plain_below, crate::specs::Parts::carried_below))]
fn walk_files(claim: Claim<'_>) -> Result<Carried, Rule>
    ensures broken { first_broken result ≡ 6 unless C6 claim.entry.tables.now claim.entry.words.now }
    ensures tells { IfOk result (Tells claim.entry.tables.now claim.entry.words.now FILES) }
{
    let t = claim.tables;
    let s = claim.roles();
    let started = reach(t, s, FILESYSTEM, EXECUTE);
    let row = births(t, RoleSet { bits: EVERY_ROLE });
    let own = own_forced(claim);
    let mut known = RoleSet { bits: 0 };
    let mut found = NOTHING.with(s, own, own);
    for o in 0..FILES {
        keeps(Rule::C6, holds(claim, o, row, known))?;
        known = last_closed(known, file_word(t, o, KIND), claim.types(o));
        found = found.with_object(claim, o, started);
    }
    Ok(found)
}

// The first of the rules 6 to 9 that is broken.
#[tactic(auto, unfolding(crate::specs::Parts::by_files, crate::specs::Parts::plain_below, crate::specs::Parts::carried_below, model::specs::Claims::C7, model::specs::Claims::carried))]
pub fn by_files(claim: Claim<'_>) -> Result<(), Rule>
    ensures { first_broken result ≡ by_files claim.entry.tables.now claim.entry.words.now }
{
    let found = walk_files(claim)?;
    keeps(Rule::C7, found.plain)?;
    keeps(Rule::C8, c8(claim, found.user))?;
    keeps(Rule::C9, c9(claim, found.user || found.mixed))
}
