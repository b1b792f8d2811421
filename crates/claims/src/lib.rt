// The claim checker ("Claims"): the one verdict on a claim, with the first rule broken.
#![tactic(auto)]

ghost use Rattle.std.specs.Prelude.{◌≡◌};
ghost use Rattle.model.specs.Refusals.{code, first_broken, verdict_of};
ghost use Rattle.model.specs.Claims.{broken as broken_of, claim_no, check as check_of};

use claimroles::by_roles;
use files::by_files;
use formed::well_formed;
use model::layout::{CLAIM_LENGTH, ROW_LENGTH};
use model::numbers::{PROCESS, PROCESSES, TYPES};
use model::{Objection, Refusal, Rule};
use rules::refusal::refused_unless;
use tables::claim::Claim;
use tables::places::occupied;

mod files;

// The first rule broken; what speaks of files is not worked out where a rule on roles is broken.
#[tactic(auto, unfolding(model::specs::Claims::broken, claimroles::specs::Roles::by_roles, crate::specs::Parts::by_files))]
fn check_rules(claim: Claim<'_>) -> Result<(), Rule>
    ensures { first_broken result ≡ broken_of claim.entry.tables.now claim.entry.words.now }
{
    by_roles(claim)?;
    by_files(claim)
}

// Numbers 1, 2 and 3 of a claim: 3 speaks of its process.
#[tactic(auto, unfolding(model::specs::Claims::claim_no))]
fn check_form(claim: Claim<'_>) -> Result<(), Refusal>
    ensures { code result ≡ claim_no claim.entry.tables.now claim.entry.words.now }
{
    let process = claim.process();
    let formed = well_formed(claim.tables) && claim.words.len() == CLAIM_LENGTH;
    refused_unless(Refusal::IllFormed, formed)?;
    let ranged = process < PROCESSES && claim.protected() < TYPES;
    refused_unless(Refusal::OutOfRange, ranged)?;
    refused_unless(Refusal::NotLive, occupied(claim.tables, PROCESS, process))
}

// The one verdict, for any tables and any claim. Once both lengths are known, the rows are handed on at these lengths, so that the compiler
// knows them too.
#[tactic(auto, using(model::proofs::Ends::ends, crate::proofs::Parts::whole), unfolding(model::specs::Claims::check))]
pub fn check(t: &[u32], w: &[u32]) -> Result<(), Objection>
    ensures { verdict_of result ≡ check_of t.now w.now }
{
    check_form(Claim {
        tables: t,
        words: w,
    })?;
    check_rules(Claim {
        tables: t.split_at(ROW_LENGTH).0,
        words: w.split_at(CLAIM_LENGTH).0,
    })?;
    Ok(())
}
