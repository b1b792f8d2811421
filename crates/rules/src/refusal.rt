// How tests refuse, and how a rule of a claim is kept: each in one line before a `?`.
ghost use Rattle.std.specs.Prelude.{◌≡◌};
ghost use Rattle.model.specs.Numbers.{◌unless◌, lower as lower_of};
ghost use Rattle.model.specs.Refusals.{number_of, rule_number, code, first_broken};

use model::{Refusal, Rule};

// Refused where the test fails.
pub fn refused_unless(refusal: Refusal, ok: bool) -> Result<(), Refusal>
    ensures { code result ≡ number_of refusal unless ok }
{
    if ok { Ok(()) } else { Err(refusal) }
}

// Broken where the test fails.
pub fn keeps(rule: Rule, ok: bool) -> Result<(), Rule>
    ensures { first_broken result ≡ rule_number rule unless ok }
{
    if ok { Ok(()) } else { Err(rule) }
}

// Of two results the lower refusal, where one refuses.
#[tactic(auto, unfolding(model::specs::Numbers::lower))]
pub fn lower_refusal(a: Result<(), Refusal>, b: Result<(), Refusal>) -> Result<(), Refusal>
    ensures { code result ≡ lower_of (code a) (code b) }
{
    match (a, b) {
        (Err(x), Err(y)) if y.number() < x.number() => b,
        (Err(_), _) => a,
        _ => b,
    }
}
