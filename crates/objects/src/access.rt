// Access to an object of any group.
ghost use Rattle.std.specs.Prelude.{◌≡◌};
ghost use Rattle.model.specs.declared.Call.{Call};
ghost use Rattle.model.specs.Numbers.{FILESYSTEM};
ghost use Rattle.model.specs.Outcome.{outcome, carry_out};
ghost use Rattle.model.specs.Refusals.{code, answer_of};
ghost use Rattle.model.specs.Calls.{access_no};
ghost use Rattle.model.specs.Step.{ruling};

use caller::Caller;
use kept::type_of;
use model::Refusal;
use model::numbers::FILESYSTEM;
use rules::refusal::refused_unless;
use tables::places::occupied;

// The object is there, and own role has the right to its effective type.
#[tactic(auto, unfolding(model::specs::Calls::access_no))]
fn check_access(me: Caller, group: u32, object: u32, right: u32) -> Result<(), Refusal>
    ensures { code result ≡ access_no me.entry.tables.now me.entry.process group object right }
{
    refused_unless(Refusal::NoSuchPlace, occupied(me.tables, group, object))?;
    let rctype = type_of(me.tables, group, object);
    refused_unless(Refusal::NotAllowed, me.may(group, rctype, right))
}

// Granted when own role has that right to the effective type; nothing changes either way. A file is handed on at once: else an access costs 171
// instructions, and so 127.
#[tactic(auto, using(model::proofs::Ends::ends), unfolding(model::specs::Step::ruling))]
pub fn access(t: &[u32], caller: u32, group: u32, object: u32, right: u32) -> Result<u32, Refusal>
    ensures { outcome (answer_of result) t.now ≡ carry_out t.now (ruling t.now caller (Call.Access group object right)) }
{
    if group == FILESYSTEM {
        return access_file(t, caller, object, right);
    }
    let me = Caller {
        tables: t,
        process: caller,
    };
    check_access(me, group, object, right)?;
    Ok(0)
}

// The same for a file or directory, of which only the one type is looked for.
#[tactic(auto, using(model::proofs::Ends::ends), unfolding(model::specs::Step::ruling))]
pub fn access_file(t: &[u32], caller: u32, file: u32, right: u32) -> Result<u32, Refusal>
    ensures { outcome (answer_of result) t.now ≡ carry_out t.now (ruling t.now caller (Call.Access FILESYSTEM file right)) }
{
    let me = Caller {
        tables: t,
        process: caller,
    };
    check_access(me, FILESYSTEM, file, right)?;
    Ok(0)
}
