// IPC objects: create, delete.
ghost use Rattle.std.specs.Prelude.{◌≡◌};
ghost use Rattle.model.specs.declared.Call.{Call};
ghost use Rattle.model.specs.Outcome.{outcome, carry_out};
ghost use Rattle.model.specs.Refusals.{answer_of};
ghost use Rattle.model.specs.Step.{ruling};

use caller::Caller;
use kept::type_of;
use model::numbers::{CREATE, DELETE, IPC, IPCS};
use model::{Ipc, Refusal};
use rules::refusal::refused_unless;
use tables::places::{free_place, occupied};
use tables::records::put_ipc;

// CREATE to own role's IPC create type, which the object gets (rule 14); the lowest free place.
#[tactic(auto, using(model::proofs::Ends::ends), unfolding(model::specs::Step::ruling, model::specs::Calls::create_ipc_no, model::specs::Calls::create_ipc_row))]
pub fn create_ipc(t: &mut [u32], caller: u32) -> Result<u32, Refusal>
    ensures { outcome (answer_of result) t.new ≡ carry_out t.old (ruling t.old caller Call.CreateIpc) }
{
    let me = Caller {
        tables: t,
        process: caller,
    };
    let rctype = me.own_role().ipccreate;
    refused_unless(Refusal::NotAllowed, me.may(IPC, rctype, CREATE))?;
    let place = free_place(t, IPC);
    refused_unless(Refusal::Full, place < IPCS)?;
    put_ipc(t, place, Ipc { live: true, rctype });
    Ok(place)
}

// DELETE to the object's type; the place becomes free.
#[tactic(auto, using(model::proofs::Ends::ends), unfolding(model::specs::Step::ruling, model::specs::Calls::delete_ipc_no, model::specs::Calls::delete_ipc_row))]
pub fn delete_ipc(t: &mut [u32], caller: u32, object: u32) -> Result<u32, Refusal>
    ensures { outcome (answer_of result) t.new ≡ carry_out t.old (ruling t.old caller (Call.DeleteIpc object)) }
{
    let me = Caller {
        tables: t,
        process: caller,
    };
    refused_unless(Refusal::NoSuchPlace, occupied(t, IPC, object))?;
    refused_unless(
        Refusal::NotAllowed,
        me.may(IPC, type_of(t, IPC, object), DELETE),
    )?;
    put_ipc(t, object, Ipc::default());
    Ok(0)
}
