// One walk over each table. Processes and files are tested with branches, and their walks leave at the first that fails; the others carry the
// verdict along, so that several records are tested at a time. Either walk for all of them costs 600 to 1,600 instructions more.
ghost use Rattle.std.specs.Prelude.{◌&&◌, ◌≡◌};
ghost use Rattle.sets.specs.Below.{all_below};
ghost use Rattle.model.specs.Numbers.{PROCESSES, USERS, ROLES, IPCS, FILES};
ghost use Rattle.model.specs.WellFormed.{process_ok, user_ok, role_ok, ipc_ok, file_ok};
ghost use Rattle.fitting.specs.Steps.{step_ok};

use fitting::{file_ok, ipc_ok, process_ok, role_ok, user_ok};
use model::numbers::{FILES, IPCS, PROCESSES, ROLES, USERS};
use sets::{each, every};

pub fn processes_ok(t: &[u32]) -> bool
    ensures { result ≡ all_below PROCESSES (process_ok t.now) }
{
    every(PROCESSES, |p| process_ok(t, p))
}

pub fn users_ok(t: &[u32]) -> bool
    ensures { result ≡ all_below USERS (user_ok t.now) }
{
    each(USERS, |u| user_ok(t, u))
}

pub fn roles_ok(t: &[u32]) -> bool
    ensures { result ≡ all_below ROLES (role_ok t.now) }
{
    each(ROLES, |r| role_ok(t, r))
}

pub fn ipcs_ok(t: &[u32]) -> bool
    ensures { result ≡ all_below IPCS (ipc_ok t.now) }
{
    each(IPCS, |i| ipc_ok(t, i))
}

// Each file together with what is kept for it.
pub fn files_ok(t: &[u32]) -> bool
    ensures { result ≡ all_below FILES (λ o. file_ok t.now o && step_ok t.now o) }
{
    every(FILES, |o| file_ok(t, o))
}
