// What a free place holds: zeros only. Written out, since a plain role 0 is no variant that a derive could take for a default; an IPC object as the others.
ghost use Rattle.std.specs.Prelude.{◌≡◌};
ghost use Rattle.model.specs.Records.{free_process, free_file, free_ipc};

use crate::{File, Forced, Initial, Ipc, Kind, Process};

impl Default for Process {
    ghost is_default = { λ process. process ≡ free_process };

    // A free process place.
    fn default() -> Process {
        Process {
            live: false,
            owner: 0,
            role: 0,
            rctype: 0,
            forced: Forced::Plain(0),
        }
    }
}

impl Default for File {
    ghost is_default = { λ file. file ≡ free_file };

    // A free file place.
    fn default() -> File {
        File {
            kind: Kind::Free,
            parent: 0,
            depth: 0,
            rctype: 0,
            initial: Initial::Plain(0),
            forced: Forced::Plain(0),
        }
    }
}

impl Default for Ipc {
    ghost is_default = { λ ipc. ipc ≡ free_ipc };

    // A free IPC place.
    fn default() -> Ipc {
        Ipc {
            live: false,
            rctype: 0,
        }
    }
}
