// What a process does with objects: access to any, creation and removal of files, directories and IPC objects. Each is by a live caller
// with numbers in range (`monitor::act` has tested that); it answers and leaves what the ruling says, on any row.
#![tactic(auto)]

pub mod access;
pub mod files;
pub mod ipc;
