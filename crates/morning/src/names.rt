// What the numbers of the tables stand for at this utility.

// Roles; role 0 is Role Admin in fresh tables.
pub(crate) const ADMINISTRATOR: u32 = 0;

pub(crate) const PLANNER: u32 = 1;

pub(crate) const SCHEDULER: u32 = 2;

pub(crate) const VALVE_DRIVER: u32 = 3;

// Users; each has the role of the same name.
pub(crate) const PLANNING: u32 = 1;

pub(crate) const SCHEDULING: u32 = 2;

pub(crate) const VALVES: u32 = 3;

// File types.
pub(crate) const BOX: u32 = 0;

pub(crate) const PLANNING_PROGRAMS: u32 = 1;

pub(crate) const SERVICE_PROGRAMS: u32 = 2;

pub(crate) const METRES: u32 = 3;

pub(crate) const KILOPASCALS: u32 = 4;

// Process types.
pub(crate) const HOUSEKEEPING: u32 = 0;

pub(crate) const SCRIPTS: u32 = 1;

pub(crate) const SERVICES: u32 = 2;

// File places, in the order in which they are made.
pub(crate) const ROOT: u32 = 0;

pub(crate) const PROGRAMS: u32 = 1;

pub(crate) const PLANS: u32 = 2;

pub(crate) const PLANNING_SCRIPT: u32 = 3;

pub(crate) const SCHEDULER_PROGRAM: u32 = 4;

pub(crate) const LISTS: u32 = 5;

pub(crate) const METRES_LIST: u32 = 6;

pub(crate) const KILOPASCALS_LIST: u32 = 7;

// Processes, in the order in which they are cloned.
pub(crate) const ADMINISTRATOR_PROCESS: u32 = 0;

pub(crate) const PLANNER_PROCESS: u32 = 1;

pub(crate) const SCHEDULER_PROCESS: u32 = 2;

pub(crate) const VALVE_PROCESS: u32 = 3;
