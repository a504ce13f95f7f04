// The limits of document 01, as the code knows them: each stands here once.

pub const MOST_PROCESSES: u32 = 16;

pub(crate) const WINDOW: u32 = 8;

pub(crate) const LAST_ROUND: u32 = 65535;

pub(crate) const MOST_EVENTS: u32 = 1_000_000;
