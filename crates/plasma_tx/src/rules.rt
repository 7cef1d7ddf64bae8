/// The bond of an exit.
pub const EXIT_BOND: u64 = 100;

/// The bond of a before challenge.
pub const CHALLENGE_BOND: u64 = 40;

/// The seconds from an exit's start in which it may be challenged: 7 days.
pub const CHALLENGE_WINDOW: u64 = 604_800;

/// The seconds from a before challenge in which it may be answered: 3 1/2 days.
pub const RESPONSE_WINDOW: u64 = 302_400;

/// The seconds from an exit's start until it may be finished: both windows, 10 1/2 days.
pub const EXIT_PERIOD: u64 = 907_200;

/// The most money that is ever funded: 2 ^ 62.
pub const MOST_MONEY: u64 = 4_611_686_018_427_387_904;

/// The last time that the clock can show, in seconds: 2 ^ 40.
pub const LAST_TIME: u64 = 1_099_511_627_776;
