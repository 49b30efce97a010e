//! The options of each command. A command that is to have a further option gets its name here.

/// The options of `run`.
pub static RUN: [&str; 8] = [
    "machine", "mode", "last", "units", "init", "workers", "banks", "homes",
];

/// The options of `refer`.
pub static REFER: [&str; 4] = ["mode", "last", "units", "init"];

/// The options of `order`.
pub static ORDER: [&str; 7] = ["machine", "mode", "last", "units", "init", "order", "banks"];

/// The options of `plan`.
pub static PLAN: [&str; 4] = ["machine", "mode", "last", "homes"];

/// The options of `compile`.
pub static COMPILE: [&str; 6] = ["machine", "mode", "last", "units", "init", "homes"];

/// The options of `exec`.
pub static EXEC: [&str; 6] = ["mode", "last", "units", "init", "workers", "banks"];

/// The options of `pack`.
pub static PACK: [&str; 6] = ["machine", "mode", "last", "units", "init", "workers"];

/// The options of `fault`.
pub static FAULT: [&str; 6] = ["mode", "last", "units", "init", "workers", "faults"];

/// The options of `cover`.
pub static COVER: [&str; 4] = ["mode", "last", "units", "init"];

/// The options of `show`: none.
pub static SHOW: [&str; 0] = [];

/// The options of `large`.
pub static LARGE: [&str; 1] = ["workers"];

/// The options of `help`: none.
pub static HELP: [&str; 0] = [];
