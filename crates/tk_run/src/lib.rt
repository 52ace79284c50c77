//! The program as a whole: from words and the bytes of a source to the bytes of a sink and a status.
#![tactic(auto)]

mod checking;
mod command;
mod entry;
mod fleet_run;
mod fleet_turn;
mod generating;
mod judging;
mod offering;
mod reading;
mod refusal;
mod replay;
mod replay_turn;
mod replaying;
mod run;
mod running;
mod status;
mod verdict;
mod verifying;
mod writing;

pub use checking::check_script;
pub use command::{Command, command_of};
pub use entry::program;
pub use offering::offer;
pub use replaying::replay_session;
pub use run::run_script;
pub use running::run_session;
pub use status::Status;
pub use verifying::verify_session;

/// The most bytes of a script.
const LONGEST_SCRIPT: u32 = 1_048_576;

/// The most bytes of a session.
const LONGEST_SESSION: u32 = 67_108_864;
