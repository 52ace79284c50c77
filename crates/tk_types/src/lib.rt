//! Plain values of the simulator, which every other crate names.
#![tactic(auto)]

mod answer;
mod call_name;
mod calls;
mod error_code;
mod line;
mod memory;
mod modes;
mod name;
mod run;
mod script;
mod sequence;
mod task;
mod why;

pub use answer::{Answer, Outcome, Who};
pub use call_name::{ArgumentKind, CallName};
pub use calls::{
    Call, ContextCall, DeviceCall, HookCall, MailCall, MutexCall, PoolCall, SemFlagCall, TaskCall,
    TimeCall,
};
pub use error_code::Er;
pub use line::{Entry, HandlerKind, Hook, How, LastLine, Line, LineEnding};
pub use memory::OutOfMemory;
pub use modes::{
    ATTRIBUTE_WORDS, Attributes, FLAG_MODE_WORDS, FlagMode, OPEN_MODE_WORDS, OpenMode,
    SUSPEND_MODE_WORDS, SuspendMode,
};
pub use name::{Name, is_name};
pub use run::{Act, End, Frame, Mode, SayText};
pub use script::{
    Arg, Body, BodyKind, Boot, Condition, Device, Interrupt, Kind, Label, Operand, Operation,
    Reading, Script, Stmt,
};
pub use sequence::Sequence;
pub use task::{DueEvent, Event, Flags, Order, Phase, Release, Task};
pub use why::Why;
