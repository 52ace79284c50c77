//! What each of the calls asks for.

ghost use Rattle.std.specs.Prelude.{◌≡◌};
ghost use Rattle.td_hooks.specs.Requests.{request_of};

use crate::hooks::Hook;
use crate::kinds::{Kind, Queue};
use Request::{Existing, Ready, Setting, Waiting};
use tk_types::HookCall;

/// What a call asks for. A list of IDs goes to an address, and has room for so many: these are the last two numbers.
#[derive(Clone, Copy)]
pub(crate) enum Request {
    /// The IDs of a kind that exist.
    Existing(Kind, i32, i32),
    /// The ready tasks of a priority.
    Ready(i32, i32, i32),
    /// The tasks in the queue of the object with an ID.
    Waiting(Queue, i32, i32, i32),
    /// That a hook is set or taken off, by a number.
    Setting(Hook, i32),
}

/// What a call asks for.
pub(crate) fn request_of(call: &HookCall) -> Request
    ensures { result ≡ request_of call.now }
{
    match *call {
        HookCall::LstTsk { address, most } => Existing(Kind::Task, address, most),
        HookCall::LstSem { address, most } => Existing(Kind::Semaphore, address, most),
        HookCall::LstFlg { address, most } => Existing(Kind::EventFlag, address, most),
        HookCall::LstMbx { address, most } => Existing(Kind::Mailbox, address, most),
        HookCall::LstMtx { address, most } => Existing(Kind::Mutex, address, most),
        HookCall::LstMbf { address, most } => Existing(Kind::MessageBuffer, address, most),
        HookCall::LstMpf { address, most } => Existing(Kind::FixedPool, address, most),
        HookCall::LstMpl { address, most } => Existing(Kind::VariablePool, address, most),
        HookCall::LstCyc { address, most } => Existing(Kind::CyclicHandler, address, most),
        HookCall::LstAlm { address, most } => Existing(Kind::AlarmHandler, address, most),
        HookCall::LstSsy { address, most } => Existing(Kind::Subsystem, address, most),
        HookCall::RdyQue {
            priority,
            address,
            most,
        } => Ready(priority, address, most),
        HookCall::SemQue { id, address, most } => Waiting(Queue::Semaphore, id, address, most),
        HookCall::FlgQue { id, address, most } => Waiting(Queue::EventFlag, id, address, most),
        HookCall::MbxQue { id, address, most } => Waiting(Queue::Mailbox, id, address, most),
        HookCall::MtxQue { id, address, most } => Waiting(Queue::Mutex, id, address, most),
        HookCall::SmbfQue { id, address, most } => Waiting(Queue::Senders, id, address, most),
        HookCall::RmbfQue { id, address, most } => Waiting(Queue::Receivers, id, address, most),
        HookCall::MpfQue { id, address, most } => Waiting(Queue::FixedPool, id, address, most),
        HookCall::MplQue { id, address, most } => Waiting(Queue::VariablePool, id, address, most),
        HookCall::HokSvc { value } => Setting(Hook::Calls, value),
        HookCall::HokDsp { value } => Setting(Hook::Dispatches, value),
        HookCall::HokInt { value } => Setting(Hook::Handlers, value),
    }
}
