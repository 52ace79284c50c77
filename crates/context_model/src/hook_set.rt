//! The hooks of a debugger.

/// Which hooks are set: that of calls, that of dispatching, and that of handlers.
#[derive(Clone, Copy, Debug, PartialEq, Eq)]
pub struct HookSet {
    pub svc: bool,
    pub dsp: bool,
    pub int: bool,
}
