//! What delays dispatching, which calls that forbids, and simulated memory.

ghost use Rattle.std.specs.Prelude.{◌≡◌, ◌<◌, ◌^◌, slice_get};
ghost use Rattle.kernel_model.specs.Tasks.Base.{advance, chosen, dispatch, give_bytes, has_room, set_flags, take_bytes, take_release};
ghost use Rattle.kernel_model.specs.Tasks.Marks.{allowed, allows, is_task as is_a_task, mark_of};

use crate::base::Base;
use kernel_model::marks::Mark;
use tk_types::{Call, CallName, Flags, Release, Who};

/// The most bytes of simulated system memory.
const MEMORY_LIMIT: u64 = 1_048_576;

/// The mark that the table of calls gives a call.
#[tactic(auto, unfolding(kernel_model::specs::Tasks::Marks::mark_of))]
fn mark_of(name: CallName) -> Mark
    ensures { result ≡ mark_of name }
{
    match name {
        CallName::TkSlpTsk
        | CallName::TkDlyTsk
        | CallName::TkWaiSem
        | CallName::TkWaiFlg
        | CallName::TkLocMtx
        | CallName::TkRcvMbx
        | CallName::TkSndMbf
        | CallName::TkRcvMbf
        | CallName::TkGetMpf
        | CallName::TkGetMpl
        | CallName::TkReaDev
        | CallName::TkWriDev
        | CallName::TkSreaDev
        | CallName::TkSwriDev
        | CallName::TkWaiDev
        | CallName::TkClsDev
        | CallName::TkSusDev => Mark::MayWait,
        CallName::TkUnlMtx
        | CallName::TkDisDsp
        | CallName::TkEnaDsp
        | CallName::Di
        | CallName::Ei
        | CallName::Svc => Mark::NeedsTask,
        _ => Mark::Free,
    }
}

/// Whether a task makes the call.
fn is_a_task(who: Who) -> bool
    ensures { result ≡ is_a_task who }
{
    match who {
        Who::Task(_) => true,
        Who::Handler => false,
    }
}

/// Whether these flags allow a call with a mark.
fn allows(flags: Flags, who: Who, mark: Mark) -> bool
    ensures { result ≡ allows flags who mark }
{
    match mark {
        Mark::MayWait => is_a_task(who) && !(flags.dispatch_off || flags.di),
        Mark::NeedsTask => is_a_task(who),
        Mark::Free => true,
    }
}

impl Base {
    /// Whether a call may be made: false is the cause of E_CTX by the mark that the table of calls gives it.
    #[tactic(auto, unfolding(kernel_model::specs::Tasks::Marks::allowed))]
    pub fn allowed(&self, who: Who, c: &Call) -> bool
        ensures { result ≡ allowed self.now who c.now }
    {
        allows(self.flags, who, mark_of(c.name()))
    }

    /// Whether a call with a mark may be made.
    pub fn allows(&self, who: Who, mark: Mark) -> bool
        ensures { result ≡ allows self.now.flags who mark }
    {
        allows(self.flags, who, mark)
    }

    /// What delays dispatching.
    pub fn flags(&self) -> Flags
        ensures { result ≡ self.now.flags }
    {
        self.flags
    }

    /// Sets what delays dispatching.
    pub fn set_flags(&mut self, flags: Flags)
        ensures { self.new ≡ set_flags self.old flags }
    {
        self.flags = flags;
    }

    /// The chosen task becomes the current one, and is answered; 0 where none is ready.
    pub fn dispatch(&mut self) -> u8
        ensures task { result ≡ chosen self.old }
        ensures moved { self.new ≡ dispatch self.old }
    {
        let task = self.chosen();
        self.cur = Some(task);
        task
    }

    /// The bytes of simulated system memory that are taken, at most 1,048,576.
    pub fn system_bytes(&self) -> u32
        ensures { result ≡ self.now.bytes }
    {
        self.bytes
    }

    /// Whether that many bytes of simulated memory are left.
    pub fn has_room(&self, n: u32) -> bool
        ensures { result ≡ has_room self.now n }
    {
        self.bytes as u64 + n as u64 <= MEMORY_LIMIT
    }

    /// Takes simulated memory. False, with nothing changed, comes exactly where the sum would pass 1,048,576.
    pub fn take_bytes(&mut self, n: u32) -> bool
        ensures taken { self.new ≡ take_bytes self.old n }
        ensures room { result ≡ has_room self.old n }
    {
        if !self.has_room(n) {
            return false;
        }
        self.bytes += n;
        true
    }

    /// Gives simulated memory back.
    pub fn give_bytes(&mut self, n: u32)
        ensures { self.new ≡ give_bytes self.old n }
    {
        self.bytes = self.bytes.saturating_sub(n);
    }

    /// The operating time: ticks so far.
    pub fn now(&self) -> u64
        ensures { result ≡ self.now.time }
    {
        self.time
    }

    /// The time grows by one.
    pub fn advance(&mut self)
        requires { self.old.time < 2 ^ 63 }
        ensures { self.new ≡ advance self.old }
    {
        self.time += 1;
    }

    /// Takes the earliest end of a wait that wasn't taken yet; `None` where none is left.
    pub fn next_release(&mut self) -> Option<Release>
        ensures first { result ≡ slice_get self.old.released 0 }
        ensures taken { self.new ≡ take_release self.old }
    {
        self.released.take_first()
    }
}
