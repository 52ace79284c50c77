//! What a spawner counts.

ghost use Rattle.std.specs.Prelude.{◌≡◌, ◌-◌, ◌≤◌, ◌<◌, ◌^◌};
ghost use Rattle.dev_drivers.specs.Spawning.{HasRefused, HasStarted};

/// How many drivers are started and not yet joined, and how many starts there were and were refused. The last two stay at the
/// greatest `u64`.
#[derive(Drop)]
pub(crate) struct Tally {
    pub(crate) running: u64,
    pub(crate) starts: u64,
    pub(crate) refusals: u64,
}

impl Tally {
    /// Nothing was started yet.
    pub(crate) fn new() -> Tally {
        Tally {
            running: 0,
            starts: 0,
            refusals: 0,
        }
    }

    /// A driver was started. Fewer than the greatest `u64` are running.
    pub(crate) fn start(&mut self)
        requires { self.old.running < 2 ^ 64 - 1 }
        ensures started { HasStarted self.old.starts self.new.starts self.old.running self.new.running }
        ensures starts_stay { self.old.starts ≤ self.new.starts }
        ensures refusals_stay { self.new.refusals ≡ self.old.refusals }
    {
        self.running += 1;
        self.starts = self.starts.saturating_add(1);
    }

    /// A start was refused.
    pub(crate) fn refuse(&mut self)
        ensures refused { HasRefused self.old.refusals self.new.refusals self.old.running self.new.running }
        ensures starts_stay { self.new.starts ≡ self.old.starts }
        ensures refusals_stay { self.old.refusals ≤ self.new.refusals }
    {
        self.refusals = self.refusals.saturating_add(1);
    }

    /// A driver was joined.
    pub(crate) fn join(&mut self)
        ensures running { self.new.running ≡ self.old.running - 1 }
        ensures starts_stay { self.new.starts ≡ self.old.starts }
        ensures refusals_stay { self.new.refusals ≡ self.old.refusals }
    {
        self.running = self.running.saturating_sub(1);
    }
}
