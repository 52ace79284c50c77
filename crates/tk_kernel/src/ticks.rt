//! Ticks: the time grows, and what is due is taken.

ghost use Rattle.std.specs.Prelude.{◌≡◌, ◌<◌, ◌≤◌, ◌+◌, ◌^◌, ◌++◌, OnOk, length};
ghost use Rattle.machine_model.specs.Events.Ticks.{due_done, limit_answer, tick};
ghost use Rattle.step_lemmas.specs.Falling.{fell_due};
ghost use Rattle.step_lemmas.specs.Sound.{IsSound};

use crate::kernel::Kernel;
use kernel_base::answers::plain;
use kernel_base::{Base, Event};
use std::alloc::AllocError;
use tk_types::{Answer, Er, Line, Mode};

/// The object for which a task in a delay waits.
const DELAY: u32 = 1;

/// The answer of a wait whose time has come: a delay has done its work, every other wait is over without it.
fn limit_answer(base: &Base, task: u8) -> Answer
    ensures { result ≡ limit_answer base.now task }
{
    if base.waits_for(DELAY, task) {
        return plain(0);
    }
    plain(Er::TmOut.main_code())
}

impl Kernel {
    /// An event that fell due: settling follows the end of a wait, and a handler joins those that wait to start.
    fn fall(&mut self, mode: Mode, what: Event) -> Result<(), AllocError>
        requires sound { IsSound self.old.base self.old.objects }
        ensures { OnOk result (self.new ≡ fell_due mode self.old what) }
    {
        match what {
            Event::Wait(task) => {
                self.known_of_tasks();
                let answer = limit_answer(&self.base, task);
                self.base.release(task, answer);
                self.settle(mode)?;
            }
            Event::Cyclic(_) => self.due.push_back(what)?,
            Event::Alarm(_) => self.due.push_back(what)?,
        }
        Ok(())
    }

    /// The events that are due, at most so many. A cyclic handler is due again.
    fn end_due(&mut self, mode: Mode, most: usize) -> Result<(), AllocError>
        requires few { self.old.base.made + most ≤ 2 ^ 63 }
        requires early { self.old.base.time < 2 ^ 63 }
        requires sound { IsSound self.old.base self.old.objects }
        ensures { OnOk result (self.new ≡ due_done most mode self.old) }
    {
        'due: for _done in 0..most {
            self.known_of_tasks();
            let Some(what) = time_events::tick(&mut self.base, &self.clocks) else {
                return Ok(());
            };
            self.fall(mode, what)?;
        }
        Ok(())
    }

    /// A tick, with its line: the time grows by one, and all that is due by then is done.
    #[tactic(auto, unfolding(machine_model::specs::Events::Ticks::tick))]
    pub(crate) fn tick(
        &mut self,
        mode: Mode,
        step: u32,
        lines: &mut Vec<Line>,
    ) -> Result<(), AllocError>
        requires few { self.old.base.made + length self.old.base.events ≤ 2 ^ 63 }
        requires early { self.old.base.time + 1 < 2 ^ 63 }
        requires sound { IsSound self.old.base self.old.objects }
        ensures state { OnOk result (self.new ≡ (tick mode step self.old).state) }
        ensures lines { OnOk result (lines.new.items ≡ lines.old.items ++ (tick mode step self.old).lines) }
    {
        let most = self.base.event_count();
        self.base.advance();
        let time = self.base.now();
        self.end_due(mode, most)?;
        lines.push(Line::Tick { step, time })?;
        Ok(())
    }
}
