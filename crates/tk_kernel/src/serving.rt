//! Servings, kind by kind.

ghost use Rattle.std.specs.Prelude.{◌≡◌, IfOk, OnOk};
ghost use Rattle.machine_model.specs.States.Objects.{first_serving, serve_object};
ghost use Rattle.step_lemmas.specs.Kinds.{Serves, acceptances, at_devices, behind_boxes, behind_buffers, buffers, closes, endings, fixed_pools, mailboxes, mutexes, sem_flags, suspension, variable_pools};
ghost use Rattle.step_lemmas.specs.Sound.{IsSound};

use crate::kernel::Kernel;
use std::alloc::AllocError;

impl Kernel {
    /// One waiter of the first semaphore, or else of the first event flag, that can serve one.
    fn serve_sem_flag(&mut self) -> bool
        requires sound { IsSound self.old.base self.old.objects }
        ensures { Serves sem_flags self.old self.new result }
    {
        sem_flag::serve_first(&mut self.base, &mut self.sem_flags)
    }

    /// The same of mailboxes.
    fn serve_mailbox(&mut self) -> bool
        requires sound { IsSound self.old.base self.old.objects }
        ensures { Serves mailboxes self.old self.new result }
    {
        mail_buffer::serve_first_mailbox(&mut self.base, &mut self.mails)
    }

    /// The same of mutexes.
    fn serve_mutex(&mut self) -> bool
        requires sound { IsSound self.old.base self.old.objects }
        ensures { Serves mutexes self.old self.new result }
    {
        mutex_prio::serve_first(&mut self.base, &mut self.mutexes)
    }

    /// The same of message buffers, whose servings write the script's memory.
    fn serve_buffer(&mut self) -> bool
        requires sound { IsSound self.old.base self.old.objects }
        ensures { Serves buffers self.old self.new result }
    {
        mail_buffer::serve_first_buffer(&mut self.base, &mut self.mails, &mut self.memory)
    }

    /// The same of fixed pools.
    fn serve_fixed_pool(&mut self) -> bool
        requires sound { IsSound self.old.base self.old.objects }
        ensures { Serves fixed_pools self.old self.new result }
    {
        mem_pools::serve_first_fixed(&mut self.base, &mut self.pools)
    }

    /// The same of variable pools.
    fn serve_variable_pool(&mut self) -> bool
        requires sound { IsSound self.old.base self.old.objects }
        ensures { Serves variable_pools self.old self.new result }
    {
        mem_pools::serve_first_variable(&mut self.base, &mut self.pools)
    }

    /// The same of acceptances of requests, whose bytes take memory of the host.
    fn serve_acceptance(&mut self) -> Result<bool, AllocError>
        requires sound { IsSound self.old.base self.old.objects }
        ensures { IfOk result (λ served. Serves acceptances self.old self.new served) }
    {
        dev_layer::serve_first_acceptance(
            &mut self.base,
            &mut self.devices,
            &self.mails,
            &mut self.memory,
        )
    }

    /// The same of the endings of requests.
    fn serve_ending(&mut self) -> bool
        requires sound { IsSound self.old.base self.old.objects }
        ensures { Serves endings self.old self.new result }
    {
        dev_layer::serve_first_ending(&mut self.base, &mut self.devices)
    }

    /// The same of closes.
    fn serve_close(&mut self) -> bool
        requires sound { IsSound self.old.base self.old.objects }
        ensures { Serves closes self.old self.new result }
    {
        dev_layer::serve_first_close(&mut self.base, &mut self.devices)
    }

    /// The same of the suspension, whose events go to message buffers.
    fn serve_suspension(&mut self) -> bool
        requires sound { IsSound self.old.base self.old.objects }
        ensures { Serves suspension self.old self.new result }
    {
        dev_layer::serve_suspension(
            &mut self.base,
            &mut self.devices,
            &mut self.mails,
            &mut self.memory,
        )
    }

    /// The first acceptance, ending or close, or else the suspension, that can serve a waiter serves one.
    fn serve_devices(&mut self) -> Result<bool, AllocError>
        requires sound { IsSound self.old.base self.old.objects }
        ensures { IfOk result (λ served. Serves (first_serving at_devices) self.old self.new served) }
    {
        let accepted = self.serve_acceptance()?;
        if accepted {
            return Ok(true);
        }
        if self.serve_ending() {
            return Ok(true);
        }
        if self.serve_close() {
            return Ok(true);
        }
        Ok(self.serve_suspension())
    }

    /// The first fixed pool, variable pool or object of a device that can serve a waiter serves one.
    fn serve_behind_buffers(&mut self) -> Result<bool, AllocError>
        requires sound { IsSound self.old.base self.old.objects }
        ensures { IfOk result (λ served. Serves (first_serving behind_buffers) self.old self.new served) }
    {
        if self.serve_fixed_pool() {
            return Ok(true);
        }
        if self.serve_variable_pool() {
            return Ok(true);
        }
        let served = self.serve_devices()?;
        Ok(served)
    }

    /// The first mutex, message buffer or object of a kind behind them that can serve a waiter serves one.
    fn serve_behind_boxes(&mut self) -> Result<bool, AllocError>
        requires sound { IsSound self.old.base self.old.objects }
        ensures { IfOk result (λ served. Serves (first_serving behind_boxes) self.old self.new served) }
    {
        if self.serve_mutex() {
            return Ok(true);
        }
        if self.serve_buffer() {
            return Ok(true);
        }
        let served = self.serve_behind_buffers()?;
        Ok(served)
    }

    /// The first object by kind and ID that can serve a waiter serves one. False, with nothing changed, comes exactly where
    /// none can. An error says that there was no memory for the bytes of a request.
    fn serve_kinds(&mut self) -> Result<bool, AllocError>
        requires sound { IsSound self.old.base self.old.objects }
        ensures { IfOk result (λ served. Serves serve_object self.old self.new served) }
    {
        if self.serve_sem_flag() {
            return Ok(true);
        }
        if self.serve_mailbox() {
            return Ok(true);
        }
        let served = self.serve_behind_boxes()?;
        Ok(served)
    }

    /// The same; what waits still stands in its order and has asked for something that fits.
    pub(crate) fn serve_first(&mut self) -> Result<bool, AllocError>
        requires sound { IsSound self.old.base self.old.objects }
        ensures serves { IfOk result (λ served. Serves serve_object self.old self.new served) }
        ensures sound { OnOk result (IsSound self.new.base self.new.objects) }
    {
        self.known_of_tasks();
        let served = self.serve_kinds()?;
        Ok(served)
    }
}
