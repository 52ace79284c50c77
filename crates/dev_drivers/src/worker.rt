//! A driver at work on its thread.

ghost use Rattle.dev_drivers.specs.Jobs.{IsLogOf};

use crate::job::DriverJob;
use crate::log::DriverLog;
use std::sync::Wait;
use tk_ports::Gate;

/// Drives a device: takes the messages of the inbox, does the blocks of the requests, and puts their endings into the outbox. It
/// sleeps while there is nothing to do, and ends after a Stop, or once no more messages can be counted. The gate is passed before
/// each block with the number of blocks that are done, and once more when the ending of a request has gone out.
///
/// What was taken and sent is what a driver of the unit does from its start on.

#[tactic(auto, using(crate::proofs::Steps::drove_on))]
pub fn drive<R: Wait, G: Gate>(rt: &R, job: DriverJob, gate: &G) -> DriverLog
    ensures { IsLogOf job result }
{
    let DriverJob {
        device,
        kind: _,
        start,
        parker,
        kernel,
    } = job;
    let mut log = start;
    'turns: for _ in rt.forever() {
        if log.is_over() {
            return log;
        }
        if !log.turn(device, &kernel, gate) {
            parker.park(rt);
        }
    }
    unreachable!()
}
