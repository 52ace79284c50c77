//! Tests of the program as a whole, over streams in memory: whole runs, refusals, faults of the outside, and runs with drivers.
#![tactic(auto)]

#[cfg(test)]
mod context_runs;
#[cfg(test)]
mod driver_runs;
#[cfg(test)]
mod failing_runs;
#[cfg(test)]
mod flooding_runs;
#[cfg(test)]
mod generated_runs;
#[cfg(test)]
mod hook_runs;
#[cfg(test)]
mod mail_runs;
#[cfg(test)]
mod mutex_runs;
#[cfg(test)]
mod pool_runs;
#[cfg(test)]
mod replay_runs;
#[cfg(test)]
mod sem_flag_runs;
#[cfg(test)]
mod task_runs;
#[cfg(test)]
mod tests;
#[cfg(test)]
mod time_runs;
#[cfg(test)]
mod verify_runs;
