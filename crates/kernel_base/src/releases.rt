//! The ends of waits that weren't taken yet, in order, at most one for each task. Their room is taken once.

ghost use Rattle.std.specs.Prelude.{◌≡◌, ◌==◌, not, IfOk, [], filter, drop, slice_get, vec_capacity};
ghost use Rattle.kernel_model.specs.Tasks.Base.{recorded};

use std::alloc::{AllocError, Global};
use std::marker::Model;
use tk_types::{Answer, Release};

/// The ends of waits that weren't taken yet.
#[derive(Drop)]
pub(crate) struct Releases {
    list: Vec<Release>,
}

impl Model for Releases {
    ghost use Rattle.std.specs.Prelude.{List, vec_capacity};
    ghost use Rattle.tk_types.specs.declared.task.Release.{Release};
    ghost use Rattle.kernel_base.specs.Room.{AreReleases};

    ghost Value = { List Release };

    ghost view = { λ releases. releases.list.items };

    ghost invariant = { λ releases. AreReleases releases.list.items (vec_capacity releases.list) };
}

/// Takes the record of a task out of a list.
fn take_out(list: &mut Vec<Release>, task: u8)
    ensures items { list.new.items ≡ filter (λ release. not (release.task == task)) list.old.items }
    ensures capacity { vec_capacity list.new ≡ vec_capacity list.old }
{
    let mut kept = 0;
    'places: for place in 0..list.len() {
        let other = list[place];
        if other.task != task {
            list[kept] = other;
            kept += 1;
        }
    }
    list.truncate(kept);
}

impl Releases {
    /// None yet.
    pub(crate) fn none(alloc: Global) -> Result<Releases, AllocError>
        ensures { IfOk result (λ releases. releases ≡ []) }
    {
        Ok(Releases {
            list: Vec::with_capacity(alloc, 256)?,
        })
    }

    /// Records the end of a task's wait behind those that weren't taken yet.
    pub(crate) fn record(&mut self, task: u8, answer: Answer)
        ensures { self.new ≡ recorded task answer self.old }
    {
        take_out(&mut self.list, task);
        self.list.push_reserved(Release { task, answer });
    }

    /// Takes the earliest.
    pub(crate) fn take_first(&mut self) -> Option<Release>
        ensures first { result ≡ slice_get self.old 0 }
        ensures left { self.new ≡ drop 1 self.old }
    {
        if self.list.is_empty() {
            return None;
        }
        Some(self.list.remove(0))
    }
}
