//! Tasks are made, deleted and started.

ghost use Rattle.std.specs.Prelude.{◌≡◌};
ghost use Rattle.kernel_model.specs.Tasks.Calls.{create_task, delete_task, has_only_free, start_task};

use crate::names::task_id;
use kernel_base::Base;
use kernel_base::answers::{done, failed};
use tk_types::{Attributes, Er, Outcome};

/// Whether a list has no attribute but those without an effect.
fn has_only_free(attributes: Attributes) -> bool
    ensures { result ≡ has_only_free attributes }
{
    !(attributes.ta_tfifo
        || attributes.ta_tpri
        || attributes.ta_first
        || attributes.ta_cnt
        || attributes.ta_wsgl
        || attributes.ta_wmul
        || attributes.ta_mfifo
        || attributes.ta_mpri
        || attributes.ta_inherit
        || attributes.ta_ceiling
        || attributes.ta_sta
        || attributes.ta_phs)
}

/// `tk_cre_tsk`: a DORMANT task with the least free ID.
#[tactic(auto, unfolding(kernel_model::specs::Tasks::Calls::create_task))]
pub(crate) fn create_task(
    base: &mut Base,
    attributes: Attributes,
    priority: i32,
    stack: i32,
) -> Outcome
    ensures { create_task base.old attributes priority stack ≡ record { base = base.new; outcome = result } }
{
    if !has_only_free(attributes) {
        return failed(Er::RsAtr);
    }
    if priority < 1 || priority > 140 {
        return failed(Er::Par);
    }
    if stack < 1 || stack > 1_048_576 {
        return failed(Er::Par);
    }
    let task = base.free_task();
    if task == 0 {
        return failed(Er::Limit);
    }
    if !base.take_bytes(stack as u32) {
        return failed(Er::NoMem);
    }
    base.create(task, priority as u8, stack as u32);
    done(task as i32)
}

/// `tk_del_tsk`: a DORMANT task is deleted.
#[tactic(auto, unfolding(kernel_model::specs::Tasks::Calls::delete_task))]
pub(crate) fn delete_task(base: &mut Base, task: i32) -> Outcome
    ensures { delete_task base.old task ≡ record { base = base.new; outcome = result } }
{
    let Some(id) = task_id(task) else {
        return failed(Er::Id);
    };
    if !base.exists(id) {
        return failed(Er::NoExs);
    }
    if !base.is_dormant(id) {
        return failed(Er::Obj);
    }
    base.delete(id);
    done(0)
}

/// `tk_sta_tsk`: a DORMANT task becomes READY.
#[tactic(auto, unfolding(kernel_model::specs::Tasks::Calls::start_task))]
pub(crate) fn start_task(base: &mut Base, task: i32, code: i32) -> Outcome
    ensures { start_task base.old task code ≡ record { base = base.new; outcome = result } }
{
    let Some(id) = task_id(task) else {
        return failed(Er::Id);
    };
    if code < 0 {
        return failed(Er::Par);
    }
    if !base.exists(id) {
        return failed(Er::NoExs);
    }
    if !base.is_dormant(id) {
        return failed(Er::Obj);
    }
    base.make_ready(id);
    done(0)
}
