//! Each call once where it does its work, and once where it is refused, with answers taken from the table of calls.

ghost use Rattle.std.specs.Prelude.{◌≤◌};
ghost use Rattle.kernel_model.specs.Tasks.Queues.{AreOfOrder};
ghost use Rattle.tk_types.specs.declared.task.Order.TheVariants.{Fifo};

use crate::call;
use crate::sleeping::SLEEP;
use kernel_base::answers::{done, failed};
use kernel_base::{Base, Order};
use mutex_prio::Mutexes;
use std::alloc::{AllocError, Global};
use tk_types::{Answer, Attributes, Er, Outcome, TaskCall, Who};

/// How task 2 stands while task 1, of priority 10, is the current one.
#[derive(Clone, Copy)]
enum Stage {
    Absent,
    Dormant,
    Ready,
    Sleeping,
    Suspended,
}

/// Task 2 is made, and what its stage needs is done.
fn set_stage(base: &mut Base, stage: Stage)
    requires few { base.old.made ≤ 0 }
    requires early { base.old.time ≤ 0 }
    requires sleepers { AreOfOrder Fifo base.old 0 }
    requires delayed { AreOfOrder Fifo base.old 1 }
    ensures few { base.new.made ≤ 1 }
    ensures early { base.new.time ≤ 0 }
    ensures sleepers { AreOfOrder Fifo base.new 0 }
    ensures delayed { AreOfOrder Fifo base.new 1 }
{
    base.create(2, 10, 512);
    match stage {
        Stage::Absent => base.delete(2),
        Stage::Dormant => {}
        Stage::Ready => base.make_ready(2),
        Stage::Sleeping => base.make_wait(2, SLEEP, Order::Fifo, -1),
        Stage::Suspended => {
            base.make_ready(2);
            base.suspend(2);
        }
    }
}

/// What becomes of a call at a stage.
fn outcome_at(
    alloc: Global,
    stage: Stage,
    who: Who,
    made: &TaskCall,
) -> Result<Outcome, AllocError> {
    let mut base = Base::new(alloc, 10)?;
    let mutexes = Mutexes::new(alloc)?;
    base.dispatch();
    set_stage(&mut base, stage);
    Ok(call(&mut base, &mutexes, who, made))
}

/// What task 2 shows at a stage.
fn shown(state: i32, suspensions: i32) -> Outcome {
    Outcome::Returned(Answer {
        value: 0,
        fields: [state, 10, 10, 0, suspensions],
        used: 5,
    })
}

#[test]
fn calls_do_their_work(rt: HostRuntime) -> Result<(), AllocError> {
    let attributes = Attributes::of_bits(0);
    let made = TaskCall::CreTsk {
        attributes,
        body: 1,
        priority: 5,
        stack: 512,
    };
    let rows = [
        (Stage::Absent, made, done(2)),
        (Stage::Dormant, TaskCall::DelTsk { task: 2 }, done(0)),
        (
            Stage::Dormant,
            TaskCall::StaTsk { task: 2, code: 7 },
            done(0),
        ),
        (Stage::Absent, TaskCall::ExtTsk, done(0)),
        (Stage::Absent, TaskCall::ExdTsk, done(0)),
        (Stage::Ready, TaskCall::TerTsk { task: 2 }, done(0)),
        (
            Stage::Dormant,
            TaskCall::ChgPri {
                task: 2,
                priority: 20,
            },
            done(0),
        ),
        (Stage::Ready, TaskCall::RotRdq { priority: 0 }, done(0)),
        (Stage::Ready, TaskCall::GetTid, done(1)),
        (Stage::Dormant, TaskCall::RefTsk { task: 2 }, shown(6, 0)),
        (Stage::Suspended, TaskCall::RefTsk { task: 2 }, shown(4, 1)),
        (
            Stage::Absent,
            TaskCall::SlpTsk { timeout: 10 },
            Outcome::Blocked,
        ),
        (Stage::Sleeping, TaskCall::WupTsk { task: 2 }, done(0)),
        (Stage::Ready, TaskCall::CanWup { task: 2 }, done(0)),
        (Stage::Sleeping, TaskCall::RelWai { task: 2 }, done(0)),
        (Stage::Ready, TaskCall::SusTsk { task: 2 }, done(0)),
        (Stage::Suspended, TaskCall::RsmTsk { task: 2 }, done(0)),
        (Stage::Suspended, TaskCall::FrsmTsk { task: 2 }, done(0)),
        (Stage::Absent, TaskCall::DlyTsk { delay: 0 }, done(0)),
    ];
    for (stage, call, want) in rows {
        assert_eq!(rt; outcome_at(rt.alloc(), stage, Who::Task(1), &call)?, want);
    }
    Ok(())
}

#[test]
fn calls_are_refused(rt: HostRuntime) -> Result<(), AllocError> {
    let attributes = Attributes {
        ta_tfifo: true,
        ..Attributes::of_bits(0)
    };
    let made = TaskCall::CreTsk {
        attributes,
        body: 1,
        priority: 0,
        stack: 0,
    };
    let first = Who::Task(1);
    let rows = [
        (Stage::Absent, first, made, Er::RsAtr),
        (Stage::Ready, first, TaskCall::DelTsk { task: 2 }, Er::Obj),
        (
            Stage::Absent,
            first,
            TaskCall::StaTsk { task: 2, code: -1 },
            Er::Par,
        ),
        (Stage::Absent, first, TaskCall::TerTsk { task: 1 }, Er::Obj),
        (
            Stage::Absent,
            Who::Handler,
            TaskCall::ChgPri {
                task: 0,
                priority: 141,
            },
            Er::Id,
        ),
        (
            Stage::Absent,
            first,
            TaskCall::RotRdq { priority: 141 },
            Er::Par,
        ),
        (
            Stage::Absent,
            first,
            TaskCall::RefTsk { task: 2 },
            Er::NoExs,
        ),
        (
            Stage::Absent,
            first,
            TaskCall::SlpTsk { timeout: 0 },
            Er::TmOut,
        ),
        (
            Stage::Absent,
            Who::Handler,
            TaskCall::SlpTsk { timeout: -2 },
            Er::Par,
        ),
        (Stage::Ready, first, TaskCall::WupTsk { task: 0 }, Er::Id),
        (Stage::Dormant, first, TaskCall::CanWup { task: 2 }, Er::Obj),
        (Stage::Ready, first, TaskCall::RelWai { task: 2 }, Er::Obj),
        (Stage::Dormant, first, TaskCall::SusTsk { task: 2 }, Er::Obj),
        (
            Stage::Sleeping,
            first,
            TaskCall::RsmTsk { task: 2 },
            Er::Obj,
        ),
        (
            Stage::Absent,
            first,
            TaskCall::FrsmTsk { task: 2 },
            Er::NoExs,
        ),
        (
            Stage::Absent,
            Who::Handler,
            TaskCall::DlyTsk { delay: 0 },
            Er::Ctx,
        ),
    ];
    for (stage, who, call, error) in rows {
        assert_eq!(rt; outcome_at(rt.alloc(), stage, who, &call)?, failed(error));
    }
    Ok(())
}
