//! Calls and ticks, with answers from the rules of the calls.

ghost use Rattle.std.specs.Prelude.{◌≡◌, ◌≤◌, ◌+◌, ◌^◌, length};

use super::*;
use kernel_base::Base;
use kernel_base::answers::plain;
use std::test::Fail;
use tk_types::{Answer, Attributes, Er, Event, Outcome, TimeCall};

/// The attribute TA_STA.
const STARTED: u32 = 1 << 16;

/// The attribute TA_PHS.
const PHASED: u32 = 1 << 17;

/// A call, and what it is answered.
#[derive(Clone, Copy)]
struct Made {
    call: TimeCall,
    answer: Answer,
}

/// A call that is answered a value alone.
fn answered(call: TimeCall, value: i32) -> Made {
    Made {
        call,
        answer: plain(value),
    }
}

/// A call that is answered two fields.
fn told(call: TimeCall, first: i32, second: i32) -> Made {
    Made {
        call,
        answer: Answer {
            value: 0,
            fields: [first, second, 0, 0, 0],
            used: 2,
        },
    }
}

/// Whether each of these calls, made one after another, is answered so.
fn run(base: &mut Base, table: &mut Clocks, calls: &[Made]) -> bool
    requires few { base.old.made ≤ 10000 }
    requires early { base.old.time ≤ 10000 }
    requires short { length calls.now ≤ 100 }
    ensures few { base.new.made ≤ base.old.made + 100 }
    ensures early { base.new.time ≤ base.old.time }
{
    'calls: for place in 0..calls.len() {
        let Made { call, answer } = calls[place];
        if crate::call(base, table, &call) != Outcome::Returned(answer) {
            return false;
        }
    }
    true
}

/// The next event that falls due within 100 ticks, with the time at which it does.
fn next_event(base: &mut Base, table: &Clocks) -> Option<(u64, Event)>
    requires few { base.old.made ≤ 10000 }
    requires early { base.old.time ≤ 10000 }
    ensures few { base.new.made ≤ base.old.made + 100 }
    ensures early { base.new.time ≤ base.old.time + 100 }
{
    'ticks: for _tick in 0..100u64 {
        if let Some(what) = tick(base, table) {
            return Some((base.now(), what));
        }
        base.advance();
    }
    None
}

/// A cyclic handler of that period and phase is made.
fn cyclic(attributes: u32, period: i32, phase: i32) -> TimeCall {
    TimeCall::CreCyc {
        attributes: Attributes::of_bits(attributes),
        body: 7,
        period,
        phase,
    }
}

/// An alarm handler is made.
fn alarm(attributes: u32) -> TimeCall {
    TimeCall::CreAlm {
        attributes: Attributes::of_bits(attributes),
        body: 9,
    }
}

#[test]
fn errors_come_in_the_order_of_the_checks(rt: HostRuntime) -> Result<(), Fail> {
    let mut base = Base::new(rt.alloc(), 10)?;
    let mut table = Clocks::new(rt.alloc())?;
    let calls = [
        answered(TimeCall::SetTim { high: -1, low: 0 }, Er::Par.main_code()),
        answered(cyclic(1, 0, 0), Er::Par.main_code()),
        answered(cyclic(1 << 6, 0, 0), Er::RsAtr.main_code()),
        answered(alarm(STARTED), Er::RsAtr.main_code()),
        answered(TimeCall::StaAlm { id: 65, delay: -1 }, Er::Id.main_code()),
        answered(TimeCall::StaAlm { id: 1, delay: -1 }, Er::Par.main_code()),
        answered(TimeCall::StaAlm { id: 1, delay: 0 }, Er::NoExs.main_code()),
        answered(TimeCall::StpAlm { id: 0 }, Er::Id.main_code()),
        answered(TimeCall::DelAlm { id: 1 }, Er::NoExs.main_code()),
        answered(TimeCall::RefAlm { id: 1 }, Er::NoExs.main_code()),
        answered(TimeCall::StaCyc { id: 1 }, Er::NoExs.main_code()),
        answered(TimeCall::StpCyc { id: 1 }, Er::NoExs.main_code()),
        answered(TimeCall::DelCyc { id: 64 }, Er::NoExs.main_code()),
        answered(TimeCall::RefCyc { id: -1 }, Er::Id.main_code()),
    ];
    assert!(rt; run(&mut base, &mut table, &calls));
    assert!(rt; !base.has_event());
    Ok(())
}

/// The system time goes on from what it was set to, past the end of its low half.
#[test]
fn system_time_goes_on(rt: HostRuntime) -> Result<(), Fail> {
    let mut base = Base::new(rt.alloc(), 10)?;
    let mut table = Clocks::new(rt.alloc())?;
    base.advance();
    let set = [
        told(TimeCall::GetTim, 0, 1),
        answered(TimeCall::SetTim { high: 1, low: -1 }, 0),
        told(TimeCall::GetTim, 1, -1),
    ];
    assert!(rt; run(&mut base, &mut table, &set));
    base.advance();
    let later = [told(TimeCall::GetTim, 2, 0), told(TimeCall::GetOtm, 0, 2)];
    assert!(rt; run(&mut base, &mut table, &later));
    Ok(())
}

/// A handler that is to start n milliseconds from now starts at the tick n + 1; a cyclic one goes on by its period until it
/// is stopped, and an alarm keeps only the time that it was set for last.
#[test]
fn handlers_fall_due(rt: HostRuntime) -> Result<(), Fail> {
    let mut base = Base::new(rt.alloc(), 10)?;
    let mut table = Clocks::new(rt.alloc())?;
    let made = [
        answered(cyclic(STARTED, 5, 2), 1),
        answered(alarm(0), 1),
        answered(TimeCall::StaAlm { id: 1, delay: 3 }, 0),
    ];
    assert!(rt; run(&mut base, &mut table, &made));
    assert!(rt; table.has_cyc(1) && table.has_alm(1) && !table.has_cyc(2));
    assert_eq!(rt; next_event(&mut base, &table), Some((3, Event::Cyclic(1))));
    let shown = [
        told(TimeCall::RefCyc { id: 1 }, 5, 1),
        told(TimeCall::RefAlm { id: 1 }, 1, 1),
    ];
    assert!(rt; run(&mut base, &mut table, &shown));
    assert_eq!(rt; next_event(&mut base, &table), Some((4, Event::Alarm(1))));
    let set_twice = [
        told(TimeCall::RefAlm { id: 1 }, 0, 0),
        answered(TimeCall::StaAlm { id: 1, delay: 10 }, 0),
        answered(TimeCall::StaAlm { id: 1, delay: 2 }, 0),
    ];
    assert!(rt; run(&mut base, &mut table, &set_twice));
    assert_eq!(rt; next_event(&mut base, &table), Some((7, Event::Alarm(1))));
    assert_eq!(rt; next_event(&mut base, &table), Some((8, Event::Cyclic(1))));
    assert!(rt;
        run(
            &mut base,
            &mut table,
            &[answered(TimeCall::StpCyc { id: 1 }, 0)]
        )
    );
    assert_eq!(rt; next_event(&mut base, &table), None);
    assert_eq!(rt; body_of(&table, Event::Cyclic(1)), Some(7));
    assert_eq!(rt; body_of(&table, Event::Alarm(1)), Some(9));
    Ok(())
}

/// A handler that keeps its phase goes on in it: its first time is 1, so at 25 the next one is 31.
#[test]
fn phase_is_kept(rt: HostRuntime) -> Result<(), Fail> {
    let mut base = Base::new(rt.alloc(), 10)?;
    let mut table = Clocks::new(rt.alloc())?;
    let made = [
        answered(cyclic(PHASED, 10, 0), 1),
        answered(alarm(0), 1),
        answered(TimeCall::StaAlm { id: 1, delay: 24 }, 0),
    ];
    assert!(rt; run(&mut base, &mut table, &made));
    assert_eq!(rt; next_event(&mut base, &table), Some((25, Event::Alarm(1))));
    let started = [
        answered(TimeCall::StaCyc { id: 1 }, 0),
        answered(TimeCall::StaCyc { id: 1 }, 0),
        told(TimeCall::RefCyc { id: 1 }, 6, 1),
    ];
    assert!(rt; run(&mut base, &mut table, &started));
    assert_eq!(rt; next_event(&mut base, &table), Some((31, Event::Cyclic(1))));
    assert!(rt;
        run(
            &mut base,
            &mut table,
            &[answered(TimeCall::DelCyc { id: 1 }, 0)]
        )
    );
    assert_eq!(rt; next_event(&mut base, &table), None);
    assert!(rt; !table.has_cyc(1));
    Ok(())
}
