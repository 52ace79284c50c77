//! Frames, memory and statements at work, with ample memory.

ghost use Rattle.std.specs.Prelude.{IfOk};
ghost use Rattle.kernel_model.specs.Bodies.Statements.{IsRunnable};

use crate::{byte, call_before, fetch, give, new_memory, set_byte, start_frame};
use std::alloc::Global;
use std::test::Fail;
use tk_types::{
    Act, Answer, Arg, Body, BodyKind, Boot, CallName, Condition, Label, Name, Operand, Operation,
    Script, Sequence, Stmt,
};

/// A script of one body, with one label.
fn script_of(alloc: Global, stmts: Vec<Stmt>, label: u32) -> Result<Script, Fail>
    ensures { IfOk result (λ script. IsRunnable script) }
{
    let main = Name::new(b"main").ok_or("a name")?;
    let mut labels = Sequence::new(alloc);
    labels.push(Label {
        name: main,
        place: label,
    })?;
    let mut bodies = Sequence::new(alloc);
    bodies.push(Body {
        name: main,
        kind: BodyKind::Task,
        labels,
        stmts: Sequence::from_vec(stmts),
    })?;
    Ok(Script {
        devices: Sequence::new(alloc),
        pace: None,
        irqs: Sequence::new(alloc),
        boot: Boot {
            body: 1,
            priority: 10,
        },
        bodies,
    })
}

/// A byte of memory is what was written last.
#[test]
fn bytes_are_kept(rt: HostRuntime) -> Result<(), Fail> {
    let mut memory = new_memory(rt.alloc())?;
    assert_eq!(rt; byte(&memory, 65_535), 0);
    set_byte(&mut memory, 65_535, 7);
    assert_eq!(rt; byte(&memory, 65_535), 7);
    assert_eq!(rt; byte(&memory, 65_534), 0);
    Ok(())
}

/// An answer goes into the first registers, and leaves the others.
#[test]
fn answers_go_into_registers(rt: HostRuntime) -> Result<(), Fail> {
    let mut frame = start_frame(1, 3, -4);
    assert_eq!(rt; frame.registers[1], 3);
    assert_eq!(rt; frame.registers[2], 4_294_967_292);
    let answer = Answer {
        value: -1,
        fields: [5, 0, 0, 0, 0],
        used: 1,
    };
    give(&mut frame, &answer);
    assert_eq!(rt; frame.registers[0], 4_294_967_295);
    assert_eq!(rt; frame.registers[1], 5);
    assert_eq!(rt; frame.registers[2], 4_294_967_292);
    Ok(())
}

/// A number is computed, stored modulo 65,536 and 256, and loaded; a jump passes over `halt`.
#[test]
fn statements_change_frame_and_memory(rt: HostRuntime) -> Result<(), Fail> {
    let alloc = rt.alloc();
    let stmts = vec![in alloc;
        Stmt::Compute {
            operation: Operation::Sub,
            register: 3,
            value: Operand::Number(1)
        },
        Stmt::Store {
            address: Operand::Number(65_537),
            value: Operand::Number(300)
        },
        Stmt::Load {
            register: 4,
            address: Operand::Number(1)
        },
        Stmt::Jump {
            condition: Condition::Less(3, Operand::Number(0)),
            label: 0
        },
        Stmt::Halt,
        Stmt::Show(Operand::Register(3)),
    ]?;
    let script = script_of(alloc, stmts, 5)?;
    let mut memory = new_memory(alloc)?;
    let mut frame = start_frame(1, 0, 0);
    for _step in 0..4 {
        assert!(rt; matches!(fetch(&mut frame, &mut memory, &script), Act::Computed));
    }
    assert_eq!(rt; frame.registers[3], 4_294_967_295);
    assert_eq!(rt; byte(&memory, 1), 44);
    assert_eq!(rt; frame.registers[4], 44);
    assert_eq!(rt; frame.place, 5);
    assert!(rt; matches!(fetch(&mut frame, &mut memory, &script), Act::Say(_)));
    assert!(rt; matches!(fetch(&mut frame, &mut memory, &script), Act::Fell));
    Ok(())
}

/// The call that a frame passed last is the one in which its task waits.
#[test]
fn the_call_before_is_known(rt: HostRuntime) -> Result<(), Fail> {
    let alloc = rt.alloc();
    let mut args = Sequence::new(alloc);
    args.push(Arg::Number(-1))?;
    let stmts = vec![in alloc;
        Stmt::Call {
            name: CallName::TkSlpTsk,
            args
        },
        Stmt::Nop,
    ]?;
    let script = script_of(alloc, stmts, 0)?;
    let mut memory = new_memory(alloc)?;
    let mut frame = start_frame(1, 0, 0);
    assert!(rt; matches!(fetch(&mut frame, &mut memory, &script), Act::Call(_)));
    assert_eq!(rt; call_before(&script, &frame), Some(CallName::TkSlpTsk));
    assert!(rt; matches!(fetch(&mut frame, &mut memory, &script), Act::Computed));
    assert_eq!(rt; call_before(&script, &frame), None);
    Ok(())
}
