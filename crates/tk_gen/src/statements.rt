//! The statements of the bodies of a generated script.

ghost use Rattle.std.specs.Prelude.{◌≡◌, ◌≤◌, ◌<◌, ◌*◌, ◌++◌, ◌∷◌, [], IfOk, OnOk, codes, length, pos};
ghost use Rattle.machine_model.specs.Runs.Generator.{drawn_call, drawn_statements, main_statements, making_from};
ghost use Rattle.tk_gen.specs.Objects.{objects_made};

use std::alloc::Global;
use tk_types::{Arg, CallName, Name, OutOfMemory, Sequence, Stmt};

/// The attribute of a mutex that its owner inherits priorities.
const INHERIT: u32 = 16_384;

/// The mode in which a device is opened to be read and written.
const UPDATE: u32 = 4;

/// A statement that makes a call.
fn call(alloc: Global, name: CallName, args: &[Arg]) -> Result<Stmt, OutOfMemory>
    ensures { IfOk result (λ stmt. stmt ≡ Stmt.Call name args.now) }
{
    Ok(Stmt::Call {
        name,
        args: Sequence::from_vec(Vec::from_slice(alloc, args)?),
    })
}

/// A number as an argument.
fn number(value: u16) -> Arg
    ensures { result ≡ Arg.Number (pos value) }
{
    Arg::Number(i32::from(value))
}

/// The statement of a task that two draws give: the first is that of one of eight calls, the second a number for it.
fn drawn_call(alloc: Global, which: u16, a: u16) -> Result<Stmt, OutOfMemory>
    ensures { IfOk result (λ stmt. stmt ≡ drawn_call which a) }
{
    match which {
        0 => call(alloc, CallName::TkSigSem, &[number(1), number(1)]),
        1 => call(
            alloc,
            CallName::TkWaiSem,
            &[number(1), number(1), number(a)],
        ),
        2 => call(alloc, CallName::TkLocMtx, &[number(1), number(a)]),
        3 => call(alloc, CallName::TkUnlMtx, &[number(1)]),
        4 => call(
            alloc,
            CallName::TkSndMbf,
            &[number(1), number(0), number(8), number(a)],
        ),
        5 => call(
            alloc,
            CallName::TkRcvMbf,
            &[number(1), number(64), number(a)],
        ),
        6 => call(alloc, CallName::TkDlyTsk, &[number(a)]),
        _ => call(
            alloc,
            CallName::TkSwriDev,
            &[number(1), number(a), number(0), number(16)],
        ),
    }
}

/// So many statements of a task, two draws each.
pub(crate) fn drawn_statements(
    alloc: Global,
    count: usize,
    draws: &[u16],
) -> Result<Sequence<Stmt>, OutOfMemory>
    requires { 2 * count ≤ length draws.now }
    ensures { IfOk result (λ list. list ≡ drawn_statements count draws.now) }
{
    let mut list = Sequence::new(alloc);
    'drawing: for k in 0..count {
        let stmt = drawn_call(alloc, draws[2 * k] % 8, draws[2 * k + 1] % 16)?;
        list.push(stmt)?;
    }
    Ok(list)
}

/// Puts the two statements that make and start a task behind others. Task `task`, of 254 at most, begins the body with its number
/// behind that of the boot body, and a draw gives its priority.
#[tactic(auto, using(std::proofs::Common::append_assoc), unfolding(machine_model::specs::Runs::Generator::making_from))]
fn push_making(
    alloc: Global,
    list: &mut Sequence<Stmt>,
    task: u8,
    draw: u16,
) -> Result<(), OutOfMemory>
    requires { task < 255 }
    ensures { OnOk result (list.new ≡ list.old ++ making_from task (draw ∷ [])) }
{
    let priority = number(1 + draw % 100);
    let body = Arg::Body(task + 1);
    let made = call(
        alloc,
        CallName::TkCreTsk,
        &[Arg::List(0), body, priority, number(256)],
    )?;
    list.push(made)?;
    let id = number(u16::from(task) + 1);
    let started = call(alloc, CallName::TkStaTsk, &[id, number(0)])?;
    list.push(started)?;
    Ok(())
}

/// Puts the statements that make the objects which all tasks share behind others: a semaphore, a mutex and a message buffer. The
/// device is opened behind them.
fn push_objects(alloc: Global, list: &mut Sequence<Stmt>, device: Name) -> Result<(), OutOfMemory>
    ensures { OnOk result (list.new ≡ list.old ++ objects_made device) }
{
    let none = Arg::List(0);
    list.push(call(alloc, CallName::TkCreSem, &[none, number(4), number(100)])?)?;
    list.push(call(alloc, CallName::TkCreMtx, &[Arg::List(INHERIT), number(0)])?)?;
    list.push(call(alloc, CallName::TkCreMbf, &[none, number(1024), number(32)])?)?;
    list.push(call(
        alloc,
        CallName::TkOpnDev,
        &[Arg::Name(device), Arg::List(UPDATE)],
    )?)
}

/// The statements of the boot body, with a draw for the priority of each task, of 254 at most.
pub(crate) fn main_statements(
    alloc: Global,
    device: Name,
    priorities: &[u16],
) -> Result<Sequence<Stmt>, OutOfMemory>
    requires name { device ≡ codes "d1" }
    requires few { length priorities.now ≤ 254 }
    ensures { IfOk result (λ list. list ≡ main_statements priorities.now) }
{
    let mut list = Sequence::new(alloc);
    push_objects(alloc, &mut list, device)?;
    let mut task = 1;
    'making: for draw in priorities {
        push_making(alloc, &mut list, task, *draw)?;
        task += 1;
    }
    Ok(list)
}
