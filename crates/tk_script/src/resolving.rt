//! Statements, with the names in them looked up.

ghost use Rattle.std.specs.Prelude.{◌≡◌, ◌<◌, ◌^◌, length};
ghost use Rattle.tk_script.specs.Gives.{Gives};
ghost use Rattle.tk_script.specs.Resolving.{arg_of, args_from, body_arg, branch_of, call_from, call_of, compute_of, condition_of, jump_of, label_of, load_of, may_call, name_of, named_arg, operand_of, plain_of, register_of, return_from, return_of, say_of, show_of, stmt_by, store_of};

use crate::errors::StepError;
use crate::labels::Labels;
use crate::names::{body_number, same_kind};
use std::alloc::Global;
use tk_raw::{Head, Piece, RawBody};
use tk_types::{
    Arg, ArgumentKind, BodyKind, CallName, Condition, Label, Name, Operand, Operation, Sequence,
    Stmt, Why,
};

/// How a jump compares its register with its value.
#[derive(Clone, Copy, Debug, PartialEq, Eq)]
pub(crate) enum Comparison {
    Equal,
    NotEqual,
    Less,
}

/// The register that a piece is.
#[tactic(auto, unfolding(crate::specs::Resolving::register_of))]
fn register_of(piece: Piece) -> Result<u8, Why>
    ensures { result ≡ register_of piece }
{
    match piece {
        Piece::Register(register) => Ok(register),
        _ => Err(Why::Unknown),
    }
}

/// The number or register that a piece is.
#[tactic(auto, unfolding(crate::specs::Resolving::operand_of))]
fn operand_of(piece: Piece) -> Result<Operand, Why>
    ensures { result ≡ operand_of piece }
{
    match piece {
        Piece::Number(number) => Ok(Operand::Number(number)),
        Piece::Register(register) => Ok(Operand::Register(register)),
        _ => Err(Why::Unknown),
    }
}

/// The name that a piece is.
#[tactic(auto, unfolding(crate::specs::Resolving::name_of))]
fn name_of(piece: Piece) -> Result<Name, Why>
    ensures { result ≡ name_of piece }
{
    match piece {
        Piece::Name(name) => Ok(name),
        _ => Err(Why::Unknown),
    }
}

/// The place of the label that a piece names.
#[tactic(auto, unfolding(crate::specs::Resolving::label_of))]
fn label_of(labels: &Labels, piece: Piece) -> Result<u32, Why>
    ensures { result ≡ label_of labels.now piece }
{
    match piece {
        Piece::Name(name) => labels.number(name.as_bytes()),
        _ => Err(Why::Unknown),
    }
}

fn body_arg(number: Result<u8, Why>) -> Result<Arg, Why>
    ensures { result ≡ body_arg number }
{
    match number {
        Ok(number) => Ok(Arg::Body(number)),
        Err(why) => Err(why),
    }
}

/// The argument that a name is in a place of that kind.
#[tactic(auto, unfolding(crate::specs::Resolving::named_arg))]
fn named_arg(bodies: &[RawBody], kind: ArgumentKind, name: Name) -> Result<Arg, Why>
    ensures { result ≡ named_arg bodies.now kind name }
{
    match kind {
        ArgumentKind::TaskBody => { body_arg(body_number(bodies, BodyKind::Task, name.as_bytes())) }
        ArgumentKind::HandlerBody => {
            body_arg(body_number(bodies, BodyKind::Hand, name.as_bytes()))
        }
        ArgumentKind::HandlerBodyOrNone => {
            body_arg(body_number(bodies, BodyKind::Hand, name.as_bytes()))
        }
        ArgumentKind::ServiceBodyOrNone => {
            body_arg(body_number(bodies, BodyKind::Svc, name.as_bytes()))
        }
        ArgumentKind::Value => Ok(Arg::Name(name)),
        ArgumentKind::Attributes => Ok(Arg::Name(name)),
        ArgumentKind::FlagMode => Ok(Arg::Name(name)),
        ArgumentKind::OpenMode => Ok(Arg::Name(name)),
        ArgumentKind::SuspendMode => Ok(Arg::Name(name)),
        ArgumentKind::DeviceName => Ok(Arg::Name(name)),
        ArgumentKind::Register => Ok(Arg::Name(name)),
        ArgumentKind::Label => Ok(Arg::Name(name)),
        ArgumentKind::Text => Ok(Arg::Name(name)),
    }
}

/// The argument that a piece is in a place of that kind.
#[tactic(auto, unfolding(crate::specs::Resolving::arg_of))]
fn arg_of(bodies: &[RawBody], kind: ArgumentKind, piece: Piece) -> Result<Arg, Why>
    ensures { result ≡ arg_of bodies.now kind piece }
{
    match piece {
        Piece::Number(number) => Ok(Arg::Number(number)),
        Piece::Register(register) => Ok(Arg::Register(register)),
        Piece::List(bits) => Ok(Arg::List(bits)),
        Piece::Name(name) => named_arg(bodies, kind, name),
        Piece::Dash => Ok(Arg::Body(0)),
    }
}

/// The arguments of a call, from left to right, behind those that are there already.
#[tactic(auto, unfolding(crate::specs::Resolving::args_from))]
fn args_from(
    bodies: &[RawBody],
    form: &[ArgumentKind],
    pieces: &[Piece],
    mut args: Sequence<Arg>,
) -> Result<Sequence<Arg>, StepError>
    ensures { Gives result (args_from bodies.now form.now pieces.now args) }
{
    match form {
        [] => Ok(args),
        [kind, form @ ..] => match pieces {
            [] => Ok(args),
            [piece, pieces @ ..] => {
                let arg = arg_of(bodies, *kind, *piece)?;
                args.push(arg)?;
                args_from(bodies, form, pieces, args)
            }
        },
    }
}

/// A statement that computes.
#[tactic(auto, unfolding(crate::specs::Resolving::compute_of))]
fn compute_of(operation: Operation, pieces: &[Piece]) -> Result<Stmt, Why>
    ensures { result ≡ compute_of operation pieces.now }
{
    match pieces {
        [register, value] => {
            let register = register_of(*register)?;
            let value = operand_of(*value)?;
            Ok(Stmt::Compute {
                operation,
                register,
                value,
            })
        }
        _ => Err(Why::Unknown),
    }
}

/// A statement that reads a byte.
#[tactic(auto, unfolding(crate::specs::Resolving::load_of))]
fn load_of(pieces: &[Piece]) -> Result<Stmt, Why>
    ensures { result ≡ load_of pieces.now }
{
    match pieces {
        [register, address] => {
            let register = register_of(*register)?;
            let address = operand_of(*address)?;
            Ok(Stmt::Load { register, address })
        }
        _ => Err(Why::Unknown),
    }
}

/// A statement that writes a byte.
#[tactic(auto, unfolding(crate::specs::Resolving::store_of))]
fn store_of(pieces: &[Piece]) -> Result<Stmt, Why>
    ensures { result ≡ store_of pieces.now }
{
    match pieces {
        [address, value] => {
            let address = operand_of(*address)?;
            let value = operand_of(*value)?;
            Ok(Stmt::Store { address, value })
        }
        _ => Err(Why::Unknown),
    }
}

/// A jump that is always taken.
#[tactic(auto, unfolding(crate::specs::Resolving::jump_of))]
fn jump_of(labels: &Labels, pieces: &[Piece]) -> Result<Stmt, Why>
    ensures { result ≡ jump_of labels.now pieces.now }
{
    match pieces {
        [label] => {
            let label = label_of(labels, *label)?;
            Ok(Stmt::Jump {
                condition: Condition::Always,
                label,
            })
        }
        _ => Err(Why::Unknown),
    }
}

#[tactic(auto, unfolding(crate::specs::Resolving::condition_of))]
fn condition_of(comparison: Comparison, register: u8, value: Operand) -> Condition
    ensures { result ≡ condition_of comparison register value }
{
    match comparison {
        Comparison::Equal => Condition::Equal(register, value),
        Comparison::NotEqual => Condition::NotEqual(register, value),
        Comparison::Less => Condition::Less(register, value),
    }
}

/// A jump that compares.
#[tactic(auto, unfolding(crate::specs::Resolving::branch_of))]
fn branch_of(labels: &Labels, comparison: Comparison, pieces: &[Piece]) -> Result<Stmt, Why>
    ensures { result ≡ branch_of labels.now comparison pieces.now }
{
    match pieces {
        [register, value, label] => {
            let register = register_of(*register)?;
            let value = operand_of(*value)?;
            let label = label_of(labels, *label)?;
            Ok(Stmt::Jump {
                condition: condition_of(comparison, register, value),
                label,
            })
        }
        _ => Err(Why::Unknown),
    }
}

/// A statement that prints a name.
#[tactic(auto, unfolding(crate::specs::Resolving::say_of))]
fn say_of(pieces: &[Piece]) -> Result<Stmt, Why>
    ensures { result ≡ say_of pieces.now }
{
    match pieces {
        [name] => {
            let name = name_of(*name)?;
            Ok(Stmt::Say(name))
        }
        _ => Err(Why::Unknown),
    }
}

/// A statement that prints a value.
#[tactic(auto, unfolding(crate::specs::Resolving::show_of))]
fn show_of(pieces: &[Piece]) -> Result<Stmt, Why>
    ensures { result ≡ show_of pieces.now }
{
    match pieces {
        [value] => {
            let value = operand_of(*value)?;
            Ok(Stmt::Show(value))
        }
        _ => Err(Why::Unknown),
    }
}

/// A statement without arguments.
#[tactic(auto, unfolding(crate::specs::Resolving::plain_of))]
fn plain_of(stmt: Stmt, pieces: &[Piece]) -> Result<Stmt, Why>
    ensures { result ≡ plain_of stmt pieces.now }
{
    match pieces {
        [] => Ok(stmt),
        [_piece, ..] => Err(Why::Unknown),
    }
}

#[tactic(auto, unfolding(crate::specs::Resolving::return_from))]
fn return_from(pieces: &[Piece]) -> Result<Stmt, Why>
    ensures { result ≡ return_from pieces.now }
{
    match pieces {
        [value] => {
            let value = operand_of(*value)?;
            Ok(Stmt::Return(value))
        }
        _ => Err(Why::Unknown),
    }
}

/// `return`, which stands in no task body.
#[tactic(auto, unfolding(crate::specs::Resolving::return_of))]
fn return_of(kind: BodyKind, pieces: &[Piece]) -> Result<Stmt, Why>
    ensures { result ≡ return_of kind pieces.now }
{
    if same_kind(kind, BodyKind::Task) {
        Err(Why::Kind)
    } else {
        return_from(pieces)
    }
}

/// Whether a call may stand in a body of that kind: those that end a task stand in task bodies only.
#[tactic(auto, unfolding(crate::specs::Resolving::may_call))]
fn may_call(kind: BodyKind, name: CallName) -> bool
    ensures { result ≡ may_call kind name }
{
    match name {
        CallName::TkExtTsk => same_kind(kind, BodyKind::Task),
        CallName::TkExdTsk => same_kind(kind, BodyKind::Task),
        _ => true,
    }
}

#[tactic(auto, unfolding(crate::specs::Resolving::call_from))]
fn call_from(
    alloc: Global,
    bodies: &[RawBody],
    name: CallName,
    pieces: &[Piece],
) -> Result<Stmt, StepError>
    ensures { Gives result (call_from bodies.now name pieces.now) }
{
    let args = args_from(bodies, name.form(), pieces, Sequence::new(alloc))?;
    Ok(Stmt::Call { name, args })
}

/// A system call.
#[tactic(auto, unfolding(crate::specs::Resolving::call_of))]
fn call_of(
    alloc: Global,
    bodies: &[RawBody],
    kind: BodyKind,
    name: CallName,
    pieces: &[Piece],
) -> Result<Stmt, StepError>
    ensures { Gives result (call_of bodies.now kind name pieces.now) }
{
    if may_call(kind, name) {
        call_from(alloc, bodies, name, pieces)
    } else {
        Err(StepError::Refused(Why::Kind))
    }
}

/// The answer to a statement that takes no memory.
fn without_memory(stmt: Result<Stmt, Why>) -> Result<Stmt, StepError>
    ensures { Gives result stmt }
{
    match stmt {
        Ok(stmt) => Ok(stmt),
        Err(why) => Err(StepError::Refused(why)),
    }
}

/// The statement with that first word, in a body of that kind with those labels. It takes no memory but for the
/// arguments of a call.
#[tactic(auto, unfolding(crate::specs::Resolving::stmt_by))]
pub(crate) fn stmt_by(
    alloc: Global,
    bodies: &[RawBody],
    labels: &Labels,
    kind: BodyKind,
    head: Head,
    pieces: &[Piece],
) -> Result<Stmt, StepError>
    ensures { Gives result (stmt_by bodies.now labels.now kind head pieces.now) }
{
    match head {
        Head::Set => without_memory(compute_of(Operation::Set, pieces)),
        Head::Add => without_memory(compute_of(Operation::Add, pieces)),
        Head::Sub => without_memory(compute_of(Operation::Sub, pieces)),
        Head::Mul => without_memory(compute_of(Operation::Mul, pieces)),
        Head::And => without_memory(compute_of(Operation::And, pieces)),
        Head::Or => without_memory(compute_of(Operation::Or, pieces)),
        Head::Xor => without_memory(compute_of(Operation::Xor, pieces)),
        Head::Ldb => without_memory(load_of(pieces)),
        Head::Stb => without_memory(store_of(pieces)),
        Head::Jump => without_memory(jump_of(labels, pieces)),
        Head::Jeq => without_memory(branch_of(labels, Comparison::Equal, pieces)),
        Head::Jne => without_memory(branch_of(labels, Comparison::NotEqual, pieces)),
        Head::Jlt => without_memory(branch_of(labels, Comparison::Less, pieces)),
        Head::Say => without_memory(say_of(pieces)),
        Head::Show => without_memory(show_of(pieces)),
        Head::Nop => without_memory(plain_of(Stmt::Nop, pieces)),
        Head::Halt => without_memory(plain_of(Stmt::Halt, pieces)),
        Head::Return => without_memory(return_of(kind, pieces)),
        Head::Call(name) => call_of(alloc, bodies, kind, name, pieces),
    }
}
