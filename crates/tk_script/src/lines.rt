//! The lines of a script, with the names in them looked up, in order. The first line with a name that stands for
//! nothing is refused.

ghost use Rattle.std.specs.Prelude.{◌≡◌, ◌+◌, ◌<◌, ◌≤◌, ◌^◌, [], length, drop, IfOk, slice_index};
ghost use Rattle.tk_types.specs.declared.script.BodyKind.TheVariants.{Task};
ghost use Rattle.tk_script.specs.Gives.{Gives, GivesLine};
ghost use Rattle.tk_script.specs.Resolving.{AreShort, IsShort, at_line, behind_body, bodies_from, bodies_with, body_number, body_of, boot_numbers, boot_of, first_number, labels_of, labels_with, pace_count, place_behind, resolved, stmt_by, stmts_from, stmts_with};

use crate::errors::{LineError, StepError};
use crate::labels::Labels;
use crate::names::body_number;
use crate::numbers::{behind, behind_body, boot_numbers, first_number};
use crate::resolving::stmt_by;
use std::alloc::Global;
use tk_raw::{RawBody, RawBoot, RawItem, RawScript, RawStmt};
use tk_types::{Body, BodyKind, Boot, Label, OutOfMemory, Script, Sequence, Stmt};

/// The labels with that of a line, before which so many statements stand.
fn labels_with(
    alloc: Global,
    labels: Labels,
    place: u32,
    item: &RawItem,
) -> Result<Labels, OutOfMemory>
    requires { length labels < 2 ^ 32 }
    ensures { IfOk result (λ grown. grown ≡ labels_with place item.now labels) }
{
    match item {
        RawItem::Label(name) => labels.with_label(alloc, Label { name: *name, place }),
        RawItem::Stmt(_) => Ok(labels),
    }
}

/// How many statements stand before the next line.
fn place_behind(item: &RawItem, place: u32) -> u32
    requires { place + 1 < 2 ^ 32 }
    ensures { result ≡ place_behind item.now place }
{
    match item {
        RawItem::Label(_) => place,
        RawItem::Stmt(_) => place + 1,
    }
}

/// The labels of the lines of a body, each with the number of statements before it.
fn labels_of(alloc: Global, items: &[RawItem]) -> Result<Labels, OutOfMemory>
    requires { length items.now < 2 ^ 32 }
    ensures value { IfOk result (λ labels. labels ≡ labels_of items.now) }
    ensures within { IfOk result (λ labels. length labels ≤ length items.now) }
{
    let mut labels = Labels::new(alloc);
    let mut place: u32 = 0;
    'lines: for item in items {
        labels = labels_with(alloc, labels, place, item)?;
        place = place_behind(item, place);
    }
    Ok(labels)
}

/// The statement of a line with that number.
fn stmt_in(
    alloc: Global,
    bodies: &[RawBody],
    labels: &Labels,
    kind: BodyKind,
    number: u32,
    stmt: &RawStmt,
) -> Result<Stmt, LineError>
    ensures { GivesLine result (at_line number (stmt_by bodies.now labels.now kind stmt.now.head stmt.now.pieces)) }
{
    match stmt_by(
        alloc,
        bodies,
        labels,
        kind,
        stmt.head,
        stmt.pieces.as_slice(),
    ) {
        Ok(found) => Ok(found),
        Err(StepError::Memory) => Err(LineError::Memory),
        Err(StepError::Refused(why)) => Err(LineError::Refused { line: number, why }),
    }
}

/// The statements with that of a line; a label adds none.
#[tactic(auto, unfolding(crate::specs::Resolving::stmts_with))]
fn stmts_with(
    alloc: Global,
    bodies: &[RawBody],
    labels: &Labels,
    kind: BodyKind,
    number: u32,
    item: &RawItem,
    mut stmts: Sequence<Stmt>,
) -> Result<Sequence<Stmt>, LineError>
    ensures { GivesLine result (stmts_with bodies.now labels.now kind number item.now stmts) }
{
    match item {
        RawItem::Label(_) => Ok(stmts),
        RawItem::Stmt(stmt) => {
            let found = stmt_in(alloc, bodies, labels, kind, number, stmt)?;
            stmts.push(found)?;
            Ok(stmts)
        }
    }
}

/// The statements of the lines of a body. The numbers begin at the first of these lines.
fn stmts_from(
    alloc: Global,
    bodies: &[RawBody],
    labels: &Labels,
    kind: BodyKind,
    numbers: &[u32],
    items: &[RawItem],
) -> Result<Sequence<Stmt>, LineError>
    ensures { GivesLine result (stmts_from bodies.now labels.now kind numbers.now items.now []) }
{
    let mut stmts = Sequence::new(alloc);
    let mut left = numbers;
    'lines: for item in items {
        match stmts_with(alloc, bodies, labels, kind, first_number(left), item, stmts) {
            Ok(next) => stmts = next,
            Err(error) => return Err(error),
        }
        left = behind(1, left);
    }
    Ok(stmts)
}

/// A body. The numbers begin at its first line.
#[tactic(auto, unfolding(crate::specs::Resolving::body_of))]
fn body_of(
    alloc: Global,
    bodies: &[RawBody],
    numbers: &[u32],
    body: &RawBody,
) -> Result<Body, LineError>
    requires { IsShort body.now }
    ensures { GivesLine result (body_of bodies.now numbers.now body.now) }
{
    let items = body.items.as_slice();
    let labels = labels_of(alloc, items)?;
    let stmts = stmts_from(alloc, bodies, &labels, body.kind, behind(1, numbers), items)?;
    Ok(Body {
        name: body.name,
        kind: body.kind,
        labels: labels.into_sequence(),
        stmts,
    })
}

/// The bodies with that one.
#[tactic(auto, unfolding(crate::specs::Resolving::bodies_with))]
fn bodies_with(
    alloc: Global,
    bodies: &[RawBody],
    numbers: &[u32],
    body: &RawBody,
    mut done: Sequence<Body>,
) -> Result<Sequence<Body>, LineError>
    requires { IsShort body.now }
    ensures { GivesLine result (bodies_with bodies.now numbers.now body.now done) }
{
    let found = body_of(alloc, bodies, numbers, body)?;
    done.push(found)?;
    Ok(done)
}

/// The bodies. The numbers begin at the first line of the first of them.
fn bodies_from(
    alloc: Global,
    bodies: &[RawBody],
    numbers: &[u32],
) -> Result<Sequence<Body>, LineError>
    requires { AreShort bodies.now }
    ensures { GivesLine result (bodies_from bodies.now numbers.now bodies.now []) }
{
    let mut done = Sequence::new(alloc);
    let mut left = numbers;
    'bodies: for body in bodies {
        match bodies_with(alloc, bodies, left, body, done) {
            Ok(next) => done = next,
            Err(error) => return Err(error),
        }
        left = behind_body(body, left);
    }
    Ok(done)
}

/// The number of the body of the task at the start.
#[tactic(auto, unfolding(crate::specs::Resolving::boot_of))]
fn boot_of(raw: &RawScript) -> Result<u8, LineError>
    ensures { GivesLine result (boot_of raw.now) }
{
    let name = raw.boot.body;
    match body_number(raw.bodies.as_slice(), BodyKind::Task, name.as_bytes()) {
        Ok(number) => Ok(number),
        Err(why) => Err(LineError::Refused {
            line: first_number(boot_numbers(raw)),
            why,
        }),
    }
}

/// The script with its names looked up, or the first line with a name that stands for nothing that may stand there.
#[tactic(auto, unfolding(crate::specs::Resolving::resolved))]
pub(crate) fn resolved(alloc: Global, raw: RawScript) -> Result<Script, LineError>
    requires { AreShort raw.bodies }
    ensures { GivesLine result (resolved raw) }
{
    let boot = boot_of(&raw)?;
    let found = bodies_from(alloc, raw.bodies.as_slice(), behind(1, boot_numbers(&raw)))?;
    let RawScript {
        devices,
        pace,
        irqs,
        boot: RawBoot { priority, .. },
        ..
    } = raw;
    Ok(Script {
        devices,
        pace,
        irqs,
        boot: Boot {
            body: boot,
            priority,
        },
        bodies: found,
    })
}
