//! The lines of a script, one by one. What was read so far is passed on from line to line.

ghost use Rattle.std.specs.Prelude.{◌≡◌};
ghost use Rattle.tk_model.specs.Lists.{texts};
ghost use Rattle.tk_raw.specs.Gives.{Gives};
ghost use Rattle.tk_raw.specs.RawReading.{body_line, boot_line, device_line, end_line, inside, irq_line, label_line, outside, pace_line, step, stmt_line, takes_body, takes_boot, takes_device, takes_irq, takes_pace};

use crate::bodies::{body_at, label_at};
use crate::builder::Builder;
use crate::errors::ReadError;
use crate::header::{boot_at, device_at, irq_at, pace_at};
use crate::open_body::OpenBody;
use crate::pieces::raw_stmt_at;
use crate::raw::RawBody;
use std::alloc::Global;
use tk_types::Why;

/// The most devices, interrupts and bodies of a script.
const MOST_DEVICES: usize = 8;

const MOST_IRQS: usize = 1024;

const MOST_BODIES: usize = 255;

/// Whether a `device` line may stand next.
#[tactic(auto, unfolding(crate::specs::RawReading::takes_device))]
fn takes_device(builder: &Builder) -> bool
    ensures { result ≡ takes_device builder.now }
{
    builder.boot.is_none()
        && builder.pace.is_none()
        && builder.irqs.is_empty()
        && builder.devices.len() < MOST_DEVICES
}

/// Whether a `pace` line may stand next.
#[tactic(auto, unfolding(crate::specs::RawReading::takes_pace))]
fn takes_pace(builder: &Builder) -> bool
    ensures { result ≡ takes_pace builder.now }
{
    builder.boot.is_none() && builder.pace.is_none() && builder.irqs.is_empty()
}

/// Whether an `irq` line may stand next.
#[tactic(auto, unfolding(crate::specs::RawReading::takes_irq))]
fn takes_irq(builder: &Builder) -> bool
    ensures { result ≡ takes_irq builder.now }
{
    builder.boot.is_none() && builder.irqs.len() < MOST_IRQS
}

/// Whether the `boot` line may stand next.
#[tactic(auto, unfolding(crate::specs::RawReading::takes_boot))]
fn takes_boot(builder: &Builder) -> bool
    ensures { result ≡ takes_boot builder.now }
{
    builder.boot.is_none()
}

/// Whether a `body` line may stand next.
#[tactic(auto, unfolding(crate::specs::RawReading::takes_body))]
fn takes_body(builder: &Builder) -> bool
    ensures { result ≡ takes_body builder.now }
{
    builder.boot.is_some() && builder.bodies.len() < MOST_BODIES
}

/// A `device` line.
#[tactic(auto, unfolding(crate::specs::RawReading::device_line))]
fn device_line(mut builder: Builder, words: &[&[u8]]) -> Result<Builder, ReadError>
    ensures { Gives (λ builder. builder) result (device_line builder (texts words.now)) }
{
    if !takes_device(&builder) {
        return Err(ReadError::Refused(Why::Order));
    }
    let device = device_at(builder.devices.as_slice(), words)?;
    builder.devices.push(device)?;
    Ok(builder)
}

/// A `pace` line.
#[tactic(auto, unfolding(crate::specs::RawReading::pace_line))]
fn pace_line(mut builder: Builder, words: &[&[u8]]) -> Result<Builder, ReadError>
    ensures { Gives (λ builder. builder) result (pace_line builder (texts words.now)) }
{
    if !takes_pace(&builder) {
        return Err(ReadError::Refused(Why::Order));
    }
    let pace = pace_at(words)?;
    builder.pace = Some(pace);
    Ok(builder)
}

/// An `irq` line.
#[tactic(auto, unfolding(crate::specs::RawReading::irq_line))]
fn irq_line(mut builder: Builder, words: &[&[u8]]) -> Result<Builder, ReadError>
    ensures { Gives (λ builder. builder) result (irq_line builder (texts words.now)) }
{
    if !takes_irq(&builder) {
        return Err(ReadError::Refused(Why::Order));
    }
    let irq = irq_at(builder.irqs.as_slice(), words)?;
    builder.irqs.push(irq)?;
    Ok(builder)
}

/// The `boot` line.
#[tactic(auto, unfolding(crate::specs::RawReading::boot_line))]
fn boot_line(mut builder: Builder, words: &[&[u8]]) -> Result<Builder, ReadError>
    ensures { Gives (λ builder. builder) result (boot_line builder (texts words.now)) }
{
    if !takes_boot(&builder) {
        return Err(ReadError::Refused(Why::Order));
    }
    let boot = boot_at(words)?;
    builder.boot = Some(boot);
    Ok(builder)
}

/// A `body` line.
#[tactic(auto, unfolding(crate::specs::RawReading::body_line))]
fn body_line(alloc: Global, mut builder: Builder, words: &[&[u8]]) -> Result<Builder, ReadError>
    ensures { Gives (λ builder. builder) result (body_line builder (texts words.now)) }
{
    if !takes_body(&builder) {
        return Err(ReadError::Refused(Why::Order));
    }
    let body = body_at(alloc, builder.bodies.as_slice(), words)?;
    builder.current = Some(body);
    Ok(builder)
}

/// A line outside the bodies.
#[tactic(auto, unfolding(crate::specs::RawReading::outside))]
fn outside(
    alloc: Global,
    builder: Builder,
    first: &[u8],
    words: &[&[u8]],
) -> Result<Builder, ReadError>
    ensures { Gives (λ builder. builder) result (outside builder first.now (texts words.now)) }
{
    if first == b"device".as_slice() {
        return device_line(builder, words);
    }
    if first == b"pace".as_slice() {
        return pace_line(builder, words);
    }
    if first == b"irq".as_slice() {
        return irq_line(builder, words);
    }
    if first == b"boot".as_slice() {
        return boot_line(builder, words);
    }
    if first == b"body".as_slice() {
        return body_line(alloc, builder, words);
    }
    Err(ReadError::Refused(Why::Order))
}

/// The `end` of a body.
#[tactic(auto, unfolding(crate::specs::RawReading::end_line))]
fn end_line(mut builder: Builder, body: RawBody, words: &[&[u8]]) -> Result<Builder, ReadError>
    ensures { Gives (λ builder. builder) result (end_line builder body (texts words.now)) }
{
    match words {
        [] => {
            builder.bodies.push(body)?;
            builder.current = None;
            Ok(builder)
        }
        [_word, ..] => Err(ReadError::Refused(Why::Count)),
    }
}

/// A `label` line.
#[tactic(auto, unfolding(crate::specs::RawReading::label_line))]
fn label_line(
    alloc: Global,
    mut builder: Builder,
    body: OpenBody,
    words: &[&[u8]],
) -> Result<Builder, ReadError>
    ensures { Gives (λ builder. builder) result (label_line builder body (texts words.now)) }
{
    let name = label_at(&body, words)?;
    let body = body.with_label(alloc, name)?;
    builder.current = Some(body);
    Ok(builder)
}

/// A line with a statement.
#[tactic(auto, unfolding(crate::specs::RawReading::stmt_line))]
fn stmt_line(
    alloc: Global,
    mut builder: Builder,
    body: OpenBody,
    first: &[u8],
    words: &[&[u8]],
) -> Result<Builder, ReadError>
    ensures { Gives (λ builder. builder) result (stmt_line builder body first.now (texts words.now)) }
{
    let stmt = raw_stmt_at(alloc, first, words)?;
    let body = body.with_stmt(stmt)?;
    builder.current = Some(body);
    Ok(builder)
}

/// A line inside a body.
#[tactic(auto, unfolding(crate::specs::RawReading::inside))]
fn inside(
    alloc: Global,
    builder: Builder,
    body: OpenBody,
    first: &[u8],
    words: &[&[u8]],
) -> Result<Builder, ReadError>
    ensures { Gives (λ builder. builder) result (inside builder body first.now (texts words.now)) }
{
    if first == b"end".as_slice() {
        return end_line(builder, body.into_body(), words);
    }
    if first == b"label".as_slice() {
        return label_line(alloc, builder, body, words);
    }
    stmt_line(alloc, builder, body, first, words)
}

/// A line with words.
#[tactic(auto, unfolding(crate::specs::RawReading::step))]
pub(crate) fn step(
    alloc: Global,
    builder: Builder,
    first: &[u8],
    words: &[&[u8]],
) -> Result<Builder, ReadError>
    ensures { Gives (λ builder. builder) result (step builder first.now (texts words.now)) }
{
    let Builder {
        devices,
        pace,
        irqs,
        boot,
        bodies,
        current,
    } = builder;
    let builder = Builder {
        devices,
        pace,
        irqs,
        boot,
        bodies,
        current: None,
    };
    match current {
        None => outside(alloc, builder, first, words),
        Some(body) => inside(alloc, builder, body, first, words),
    }
}
