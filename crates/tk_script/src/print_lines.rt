//! Bodies and headers as printed lines.

ghost use Rattle.std.specs.Prelude.{◌≡◌, ◌++◌, ◌∷◌, ◌-◌, [], ℕ, OnOk, IfOk, map, take, drop, flat_map, codes};
ghost use Rattle.tk_model.specs.ScriptText.{stmt_words, label_words, item_lines, body_kind_word, body_lines, unit_words, device_words, pace_lines, irq_words, boot_words, head_words, printed_lines, line_text, printed, joined, gaps, body_word};
ghost use Rattle.tk_script.specs.Words.{lines_text};

use crate::print_statement::{print_stmt, put_body};
use crate::put::{put, put_end, put_next, put_next_natural};
use std::alloc::Global;
use tk_types::{Body, BodyKind, Boot, Device, Interrupt, Kind, Label, OutOfMemory, Script, Stmt};

/// Prints the lines of statements.
fn print_stmts(
    out: &mut Vec<u8>,
    bodies: &[Body],
    labels: &[Label],
    stmts: &[Stmt],
) -> Result<(), OutOfMemory>
    ensures { OnOk result (out.new.items ≡ out.old.items ++ lines_text (map (stmt_words bodies.now labels.now) stmts.now)) }
{
    'stmts: for stmt in stmts {
        print_stmt(out, bodies, labels, stmt)?;
    }
    Ok(())
}

/// Prints the line of a label.
#[tactic(auto, using(crate::proofs::Appends::line_of_two))]
fn print_label(out: &mut Vec<u8>, label: &Label) -> Result<(), OutOfMemory>
    ensures { OnOk result (out.new.items ≡ out.old.items ++ line_text (label_words label.now)) }
{
    put(out, b"label")?;
    put_next(out, label.name.as_bytes())?;
    put_end(out)
}

/// The statements from one place to another.
fn part(stmts: &[Stmt], from: usize, to: usize) -> &[Stmt]
    ensures { result.now ≡ take (to - from) (drop from stmts.now) }
{
    if from >= stmts.len() {
        return &[];
    }
    let rest = &stmts[from..];
    if to <= from {
        return &[];
    }
    if to - from >= rest.len() {
        return rest;
    }
    &rest[..to - from]
}

/// The statements from a place on.
fn rest_from(stmts: &[Stmt], from: usize) -> &[Stmt]
    ensures { result.now ≡ drop from stmts.now }
{
    if from >= stmts.len() {
        return &[];
    }
    &stmts[from..]
}

/// Prints the lines of statements, among them those of labels.
fn print_items(
    out: &mut Vec<u8>,
    bodies: &[Body],
    labels: &[Label],
    stmts: &[Stmt],
) -> Result<(), OutOfMemory>
    ensures { OnOk result (out.new.items ≡ out.old.items ++ lines_text (item_lines bodies.now labels.now stmts.now 0 labels.now)) }
{
    let mut from: usize = 0;
    'labels: for label in labels {
        let to = label.place as usize;
        print_stmts(out, bodies, labels, part(stmts, from, to))?;
        print_label(out, label)?;
        from = to;
    }
    print_stmts(out, bodies, labels, rest_from(stmts, from))
}

/// The word of a kind of body.
#[tactic(auto, unfolding(tk_model::specs::ScriptText::body_kind_word))]
fn body_kind_word(kind: BodyKind) -> &'static str
    ensures { result.now ≡ body_kind_word kind }
{
    match kind {
        BodyKind::Task => "task",
        BodyKind::Hand => "hand",
        BodyKind::Svc => "svc",
    }
}

/// Prints the first line of a body.
#[tactic(auto, using(crate::proofs::Appends::line_of_three))]
fn print_body_head(out: &mut Vec<u8>, body: &Body) -> Result<(), OutOfMemory>
    ensures { OnOk result (out.new.items ≡ out.old.items ++ line_text (codes "body" ∷ body.now.name ∷ body_kind_word body.now.kind ∷ [])) }
{
    put(out, b"body")?;
    put_next(out, body.name.as_bytes())?;
    put_next(out, body_kind_word(body.kind).as_bytes())?;
    put_end(out)
}

/// Prints the last line of a body.
#[tactic(auto, using(crate::proofs::Appends::line_of_one))]
fn print_body_end(out: &mut Vec<u8>) -> Result<(), OutOfMemory>
    ensures { OnOk result (out.new.items ≡ out.old.items ++ line_text (codes "end" ∷ [])) }
{
    put(out, b"end")?;
    put_end(out)
}

/// Prints the lines of a body.
#[tactic(auto, using(crate::proofs::Appends::body_text), unfolding(tk_model::specs::ScriptText::body_lines))]
fn print_body(out: &mut Vec<u8>, bodies: &[Body], body: &Body) -> Result<(), OutOfMemory>
    ensures { OnOk result (out.new.items ≡ out.old.items ++ lines_text (body_lines bodies.now body.now)) }
{
    print_body_head(out, body)?;
    print_items(out, bodies, body.labels.as_slice(), body.stmts.as_slice())?;
    print_body_end(out)
}

/// Prints the lines of bodies.
fn print_bodies(out: &mut Vec<u8>, bodies: &[Body]) -> Result<(), OutOfMemory>
    ensures { OnOk result (out.new.items ≡ out.old.items ++ lines_text (flat_map (body_lines bodies.now) bodies.now)) }
{
    'bodies: for body in bodies {
        print_body(out, bodies, body)?;
    }
    Ok(())
}

/// Puts a unit's word, and the numbers behind it, with a space before each.
#[tactic(auto, using(crate::proofs::Appends::gap_one, crate::proofs::Appends::gap_two, crate::proofs::Appends::gap_three), unfolding(tk_model::specs::ScriptText::unit_words))]
fn put_unit(out: &mut Vec<u8>, unit: Kind) -> Result<(), OutOfMemory>
    ensures { OnOk result (out.new.items ≡ out.old.items ++ gaps (unit_words unit)) }
{
    match unit {
        Kind::Ram(size) => {
            put_next(out, b"ram")?;
            put_next_natural(out, size)
        }
        Kind::Log => put_next(out, b"log"),
        Kind::Flaky(size, fails) => {
            put_next(out, b"flaky")?;
            put_next_natural(out, size)?;
            put_next_natural(out, fails)
        }
        Kind::Slow(size, turns) => {
            put_next(out, b"slow")?;
            put_next_natural(out, size)?;
            put_next_natural(out, turns)
        }
    }
}

/// Prints the line of a device.
#[tactic(auto, using(crate::proofs::Appends::two_and_words))]
fn print_device(out: &mut Vec<u8>, device: &Device) -> Result<(), OutOfMemory>
    ensures { OnOk result (out.new.items ≡ out.old.items ++ line_text (device_words device.now)) }
{
    put(out, b"device")?;
    put_next(out, device.name.as_bytes())?;
    put_unit(out, device.kind)?;
    put_end(out)
}

/// Prints the lines of devices.
fn print_devices(out: &mut Vec<u8>, devices: &[Device]) -> Result<(), OutOfMemory>
    ensures { OnOk result (out.new.items ≡ out.old.items ++ lines_text (map device_words devices.now)) }
{
    'devices: for device in devices {
        print_device(out, device)?;
    }
    Ok(())
}

/// Prints the line of the pace, if there is one.
#[tactic(auto, using(crate::proofs::Appends::no_line, crate::proofs::Appends::one_line_of_two))]
fn print_pace(out: &mut Vec<u8>, pace: Option<u32>) -> Result<(), OutOfMemory>
    ensures { OnOk result (out.new.items ≡ out.old.items ++ lines_text (pace_lines pace)) }
{
    match pace {
        None => Ok(()),
        Some(pace) => {
            put(out, b"pace")?;
            put_next_natural(out, pace)?;
            put_end(out)
        }
    }
}

/// Prints the line of an interrupt.
#[tactic(auto, using(crate::proofs::Appends::line_of_three))]
fn print_irq(out: &mut Vec<u8>, irq: &Interrupt) -> Result<(), OutOfMemory>
    ensures { OnOk result (out.new.items ≡ out.old.items ++ line_text (irq_words irq.now)) }
{
    put(out, b"irq")?;
    put_next_natural(out, irq.step)?;
    put_next_natural(out, u32::from(irq.number))?;
    put_end(out)
}

/// Prints the lines of interrupts.
fn print_irqs(out: &mut Vec<u8>, irqs: &[Interrupt]) -> Result<(), OutOfMemory>
    ensures { OnOk result (out.new.items ≡ out.old.items ++ lines_text (map irq_words irqs.now)) }
{
    'irqs: for irq in irqs {
        print_irq(out, irq)?;
    }
    Ok(())
}

/// Puts a space and the name of a body.
#[tactic(auto, using(std::proofs::Common::append_assoc))]
fn put_next_body(out: &mut Vec<u8>, bodies: &[Body], number: u8) -> Result<(), OutOfMemory>
    ensures { OnOk result (out.new.items ≡ out.old.items ++ (32 ∷ body_word bodies.now number)) }
{
    put(out, b" ")?;
    put_body(out, bodies, number)
}

/// Prints the boot line.
#[tactic(auto, using(crate::proofs::Appends::line_of_three))]
fn print_boot(out: &mut Vec<u8>, bodies: &[Body], boot: &Boot) -> Result<(), OutOfMemory>
    ensures { OnOk result (out.new.items ≡ out.old.items ++ line_text (boot_words bodies.now boot.now)) }
{
    put(out, b"boot")?;
    put_next_body(out, bodies, boot.body)?;
    put_next_natural(out, u32::from(boot.priority))?;
    put_end(out)
}

/// Prints the first line.
#[tactic(auto, unfolding(tk_model::specs::ScriptText::joined, tk_model::specs::ScriptText::gaps))]
fn print_head(out: &mut Vec<u8>) -> Result<(), OutOfMemory>
    ensures { OnOk result (out.new.items ≡ out.old.items ++ line_text head_words) }
{
    put(out, b"utk 1\n")
}

/// Prints the lines of a script.
#[tactic(auto, using(crate::proofs::Appends::script_text), unfolding(tk_model::specs::ScriptText::printed, tk_model::specs::ScriptText::printed_lines))]
fn print_all(out: &mut Vec<u8>, script: &Script) -> Result<(), OutOfMemory>
    ensures { OnOk result (out.new.items ≡ out.old.items ++ printed script.now) }
{
    print_head(out)?;
    print_devices(out, script.devices.as_slice())?;
    print_pace(out, script.pace)?;
    print_irqs(out, script.irqs.as_slice())?;
    print_boot(out, script.bodies.as_slice(), &script.boot)?;
    print_bodies(out, script.bodies.as_slice())
}

/// Writes the printed form of a script: one space between words, and a line feed behind each line.
pub fn print_script(alloc: Global, script: &Script) -> Result<Vec<u8>, OutOfMemory>
    ensures { IfOk result (λ text. text.items ≡ printed script.now) }
{
    let mut text = Vec::new(alloc);
    print_all(&mut text, script)?;
    Ok(text)
}
