//! The texts of lines.

ghost use Rattle.std.specs.Prelude.{◌≡◌, [], ◌∷◌, ◌++◌, length, map, take, codes, decimal, OnOk, OnErr};
ghost use Rattle.std.specs.Fmt.{signed_decimal};
ghost use Rattle.tk_types.specs.CallNames.{text_of};
ghost use Rattle.tk_model.specs.LineText.{error_of, value_text, answer_words, ending_words, handler_text, hook_words, end_words, spaced, text_of_line, text_of_lines};

use itoa::Buffer;
use tk_types::{Answer, CallName, Er, HandlerKind, Hook, LastLine, Line, LineEnding, OutOfMemory};

/// Puts bytes behind the text.
fn put(bytes: &[u8], out: &mut Vec<u8>) -> Result<(), OutOfMemory>
    ensures grown { OnOk result (out.new.items ≡ out.old.items ++ bytes.now) }
    ensures front { OnErr result (take (length out.old.items) out.new.items ≡ out.old.items) }
{
    out.extend_from_slice(bytes)?;
    Ok(())
}

/// Puts the decimal of a number behind the text.
fn put_natural(number: u64, out: &mut Vec<u8>) -> Result<(), OutOfMemory>
    ensures grown { OnOk result (out.new.items ≡ out.old.items ++ decimal number) }
    ensures front { OnErr result (take (length out.old.items) out.new.items ≡ out.old.items) }
{
    let mut buffer = Buffer::new();
    put(buffer.format(number).as_bytes(), out)
}

/// Puts the decimal of a number with a sign behind the text.
fn put_signed(number: i32, out: &mut Vec<u8>) -> Result<(), OutOfMemory>
    ensures grown { OnOk result (out.new.items ≡ out.old.items ++ signed_decimal number) }
    ensures front { OnErr result (take (length out.old.items) out.new.items ≡ out.old.items) }
{
    let mut buffer = Buffer::new();
    put(buffer.format(number).as_bytes(), out)
}

/// Puts a space and the spelling of a call behind the text.
fn put_call(call: CallName, out: &mut Vec<u8>) -> Result<(), OutOfMemory>
    ensures grown { OnOk result (out.new.items ≡ out.old.items ++ 32 ∷ text_of call) }
    ensures front { OnErr result (take (length out.old.items) out.new.items ≡ out.old.items) }
{
    put(b" ", out)?;
    put(call.text().as_bytes(), out)
}

/// Puts the number of a step and a tag behind the text.
fn put_step(step: u32, tag: &[u8], out: &mut Vec<u8>) -> Result<(), OutOfMemory>
    ensures grown { OnOk result (out.new.items ≡ out.old.items ++ (decimal step ++ tag.now)) }
    ensures front { OnErr result (take (length out.old.items) out.new.items ≡ out.old.items) }
{
    put_natural(u64::from(step), out)?;
    put(tag, out)
}

/// Puts the number of a step, a tag, a task and a call behind the text.
fn put_call_head(
    step: u32,
    tag: &[u8],
    who: u8,
    call: CallName,
    out: &mut Vec<u8>,
) -> Result<(), OutOfMemory>
    ensures grown { OnOk result (out.new.items ≡ out.old.items ++ (decimal step ++ (tag.now ++ (decimal who ++ 32 ∷ text_of call)))) }
    ensures front { OnErr result (take (length out.old.items) out.new.items ≡ out.old.items) }
{
    put_step(step, tag, out)?;
    put_natural(u64::from(who), out)?;
    put_call(call, out)
}

/// The error code that a value is: where it is negative and the table has it.
fn error_of(value: i32) -> Option<Er>
    ensures { result ≡ error_of value }
{
    if value < 0 {
        return Er::of_code(value);
    }
    None
}

/// Puts a value behind the text: the name of its error code where it is negative and has one, else its decimal.
#[tactic(auto, unfolding(tk_model::specs::LineText::value_text))]
fn put_value(value: i32, out: &mut Vec<u8>) -> Result<(), OutOfMemory>
    ensures grown { OnOk result (out.new.items ≡ out.old.items ++ value_text value) }
    ensures front { OnErr result (take (length out.old.items) out.new.items ≡ out.old.items) }
{
    match error_of(value) {
        Some(error) => put(error.name().as_bytes(), out),
        None => put_signed(value, out),
    }
}

/// Puts a space and the decimal of a number with a sign behind the text.
fn put_field(field: i32, out: &mut Vec<u8>) -> Result<(), OutOfMemory>
    ensures grown { OnOk result (out.new.items ≡ out.old.items ++ 32 ∷ signed_decimal field) }
    ensures front { OnErr result (take (length out.old.items) out.new.items ≡ out.old.items) }
{
    put(b" ", out)?;
    put_signed(field, out)
}

/// Puts numbers behind the text, a space before each.
fn put_fields(fields: &[i32], out: &mut Vec<u8>) -> Result<(), OutOfMemory>
    ensures grown { OnOk result (out.new.items ≡ out.old.items ++ spaced (map signed_decimal fields.now)) }
    ensures front { OnErr result (take (length out.old.items) out.new.items ≡ out.old.items) }
{
    'fields: for field in fields {
        put_field(*field, out)?;
    }
    Ok(())
}

/// Puts a value and the fields behind it behind the text, a space before each.
fn put_answer(answer: &Answer, out: &mut Vec<u8>) -> Result<(), OutOfMemory>
    ensures grown { OnOk result (out.new.items ≡ out.old.items ++ spaced (answer_words answer.now)) }
    ensures front { OnErr result (take (length out.old.items) out.new.items ≡ out.old.items) }
{
    let used = (answer.used as usize).min(answer.fields.len());
    put(b" ", out)?;
    put_value(answer.value, out)?;
    put_fields(&answer.fields[..used], out)
}

/// Puts the kind of a handler and its number behind the text.
fn put_handler(handler: HandlerKind, number: u8, out: &mut Vec<u8>) -> Result<(), OutOfMemory>
    ensures grown { OnOk result (out.new.items ≡ out.old.items ++ (handler_text handler ++ 32 ∷ decimal number)) }
    ensures front { OnErr result (take (length out.old.items) out.new.items ≡ out.old.items) }
{
    put(handler_word(handler), out)?;
    put_natural(u64::from(number), out)
}

/// Puts how a request ended behind the text, a space before each word.
fn put_ending(ending: LineEnding, out: &mut Vec<u8>) -> Result<(), OutOfMemory>
    ensures grown { OnOk result (out.new.items ≡ out.old.items ++ spaced (ending_words ending)) }
    ensures front { OnErr result (take (length out.old.items) out.new.items ≡ out.old.items) }
{
    match ending {
        LineEnding::Done { error, size } => {
            put(b" done ", out)?;
            put_value(error, out)?;
            put(b" ", out)?;
            put_natural(u64::from(size), out)
        }
        LineEnding::Cut(size) => {
            put(b" cut ", out)?;
            put_natural(u64::from(size), out)
        }
    }
}

/// Puts what a hook stands before behind the text, a space before each word.
fn put_hook(hook: Hook, out: &mut Vec<u8>) -> Result<(), OutOfMemory>
    ensures grown { OnOk result (out.new.items ≡ out.old.items ++ spaced (hook_words hook)) }
    ensures front { OnErr result (take (length out.old.items) out.new.items ≡ out.old.items) }
{
    match hook {
        Hook::Service { who, call } => {
            put(b" svc ", out)?;
            put_natural(u64::from(who), out)?;
            put_call(call, out)
        }
        Hook::Dispatch { task } => {
            put(b" dsp ", out)?;
            put_natural(u64::from(task), out)
        }
        Hook::Handler { handler, number } => {
            put(b" int ", out)?;
            put_handler(handler, number, out)
        }
    }
}

/// Puts how a trace ends behind the text, a space before each word.
fn put_end(end: LastLine, out: &mut Vec<u8>) -> Result<(), OutOfMemory>
    ensures grown { OnOk result (out.new.items ≡ out.old.items ++ spaced (end_words end)) }
    ensures front { OnErr result (take (length out.old.items) out.new.items ≡ out.old.items) }
{
    match end {
        LastLine::Idle => put(b" idle", out),
        LastLine::Halt => put(b" halt", out),
        LastLine::Budget => put(b" budget", out),
        LastLine::Starved => put(b" starved", out),
        LastLine::Unfit(entry) => {
            put(b" unfit ", out)?;
            put_natural(u64::from(entry), out)
        }
    }
}

/// The word of a kind of handler, and a space.
fn handler_word(handler: HandlerKind) -> &'static [u8]
    ensures { result.now ≡ handler_text handler ++ 32 ∷ [] }
{
    match handler {
        HandlerKind::Interrupt => b"int ",
        HandlerKind::Cyclic => b"cyc ",
        HandlerKind::Alarm => b"alm ",
    }
}

/// Puts the text of a line behind the text, or a part of it where memory runs out.
#[tactic(auto, unfolding(tk_model::specs::LineText::text_of_line, tk_model::specs::LineText::words_of))]
fn put_line(line: &Line, out: &mut Vec<u8>) -> Result<(), OutOfMemory>
    ensures grown { OnOk result (out.new.items ≡ out.old.items ++ text_of_line line.now) }
    ensures front { OnErr result (take (length out.old.items) out.new.items ≡ out.old.items) }
{
    match *line {
        Line::Dispatch { step, task } => {
            put_step(step, b" D ", out)?;
            put_natural(u64::from(task), out)
        }
        Line::Returned {
            step,
            who,
            call,
            answer,
        } => {
            put_call_head(step, b" C ", who, call, out)?;
            put_answer(&answer, out)
        }
        Line::Blocked { step, task, call } => put_call_head(step, b" B ", task, call, out),
        Line::Released {
            step,
            task,
            call,
            answer,
        } => {
            put_call_head(step, b" W ", task, call, out)?;
            put_answer(&answer, out)
        }
        Line::Tick { step, time } => {
            put_step(step, b" K ", out)?;
            put_natural(time, out)
        }
        Line::Started {
            step,
            handler,
            number,
        } => {
            put_step(step, b" I ", out)?;
            put_handler(handler, number, out)
        }
        Line::Ending {
            step,
            device,
            request,
            ending,
        } => {
            put_step(step, b" J ", out)?;
            put_natural(u64::from(device), out)?;
            put(b" ", out)?;
            put_natural(u64::from(request), out)?;
            put_ending(ending, out)
        }
        Line::Hook { step, hook } => {
            put_step(step, b" O", out)?;
            put_hook(hook, out)
        }
        Line::SaidName { step, who, name } => {
            put_step(step, b" S ", out)?;
            put_natural(u64::from(who), out)?;
            put(b" ", out)?;
            put(name.as_bytes(), out)
        }
        Line::SaidNumber { step, who, number } => {
            put_step(step, b" S ", out)?;
            put_natural(u64::from(who), out)?;
            put(b" ", out)?;
            put_signed(number, out)
        }
        Line::End { step, end } => {
            put_step(step, b" END", out)?;
            put_end(end, out)
        }
    }
}

/// Appends the text of a line, without a line feed: its words with one space between them. Where memory runs out
/// `out` stays as it was.
pub fn line_text(line: &Line, out: &mut Vec<u8>) -> Result<(), OutOfMemory>
    ensures grown { OnOk result (out.new.items ≡ out.old.items ++ text_of_line line.now) }
    ensures kept { OnErr result (out.new.items ≡ out.old.items) }
{
    let before = out.len();
    let done = put_line(line, out);
    if done.is_err() {
        out.truncate(before);
    }
    done
}

/// Puts the text of a line and a line feed behind the text.
fn put_whole_line(line: &Line, out: &mut Vec<u8>) -> Result<(), OutOfMemory>
    ensures grown { OnOk result (out.new.items ≡ out.old.items ++ (text_of_line line.now ++ 10 ∷ [])) }
    ensures front { OnErr result (take (length out.old.items) out.new.items ≡ out.old.items) }
{
    put_line(line, out)?;
    put(b"\n", out)
}

/// Puts the texts of lines behind the text, each with its line feed, or a part of them where memory runs out.
fn put_lines(lines: &[Line], out: &mut Vec<u8>) -> Result<(), OutOfMemory>
    ensures grown { OnOk result (out.new.items ≡ out.old.items ++ text_of_lines lines.now) }
    ensures front { OnErr result (take (length out.old.items) out.new.items ≡ out.old.items) }
{
    'lines: for line in lines {
        put_whole_line(line, out)?;
    }
    Ok(())
}

/// Appends the texts of lines, each with its line feed. Where memory runs out `out` stays as it was.
pub fn lines_text(lines: &[Line], out: &mut Vec<u8>) -> Result<(), OutOfMemory>
    ensures grown { OnOk result (out.new.items ≡ out.old.items ++ text_of_lines lines.now) }
    ensures kept { OnErr result (out.new.items ≡ out.old.items) }
{
    let before = out.len();
    let done = put_lines(lines, out);
    if done.is_err() {
        out.truncate(before);
    }
    done
}
