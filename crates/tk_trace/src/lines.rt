//! What stands behind the tag of a line, and the lines.

ghost use Rattle.std.specs.Prelude.{◌≡◌, IfSome};
ghost use Rattle.tk_model.specs.Lists.{texts};
ghost use Rattle.tk_model.specs.LineRanges.{IsEnding, IsHook, IsEnd, IsLine};
ghost use Rattle.tk_trace.specs.Reading.{done_at, cut_at, ending_at, service_at, switch_at, start_at, hook_at, unfit_at, plain_end_at, end_at, dispatch_line_at, returned_line_at, blocked_line_at, released_line_at, tick_line_at, started_line_at, ending_line_at, hook_line_at, said_at, said_line_at, end_line_at, line_of_tag, line_at};

use crate::words::{answer_at, handler_at, u8_at, u32_at, value_at};
use tk_text::{natural, number};
use tk_types::{CallName, Hook, LastLine, Line, LineEnding, Name};

/// The ending of a request that wasn't cut: its error and its size.
#[tactic(auto, unfolding(crate::specs::Reading::done_at))]
fn done_at(words: &[&[u8]]) -> Option<LineEnding>
    ensures value { result ≡ done_at (texts words.now) }
    ensures ending { IfSome result IsEnding }
{
    let [error, size] = words else {
        return None;
    };
    let error = value_at(error)?;
    let size = u32_at(size)?;
    Some(LineEnding::Done { error, size })
}

/// The ending of a request that was cut: its size.
#[tactic(auto, unfolding(crate::specs::Reading::cut_at))]
fn cut_at(words: &[&[u8]]) -> Option<LineEnding>
    ensures value { result ≡ cut_at (texts words.now) }
    ensures ending { IfSome result IsEnding }
{
    let [size] = words else {
        return None;
    };
    let size = u32_at(size)?;
    Some(LineEnding::Cut(size))
}

/// How a request ended.
#[tactic(auto, unfolding(crate::specs::Reading::ending_at))]
fn ending_at(word: &[u8], words: &[&[u8]]) -> Option<LineEnding>
    ensures value { result ≡ ending_at word.now (texts words.now) }
    ensures ending { IfSome result IsEnding }
{
    if word == b"done".as_slice() {
        done_at(words)
    } else if word == b"cut".as_slice() {
        cut_at(words)
    } else {
        None
    }
}

/// A hook before a call: who calls, and which call.
#[tactic(auto, unfolding(crate::specs::Reading::service_at))]
fn service_at(words: &[&[u8]]) -> Option<Hook>
    ensures value { result ≡ service_at (texts words.now) }
    ensures hook { IfSome result IsHook }
{
    let [who, call] = words else {
        return None;
    };
    let who = u8_at(who)?;
    let call = CallName::of_text(call)?;
    Some(Hook::Service { who, call })
}

/// A hook before a dispatch: the task.
#[tactic(auto, unfolding(crate::specs::Reading::switch_at))]
fn switch_at(words: &[&[u8]]) -> Option<Hook>
    ensures value { result ≡ switch_at (texts words.now) }
    ensures hook { IfSome result IsHook }
{
    let [task] = words else {
        return None;
    };
    let task = u8_at(task)?;
    Some(Hook::Dispatch { task })
}

/// A hook before the start of a handler: its kind and its number.
#[tactic(auto, unfolding(crate::specs::Reading::start_at))]
fn start_at(words: &[&[u8]]) -> Option<Hook>
    ensures value { result ≡ start_at (texts words.now) }
    ensures hook { IfSome result IsHook }
{
    let [handler, number] = words else {
        return None;
    };
    let handler = handler_at(handler)?;
    let number = u8_at(number)?;
    Some(Hook::Handler { handler, number })
}

/// What a hook stands before.
#[tactic(auto, unfolding(crate::specs::Reading::hook_at))]
fn hook_at(word: &[u8], words: &[&[u8]]) -> Option<Hook>
    ensures value { result ≡ hook_at word.now (texts words.now) }
    ensures hook { IfSome result IsHook }
{
    if word == b"svc".as_slice() {
        service_at(words)
    } else if word == b"dsp".as_slice() {
        switch_at(words)
    } else if word == b"int".as_slice() {
        start_at(words)
    } else {
        None
    }
}

/// An end at an entry that isn't fit: the number of the entry.
#[tactic(auto, unfolding(crate::specs::Reading::unfit_at))]
fn unfit_at(words: &[&[u8]]) -> Option<LastLine>
    ensures value { result ≡ unfit_at (texts words.now) }
    ensures end { IfSome result IsEnd }
{
    let [entry] = words else {
        return None;
    };
    let entry = u32_at(entry)?;
    Some(LastLine::Unfit(entry))
}

/// An end that is a word alone.
#[tactic(auto, unfolding(crate::specs::Reading::plain_end_at))]
fn plain_end_at(word: &[u8]) -> Option<LastLine>
    ensures value { result ≡ plain_end_at word.now }
    ensures end { IfSome result IsEnd }
{
    if word == b"idle".as_slice() {
        Some(LastLine::Idle)
    } else if word == b"halt".as_slice() {
        Some(LastLine::Halt)
    } else if word == b"budget".as_slice() {
        Some(LastLine::Budget)
    } else if word == b"starved".as_slice() {
        Some(LastLine::Starved)
    } else {
        None
    }
}

/// How a trace ends.
#[tactic(auto, unfolding(crate::specs::Reading::end_at))]
fn end_at(word: &[u8], words: &[&[u8]]) -> Option<LastLine>
    ensures value { result ≡ end_at word.now (texts words.now) }
    ensures end { IfSome result IsEnd }
{
    if word == b"unfit".as_slice() {
        return unfit_at(words);
    }
    match words {
        [] => plain_end_at(word),
        _ => None,
    }
}

/// A `D` line.
#[tactic(auto, unfolding(crate::specs::Reading::dispatch_line_at))]
fn dispatch_line_at(step: u32, words: &[&[u8]]) -> Option<Line>
    ensures value { result ≡ dispatch_line_at step (texts words.now) }
    ensures line { IfSome result IsLine }
{
    let [task] = words else {
        return None;
    };
    let task = u8_at(task)?;
    Some(Line::Dispatch { step, task })
}

/// A `C` line.
#[tactic(auto, unfolding(crate::specs::Reading::returned_line_at))]
fn returned_line_at(step: u32, words: &[&[u8]]) -> Option<Line>
    ensures value { result ≡ returned_line_at step (texts words.now) }
    ensures line { IfSome result IsLine }
{
    let [who, call, rest @ ..] = words else {
        return None;
    };
    let who = u8_at(who)?;
    let call = CallName::of_text(call)?;
    let answer = answer_at(rest)?;
    Some(Line::Returned {
        step,
        who,
        call,
        answer,
    })
}

/// A `B` line.
#[tactic(auto, unfolding(crate::specs::Reading::blocked_line_at))]
fn blocked_line_at(step: u32, words: &[&[u8]]) -> Option<Line>
    ensures value { result ≡ blocked_line_at step (texts words.now) }
    ensures line { IfSome result IsLine }
{
    let [task, call] = words else {
        return None;
    };
    let task = u8_at(task)?;
    let call = CallName::of_text(call)?;
    Some(Line::Blocked { step, task, call })
}

/// A `W` line.
#[tactic(auto, unfolding(crate::specs::Reading::released_line_at))]
fn released_line_at(step: u32, words: &[&[u8]]) -> Option<Line>
    ensures value { result ≡ released_line_at step (texts words.now) }
    ensures line { IfSome result IsLine }
{
    let [task, call, rest @ ..] = words else {
        return None;
    };
    let task = u8_at(task)?;
    let call = CallName::of_text(call)?;
    let answer = answer_at(rest)?;
    Some(Line::Released {
        step,
        task,
        call,
        answer,
    })
}

/// A `K` line.
#[tactic(auto, unfolding(crate::specs::Reading::tick_line_at))]
fn tick_line_at(step: u32, words: &[&[u8]]) -> Option<Line>
    ensures value { result ≡ tick_line_at step (texts words.now) }
    ensures line { IfSome result IsLine }
{
    let [time] = words else {
        return None;
    };
    let time = natural(time)?;
    Some(Line::Tick { step, time })
}

/// An `I` line.
#[tactic(auto, unfolding(crate::specs::Reading::started_line_at))]
fn started_line_at(step: u32, words: &[&[u8]]) -> Option<Line>
    ensures value { result ≡ started_line_at step (texts words.now) }
    ensures line { IfSome result IsLine }
{
    let [handler, number] = words else {
        return None;
    };
    let handler = handler_at(handler)?;
    let number = u8_at(number)?;
    Some(Line::Started {
        step,
        handler,
        number,
    })
}

/// A `J` line.
#[tactic(auto, unfolding(crate::specs::Reading::ending_line_at))]
fn ending_line_at(step: u32, words: &[&[u8]]) -> Option<Line>
    ensures value { result ≡ ending_line_at step (texts words.now) }
    ensures line { IfSome result IsLine }
{
    let [device, request, word, rest @ ..] = words else {
        return None;
    };
    let device = u8_at(device)?;
    let request = u8_at(request)?;
    let ending = ending_at(word, rest)?;
    Some(Line::Ending {
        step,
        device,
        request,
        ending,
    })
}

/// An `O` line.
#[tactic(auto, unfolding(crate::specs::Reading::hook_line_at))]
fn hook_line_at(step: u32, words: &[&[u8]]) -> Option<Line>
    ensures value { result ≡ hook_line_at step (texts words.now) }
    ensures line { IfSome result IsLine }
{
    let [word, rest @ ..] = words else {
        return None;
    };
    let hook = hook_at(word, rest)?;
    Some(Line::Hook { step, hook })
}

/// An `S` line of what was said: a name or a number.
#[tactic(auto, unfolding(crate::specs::Reading::said_at))]
fn said_at(step: u32, who: u8, word: &[u8]) -> Option<Line>
    ensures value { result ≡ said_at step who word.now }
    ensures line { IfSome result IsLine }
{
    match Name::new(word) {
        Some(name) => Some(Line::SaidName { step, who, name }),
        None => match number(word) {
            Some(number) => Some(Line::SaidNumber { step, who, number }),
            None => None,
        },
    }
}

/// An `S` line.
#[tactic(auto, unfolding(crate::specs::Reading::said_line_at))]
fn said_line_at(step: u32, words: &[&[u8]]) -> Option<Line>
    ensures value { result ≡ said_line_at step (texts words.now) }
    ensures line { IfSome result IsLine }
{
    let [who, word] = words else {
        return None;
    };
    let who = u8_at(who)?;
    said_at(step, who, word)
}

/// An `END` line.
#[tactic(auto, unfolding(crate::specs::Reading::end_line_at))]
fn end_line_at(step: u32, words: &[&[u8]]) -> Option<Line>
    ensures value { result ≡ end_line_at step (texts words.now) }
    ensures line { IfSome result IsLine }
{
    let [word, rest @ ..] = words else {
        return None;
    };
    let end = end_at(word, rest)?;
    Some(Line::End { step, end })
}

/// The line with that tag.
#[tactic(auto, unfolding(crate::specs::Reading::line_of_tag))]
fn line_of_tag(step: u32, tag: &[u8], words: &[&[u8]]) -> Option<Line>
    ensures value { result ≡ line_of_tag step tag.now (texts words.now) }
    ensures line { IfSome result IsLine }
{
    if tag == b"D".as_slice() {
        dispatch_line_at(step, words)
    } else if tag == b"C".as_slice() {
        returned_line_at(step, words)
    } else if tag == b"B".as_slice() {
        blocked_line_at(step, words)
    } else if tag == b"W".as_slice() {
        released_line_at(step, words)
    } else if tag == b"K".as_slice() {
        tick_line_at(step, words)
    } else if tag == b"I".as_slice() {
        started_line_at(step, words)
    } else if tag == b"J".as_slice() {
        ending_line_at(step, words)
    } else if tag == b"O".as_slice() {
        hook_line_at(step, words)
    } else if tag == b"S".as_slice() {
        said_line_at(step, words)
    } else if tag == b"END".as_slice() {
        end_line_at(step, words)
    } else {
        None
    }
}

/// The line that words spell.
#[tactic(auto, unfolding(crate::specs::Reading::line_at))]
pub(crate) fn line_at(words: &[&[u8]]) -> Option<Line>
    ensures value { result ≡ line_at (texts words.now) }
    ensures line { IfSome result IsLine }
{
    let [step, tag, rest @ ..] = words else {
        return None;
    };
    let step = u32_at(step)?;
    line_of_tag(step, tag, rest)
}
