//! The lines of bodies.

ghost use Rattle.std.specs.Prelude.{◌≡◌};
ghost use Rattle.std.specs.List.{list_any};
ghost use Rattle.tk_model.specs.Lists.{texts};
ghost use Rattle.tk_raw.specs.RawReading.{body_at, body_from, body_taken, kind_named, label_at, new_body_name, new_label};

use crate::header::new_name;
use crate::open_body::OpenBody;
use crate::pieces::name_at;
use crate::raw::RawBody;
use std::alloc::Global;
use tk_types::{BodyKind, Name, Why};

/// Whether a body has that name.
#[tactic(auto, unfolding(crate::specs::RawReading::body_taken))]
fn body_taken(bodies: &[RawBody], word: &[u8]) -> bool
    ensures { result ≡ body_taken bodies.now word.now }
{
    bodies.iter().any(|body| body.name.as_bytes() == word)
}

/// The kind of a body that a word spells.
#[tactic(auto, unfolding(crate::specs::RawReading::kind_named))]
fn kind_named(word: &[u8]) -> Result<BodyKind, Why>
    ensures { result ≡ kind_named word.now }
{
    if word == b"task".as_slice() {
        return Ok(BodyKind::Task);
    }
    if word == b"hand".as_slice() {
        return Ok(BodyKind::Hand);
    }
    if word == b"svc".as_slice() {
        return Ok(BodyKind::Svc);
    }
    Err(Why::Name)
}

/// The name of a new body.
#[tactic(auto, unfolding(crate::specs::RawReading::new_body_name))]
fn new_body_name(bodies: &[RawBody], word: &[u8]) -> Result<Name, Why>
    ensures { result ≡ new_body_name bodies.now word.now }
{
    let name = name_at(word)?;
    new_name(body_taken(bodies, word), name)
}

#[tactic(auto, unfolding(crate::specs::RawReading::body_from))]
fn body_from(alloc: Global, bodies: &[RawBody], name: &[u8], kind: &[u8]) -> Result<OpenBody, Why>
    ensures { result ≡ body_from bodies.now name.now kind.now }
{
    let name = new_body_name(bodies, name)?;
    let kind = kind_named(kind)?;
    Ok(OpenBody::new(alloc, name, kind))
}

/// A body without lines, from the words behind the first of its first line.
#[tactic(auto, unfolding(crate::specs::RawReading::body_at))]
pub(crate) fn body_at(alloc: Global, bodies: &[RawBody], words: &[&[u8]]) -> Result<OpenBody, Why>
    ensures { result ≡ body_at bodies.now (texts words.now) }
{
    match words {
        [name, kind] => body_from(alloc, bodies, name, kind),
        _ => Err(Why::Count),
    }
}

/// The name of a new label.
#[tactic(auto, unfolding(crate::specs::RawReading::new_label))]
fn new_label(body: &OpenBody, word: &[u8]) -> Result<Name, Why>
    ensures { result ≡ new_label body.now.items word.now }
{
    let name = name_at(word)?;
    new_name(body.label_taken(word), name)
}

/// The label of a line, from the words behind the first.
#[tactic(auto, unfolding(crate::specs::RawReading::label_at))]
pub(crate) fn label_at(body: &OpenBody, words: &[&[u8]]) -> Result<Name, Why>
    ensures { result ≡ label_at body.now.items (texts words.now) }
{
    match words {
        [word] => new_label(body, word),
        _ => Err(Why::Count),
    }
}
