//! Names of bodies, looked up.

ghost use Rattle.std.specs.Prelude.{◌≡◌};
ghost use Rattle.tk_script.specs.Resolving.{body_number, body_place, known, number_at, number_if, same_kind};

use tk_raw::RawBody;
use tk_types::{BodyKind, Why};

/// Whether two kinds are the same.
pub(crate) fn same_kind(kind: BodyKind, other: BodyKind) -> bool
    ensures { result ≡ same_kind kind other }
{
    match (kind, other) {
        (BodyKind::Task, BodyKind::Task) => true,
        (BodyKind::Hand, BodyKind::Hand) => true,
        (BodyKind::Svc, BodyKind::Svc) => true,
        _ => false,
    }
}

/// The place of the body with that name.
#[tactic(auto, unfolding(crate::specs::Resolving::body_place))]
fn body_place(bodies: &[RawBody], name: &[u8]) -> Option<usize>
    ensures { result ≡ body_place bodies.now name.now }
{
    bodies.iter().position(|body| body.name.as_bytes() == name)
}

/// The number of the body in a place, counted from 1, where it has the kind that is wanted.
fn number_at(bodies: &[RawBody], wanted: BodyKind, place: Option<usize>) -> Result<u8, Why>
    ensures { result ≡ number_at bodies.now wanted place }
{
    let Some(place) = place else {
        return Err(Why::Unknown);
    };
    match bodies.get(place) {
        None => Err(Why::Unknown),
        Some(body) => {
            if same_kind(body.kind, wanted) && place < 255 {
                Ok((place + 1) as u8)
            } else {
                Err(Why::Kind)
            }
        }
    }
}

/// The number of the body with that name, which has to be of that kind.
#[tactic(auto, unfolding(crate::specs::Resolving::body_number))]
pub(crate) fn body_number(bodies: &[RawBody], wanted: BodyKind, name: &[u8]) -> Result<u8, Why>
    ensures { result ≡ body_number bodies.now wanted name.now }
{
    number_at(bodies, wanted, body_place(bodies, name))
}
