//! The labels of a body, with the place of each name at hand.

ghost use Rattle.std.specs.Prelude.{◌≡◌, ◌<◌, ◌^◌, ◌++◌, ◌∷◌, [], ℕ, List, length, IfOk};
ghost use Rattle.tk_script.specs.LabelPlaces.{TakesName};
ghost use Rattle.tk_script.specs.Resolving.{label_number};

use std::alloc::Global;
use std::collections::HashMap;
use std::marker::Model;
use tk_types::{Label, OutOfMemory, Sequence, Why};

/// The labels of a body, in order. A map tells at once where in the list the first label with a name stands. Contracts
/// see the list.
#[derive(Drop, Debug)]
pub(crate) struct Labels {
    labels: Sequence<Label>,
    /// The place of the first label of each name.
    places: HashMap<Vec<u8>, u32>,
}

impl Model for Labels {
    ghost use Rattle.std.specs.Prelude.{List};
    ghost use Rattle.tk_types.specs.declared.script.Label.{Label};

    ghost Value = { List Label };

    ghost view = { λ labels. labels.labels };

    ghost use Rattle.tk_script.specs.LabelPlaces.{HoldsPlaces};

    ghost invariant = { HoldsPlaces };
}

/// The places with that of one more name, unless it has one.
fn with_place(
    alloc: Global,
    mut places: HashMap<Vec<u8>, u32>,
    name: &[u8],
    place: u32,
) -> Result<HashMap<Vec<u8>, u32>, OutOfMemory>
    ensures { IfOk result (λ grown. TakesName places name.now place grown) }
{
    if places.contains_key(name) {
        return Ok(places);
    }
    let bytes = name.to_vec(alloc)?;
    places.insert(bytes, place)?;
    Ok(places)
}

impl Labels {
    /// No labels.
    #[tactic(auto, using(crate::proofs::LabelPlaces::none_held))]
    pub(crate) fn new(alloc: Global) -> Labels
        ensures { result ≡ [] }
    {
        Labels {
            labels: Sequence::new(alloc),
            places: HashMap::new(alloc),
        }
    }

    /// The labels with one more behind them.
    pub(crate) fn with_label(self, alloc: Global, label: Label) -> Result<Labels, OutOfMemory>
        requires { length self < 2 ^ 32 }
        ensures { IfOk result (λ grown. grown ≡ self ++ label ∷ []) }
    {
        let Labels { mut labels, places } = self;
        let place = labels.len() as u32;
        let places = with_place(alloc, places, label.name.as_bytes(), place)?;
        labels.push(label)?;
        Ok(Labels { labels, places })
    }

    /// The place in the list of the label with that name.
    #[tactic(auto, unfolding(crate::specs::Resolving::label_number))]
    pub(crate) fn number(&self, name: &[u8]) -> Result<u32, Why>
        ensures { result ≡ label_number self.now name.now }
    {
        match self.places.get(name) {
            Some(place) => Ok(*place),
            None => Err(Why::Unknown),
        }
    }

    /// The list.
    pub(crate) fn into_sequence(self) -> Sequence<Label>
        ensures { result ≡ self }
    {
        let Labels { labels, places: _ } = self;
        labels
    }
}
