//! The body that isn't at its end yet, with its labels at hand.

ghost use Rattle.std.specs.Prelude.{◌≡◌, [], IfOk};
ghost use Rattle.tk_raw.specs.RawReading.{label_taken, with_item};
ghost use Rattle.tk_raw.specs.declared.raw.RawItem.TheVariants as items;

use crate::raw::{RawBody, RawItem, RawStmt};
use std::alloc::Global;
use std::collections::HashSet;
use std::marker::Model;
use tk_types::{BodyKind, Name, OutOfMemory, Sequence};

/// The body that isn't at its end yet. A set of the names of its labels tells at once whether a name is taken.
/// Contracts see it as the body.
#[derive(Drop, Debug)]
pub(crate) struct OpenBody {
    body: RawBody,
    /// The bytes of the name of each label of the body.
    labels: HashSet<Vec<u8>>,
}

impl Model for OpenBody {
    ghost use Rattle.tk_raw.specs.declared.raw.RawBody.{RawBody};

    ghost Value = { RawBody };

    ghost view = { λ open_body. open_body.body };

    ghost use Rattle.tk_raw.specs.OpenBodies.{HoldsLabels};

    ghost invariant = { HoldsLabels };
}

impl OpenBody {
    /// A body without lines.
    #[tactic(auto, using(crate::proofs::OpenBodies::none_held))]
    pub(crate) fn new(alloc: Global, name: Name, kind: BodyKind) -> OpenBody
        ensures { result ≡ record { name = name; kind = kind; items = [] } }
    {
        OpenBody {
            body: RawBody {
                name,
                kind,
                items: Sequence::new(alloc),
            },
            labels: HashSet::new(alloc),
        }
    }

    /// The body, at its end.
    pub(crate) fn into_body(self) -> RawBody
        ensures { result ≡ self }
    {
        let OpenBody { body, labels: _ } = self;
        body
    }

    /// Whether a label of the body has that name.
    pub(crate) fn label_taken(&self, word: &[u8]) -> bool
        ensures { result ≡ label_taken self.now.items word.now }
    {
        self.labels.contains(word)
    }

    /// The body with one more label.
    pub(crate) fn with_label(self, alloc: Global, name: Name) -> Result<OpenBody, OutOfMemory>
        ensures { IfOk result (λ grown. grown ≡ with_item self (items.Label name)) }
    {
        let OpenBody {
            mut body,
            mut labels,
        } = self;
        let bytes = name.as_bytes().to_vec(alloc)?;
        labels.insert(bytes)?;
        body.items.push(RawItem::Label(name))?;
        Ok(OpenBody { body, labels })
    }

    /// The body with one more statement.
    #[tactic(auto, using(crate::proofs::OpenBodies::stmt_held))]
    pub(crate) fn with_stmt(self, stmt: RawStmt) -> Result<OpenBody, OutOfMemory>
        ensures { IfOk result (λ grown. grown ≡ with_item self (items.Stmt stmt)) }
    {
        let OpenBody { mut body, labels } = self;
        body.items.push(RawItem::Stmt(stmt))?;
        Ok(OpenBody { body, labels })
    }
}
