//! Why a text is refused.

ghost use Rattle.std.specs.Prelude.{◌≡◌};
ghost use Rattle.tk_types.specs.Reasons.{why_text};

/// Why a line of a text is refused.
#[derive(Clone, Copy, Debug, PartialEq, Eq)]
pub enum Why {
    /// The text has more bytes than the limit.
    Long,
    /// A byte that isn't allowed.
    Byte,
    /// A line of more than 200 bytes.
    Line,
    /// Line 1 isn't the head of a script.
    Head,
    /// A line that can't stand here.
    Order,
    /// The first word of a line in a body is none that may stand there.
    Word,
    /// Not the number of words of the form.
    Count,
    /// A number that is misspelt or out of its range.
    Number,
    /// A name that is misspelt or already taken.
    Name,
    /// A list that isn't one of its table.
    List,
    /// The text ends too early.
    End,
    /// No label or body has this name.
    Unknown,
    /// A body of the wrong kind, or a statement that its body's kind forbids.
    Kind,
    /// A wrong line of a journal.
    Journal,
    /// A wrong line of a trace.
    Trace,
}

impl Why {
    /// The word of the reason, as a refusal prints it.
    #[tactic(auto, unfolding(crate::specs::Reasons::why_text))]
    pub fn text(self) -> &'static str
        ensures { result.now ≡ why_text self }
    {
        match self {
            Why::Long => "long",
            Why::Byte => "byte",
            Why::Line => "line",
            Why::Head => "head",
            Why::Order => "order",
            Why::Word => "word",
            Why::Count => "count",
            Why::Number => "number",
            Why::Name => "name",
            Why::List => "list",
            Why::End => "end",
            Why::Unknown => "unknown",
            Why::Kind => "kind",
            Why::Journal => "journal",
            Why::Trace => "trace",
        }
    }
}
