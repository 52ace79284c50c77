//! The first words of statements: the statements' own, and the names of the system calls.

ghost use Rattle.std.specs.Prelude.{◌≡◌};
ghost use Rattle.tk_raw.specs.Heads.{form_of_head, head_named, head_or_call, head_text, own_head};

use tk_types::{ArgumentKind, CallName};

/// The first word of a statement.
#[derive(Clone, Copy, Debug, PartialEq, Eq)]
pub enum Head {
    Set,
    Add,
    Sub,
    Mul,
    And,
    Or,
    Xor,
    Ldb,
    Stb,
    Jump,
    Jeq,
    Jne,
    Jlt,
    Say,
    Show,
    Nop,
    Halt,
    Return,
    Call(CallName),
}

/// The statements' own words.
static OWN_HEADS: [Head; 18] = [
    Head::Set,
    Head::Add,
    Head::Sub,
    Head::Mul,
    Head::And,
    Head::Or,
    Head::Xor,
    Head::Ldb,
    Head::Stb,
    Head::Jump,
    Head::Jeq,
    Head::Jne,
    Head::Jlt,
    Head::Say,
    Head::Show,
    Head::Nop,
    Head::Halt,
    Head::Return,
];

/// The statement of its own with that spelling.
#[tactic(auto, unfolding(crate::specs::Heads::own_head))]
fn own_head(word: &[u8]) -> Option<Head>
    ensures { result ≡ own_head word.now }
{
    OWN_HEADS
        .iter()
        .copied()
        .find(|head| head.text().as_bytes() == word)
}

/// A statement of its own, or else the call with that spelling.
fn head_or_call(own: Option<Head>, word: &[u8]) -> Option<Head>
    ensures { result ≡ head_or_call own word.now }
{
    match own {
        Some(head) => Some(head),
        None => match CallName::of_text(word) {
            Some(name) => Some(Head::Call(name)),
            None => None,
        },
    }
}

impl Head {
    /// How the word is spelled.
    #[tactic(auto, unfolding(crate::specs::Heads::head_text, tk_model::specs::ScriptText::operation_word))]
    pub fn text(self) -> &'static str
        ensures { result.now ≡ head_text self }
    {
        match self {
            Head::Set => "set",
            Head::Add => "add",
            Head::Sub => "sub",
            Head::Mul => "mul",
            Head::And => "and",
            Head::Or => "or",
            Head::Xor => "xor",
            Head::Ldb => "ldb",
            Head::Stb => "stb",
            Head::Jump => "jump",
            Head::Jeq => "jeq",
            Head::Jne => "jne",
            Head::Jlt => "jlt",
            Head::Say => "say",
            Head::Show => "show",
            Head::Nop => "nop",
            Head::Halt => "halt",
            Head::Return => "return",
            Head::Call(name) => name.text(),
        }
    }

    /// Which arguments stand behind the word, in order.
    #[tactic(auto, unfolding(crate::specs::Heads::form_of_head))]
    pub fn form(self) -> &'static [ArgumentKind]
        ensures { result.now ≡ form_of_head self }
    {
        match self {
            Head::Set => &[ArgumentKind::Register, ArgumentKind::Value],
            Head::Add => &[ArgumentKind::Register, ArgumentKind::Value],
            Head::Sub => &[ArgumentKind::Register, ArgumentKind::Value],
            Head::Mul => &[ArgumentKind::Register, ArgumentKind::Value],
            Head::And => &[ArgumentKind::Register, ArgumentKind::Value],
            Head::Or => &[ArgumentKind::Register, ArgumentKind::Value],
            Head::Xor => &[ArgumentKind::Register, ArgumentKind::Value],
            Head::Ldb => &[ArgumentKind::Register, ArgumentKind::Value],
            Head::Stb => &[ArgumentKind::Value, ArgumentKind::Value],
            Head::Jump => &[ArgumentKind::Label],
            Head::Jeq => &[
                ArgumentKind::Register,
                ArgumentKind::Value,
                ArgumentKind::Label,
            ],
            Head::Jne => &[
                ArgumentKind::Register,
                ArgumentKind::Value,
                ArgumentKind::Label,
            ],
            Head::Jlt => &[
                ArgumentKind::Register,
                ArgumentKind::Value,
                ArgumentKind::Label,
            ],
            Head::Say => &[ArgumentKind::Text],
            Head::Show => &[ArgumentKind::Value],
            Head::Nop => &[],
            Head::Halt => &[],
            Head::Return => &[ArgumentKind::Value],
            Head::Call(name) => name.form(),
        }
    }

    /// The first word with that spelling; none exactly where no statement begins with it.
    #[tactic(auto, unfolding(crate::specs::Heads::head_named))]
    pub fn of_text(word: &[u8]) -> Option<Head>
        ensures { result ≡ head_named word.now }
    {
        head_or_call(own_head(word), word)
    }
}
