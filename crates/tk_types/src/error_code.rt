//! The main error codes of the kernel.

ghost use Rattle.std.specs.Prelude.{◌≡◌, Option};
ghost use Rattle.tk_types.specs.Codes.{code_of, coded, error_named, error_text};

/// A main error code. The last seven are named so that a trace can print them; no call answers them by
/// itself.
#[derive(Clone, Copy, Debug, PartialEq, Eq)]
pub enum Er {
    /// `E_OK`
    Ok,
    /// `E_RSFN`
    RsFn,
    /// `E_RSATR`
    RsAtr,
    /// `E_PAR`
    Par,
    /// `E_ID`
    Id,
    /// `E_CTX`
    Ctx,
    /// `E_OACV`
    OaCv,
    /// `E_ILUSE`
    IlUse,
    /// `E_NOMEM`
    NoMem,
    /// `E_LIMIT`
    Limit,
    /// `E_OBJ`
    Obj,
    /// `E_NOEXS`
    NoExs,
    /// `E_QOVR`
    QOvr,
    /// `E_RLWAI`
    RlWai,
    /// `E_TMOUT`
    TmOut,
    /// `E_DLT`
    Dlt,
    /// `E_IO`
    Io,
    /// `E_BUSY`
    Busy,
    /// `E_ABORT`
    Abort,
    /// `E_SYS`
    Sys,
    /// `E_NOCOP`
    NoCop,
    /// `E_NOSPT`
    NoSpt,
    /// `E_MACV`
    MaCv,
    /// `E_DISWAI`
    DisWai,
    /// `E_NOMDA`
    NoMda,
    /// `E_RONLY`
    RoNly,
}

/// All codes, in the order of the table.
static ALL: [Er; 26] = [
    Er::Ok,
    Er::RsFn,
    Er::RsAtr,
    Er::Par,
    Er::Id,
    Er::Ctx,
    Er::OaCv,
    Er::IlUse,
    Er::NoMem,
    Er::Limit,
    Er::Obj,
    Er::NoExs,
    Er::QOvr,
    Er::RlWai,
    Er::TmOut,
    Er::Dlt,
    Er::Io,
    Er::Busy,
    Er::Abort,
    Er::Sys,
    Er::NoCop,
    Er::NoSpt,
    Er::MaCv,
    Er::DisWai,
    Er::NoMda,
    Er::RoNly,
];

impl Er {
    /// The number of the code: 0 for success, else below 0.
    #[tactic(auto, unfolding(crate::specs::Codes::code_of))]
    pub fn main_code(self) -> i32
        ensures { result ≡ code_of self }
    {
        match self {
            Er::Ok => 0,
            Er::RsFn => -10,
            Er::RsAtr => -11,
            Er::Par => -17,
            Er::Id => -18,
            Er::Ctx => -25,
            Er::OaCv => -27,
            Er::IlUse => -28,
            Er::NoMem => -33,
            Er::Limit => -34,
            Er::Obj => -41,
            Er::NoExs => -42,
            Er::QOvr => -43,
            Er::RlWai => -49,
            Er::TmOut => -50,
            Er::Dlt => -51,
            Er::Io => -57,
            Er::Busy => -65,
            Er::Abort => -66,
            Er::Sys => -5,
            Er::NoCop => -6,
            Er::NoSpt => -9,
            Er::MaCv => -26,
            Er::DisWai => -52,
            Er::NoMda => -58,
            Er::RoNly => -67,
        }
    }

    /// The name of the code in a trace.
    #[tactic(auto, unfolding(crate::specs::Codes::error_text))]
    pub fn name(self) -> &'static str
        ensures { result.now ≡ error_text self }
    {
        match self {
            Er::Ok => "E_OK",
            Er::RsFn => "E_RSFN",
            Er::RsAtr => "E_RSATR",
            Er::Par => "E_PAR",
            Er::Id => "E_ID",
            Er::Ctx => "E_CTX",
            Er::OaCv => "E_OACV",
            Er::IlUse => "E_ILUSE",
            Er::NoMem => "E_NOMEM",
            Er::Limit => "E_LIMIT",
            Er::Obj => "E_OBJ",
            Er::NoExs => "E_NOEXS",
            Er::QOvr => "E_QOVR",
            Er::RlWai => "E_RLWAI",
            Er::TmOut => "E_TMOUT",
            Er::Dlt => "E_DLT",
            Er::Io => "E_IO",
            Er::Busy => "E_BUSY",
            Er::Abort => "E_ABORT",
            Er::Sys => "E_SYS",
            Er::NoCop => "E_NOCOP",
            Er::NoSpt => "E_NOSPT",
            Er::MaCv => "E_MACV",
            Er::DisWai => "E_DISWAI",
            Er::NoMda => "E_NOMDA",
            Er::RoNly => "E_RONLY",
        }
    }

    /// The code with that number; none exactly where the table has no such number.
    #[tactic(auto, unfolding(crate::specs::Codes::coded))]
    pub fn of_code(code: i32) -> Option<Er>
        ensures { result ≡ coded code }
    {
        ALL.iter().copied().find(|error| error.main_code() == code)
    }

    /// The code with that name; none exactly where the table has no such name.
    #[tactic(auto, unfolding(crate::specs::Codes::error_named))]
    pub fn of_name(word: &[u8]) -> Option<Er>
        ensures { result ≡ error_named word.now }
    {
        ALL.iter()
            .copied()
            .find(|error| error.name().as_bytes() == word)
    }
}
