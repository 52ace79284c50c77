//! The lists of words that arguments may hold: attributes and modes, each as a record of truth values.

ghost use Rattle.std.specs.Prelude.{◌≡◌};
ghost use Rattle.tk_types.specs.Modes.{attributes_of, flag_mode_of, open_mode_of, suspend_mode_of};

/// The words of this list in their order; bit k of a number is the word in place k.
pub static ATTRIBUTE_WORDS: [&str; 18] = [
    "TA_ASM",
    "TA_HLNG",
    "TA_RNG0",
    "TA_RNG1",
    "TA_RNG2",
    "TA_RNG3",
    "TA_TFIFO",
    "TA_TPRI",
    "TA_FIRST",
    "TA_CNT",
    "TA_WSGL",
    "TA_WMUL",
    "TA_MFIFO",
    "TA_MPRI",
    "TA_INHERIT",
    "TA_CEILING",
    "TA_STA",
    "TA_PHS",
];

/// The attributes of an object that is made. Each field tells whether its word is in the list.
#[derive(Clone, Copy, Debug, PartialEq, Eq)]
pub struct Attributes {
    pub ta_asm: bool,
    pub ta_hlng: bool,
    pub ta_rng0: bool,
    pub ta_rng1: bool,
    pub ta_rng2: bool,
    pub ta_rng3: bool,
    pub ta_tfifo: bool,
    pub ta_tpri: bool,
    pub ta_first: bool,
    pub ta_cnt: bool,
    pub ta_wsgl: bool,
    pub ta_wmul: bool,
    pub ta_mfifo: bool,
    pub ta_mpri: bool,
    pub ta_inherit: bool,
    pub ta_ceiling: bool,
    pub ta_sta: bool,
    pub ta_phs: bool,
}

impl Attributes {
    /// The record of a number with one bit for each word.
    #[tactic(auto, unfolding(crate::specs::Modes::attributes_of))]
    pub fn of_bits(bits: u32) -> Attributes
        ensures { result ≡ attributes_of bits }
    {
        Attributes {
            ta_asm: bits / 1 % 2 == 1,
            ta_hlng: bits / 2 % 2 == 1,
            ta_rng0: bits / 4 % 2 == 1,
            ta_rng1: bits / 8 % 2 == 1,
            ta_rng2: bits / 16 % 2 == 1,
            ta_rng3: bits / 32 % 2 == 1,
            ta_tfifo: bits / 64 % 2 == 1,
            ta_tpri: bits / 128 % 2 == 1,
            ta_first: bits / 256 % 2 == 1,
            ta_cnt: bits / 512 % 2 == 1,
            ta_wsgl: bits / 1024 % 2 == 1,
            ta_wmul: bits / 2048 % 2 == 1,
            ta_mfifo: bits / 4096 % 2 == 1,
            ta_mpri: bits / 8192 % 2 == 1,
            ta_inherit: bits / 16384 % 2 == 1,
            ta_ceiling: bits / 32768 % 2 == 1,
            ta_sta: bits / 65536 % 2 == 1,
            ta_phs: bits / 131072 % 2 == 1,
        }
    }
}

/// The words of this list in their order; bit k of a number is the word in place k.
pub static FLAG_MODE_WORDS: [&str; 4] = ["TWF_ANDW", "TWF_ORW", "TWF_CLR", "TWF_BITCLR"];

/// How a task waits for an event flag. Each field tells whether its word is in the list.
#[derive(Clone, Copy, Debug, PartialEq, Eq)]
pub struct FlagMode {
    pub twf_andw: bool,
    pub twf_orw: bool,
    pub twf_clr: bool,
    pub twf_bitclr: bool,
}

impl FlagMode {
    /// The record of a number with one bit for each word.
    #[tactic(auto, unfolding(crate::specs::Modes::flag_mode_of))]
    pub fn of_bits(bits: u32) -> FlagMode
        ensures { result ≡ flag_mode_of bits }
    {
        FlagMode {
            twf_andw: bits / 1 % 2 == 1,
            twf_orw: bits / 2 % 2 == 1,
            twf_clr: bits / 4 % 2 == 1,
            twf_bitclr: bits / 8 % 2 == 1,
        }
    }
}

/// The words of this list in their order; bit k of a number is the word in place k.
pub static OPEN_MODE_WORDS: [&str; 6] = [
    "TD_READ",
    "TD_WRITE",
    "TD_UPDATE",
    "TD_EXCL",
    "TD_WEXCL",
    "TD_REXCL",
];

/// How a device is opened. Each field tells whether its word is in the list.
#[derive(Clone, Copy, Debug, PartialEq, Eq)]
pub struct OpenMode {
    pub td_read: bool,
    pub td_write: bool,
    pub td_update: bool,
    pub td_excl: bool,
    pub td_wexcl: bool,
    pub td_rexcl: bool,
}

impl OpenMode {
    /// The record of a number with one bit for each word.
    #[tactic(auto, unfolding(crate::specs::Modes::open_mode_of))]
    pub fn of_bits(bits: u32) -> OpenMode
        ensures { result ≡ open_mode_of bits }
    {
        OpenMode {
            td_read: bits / 1 % 2 == 1,
            td_write: bits / 2 % 2 == 1,
            td_update: bits / 4 % 2 == 1,
            td_excl: bits / 8 % 2 == 1,
            td_wexcl: bits / 16 % 2 == 1,
            td_rexcl: bits / 32 % 2 == 1,
        }
    }
}

/// The words of this list in their order; bit k of a number is the word in place k.
pub static SUSPEND_MODE_WORDS: [&str; 5] = [
    "TD_SUSPEND",
    "TD_DISSUS",
    "TD_ENASUS",
    "TD_CHECK",
    "TD_FORCE",
];

/// What a suspension of the devices does. Each field tells whether its word is in the list.
#[derive(Clone, Copy, Debug, PartialEq, Eq)]
pub struct SuspendMode {
    pub td_suspend: bool,
    pub td_dissus: bool,
    pub td_enasus: bool,
    pub td_check: bool,
    pub td_force: bool,
}

impl SuspendMode {
    /// The record of a number with one bit for each word.
    #[tactic(auto, unfolding(crate::specs::Modes::suspend_mode_of))]
    pub fn of_bits(bits: u32) -> SuspendMode
        ensures { result ≡ suspend_mode_of bits }
    {
        SuspendMode {
            td_suspend: bits / 1 % 2 == 1,
            td_dissus: bits / 2 % 2 == 1,
            td_enasus: bits / 4 % 2 == 1,
            td_check: bits / 8 % 2 == 1,
            td_force: bits / 16 % 2 == 1,
        }
    }
}
