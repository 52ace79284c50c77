//! Pieces of lines, put behind what is printed already. Where memory runs out, nothing is said of what is printed.

ghost use Rattle.std.specs.Prelude.{◌≡◌, ◌++◌, ◌∷◌, [], OnOk, decimal};
ghost use Rattle.std.specs.Fmt.{signed_decimal};
ghost use Rattle.tk_model.specs.ScriptText.{register_word, operand_word};

use itoa::Buffer;
use tk_types::{Operand, OutOfMemory};

/// Puts a word.
pub(crate) fn put(out: &mut Vec<u8>, word: &[u8]) -> Result<(), OutOfMemory>
    ensures { OnOk result (out.new.items ≡ out.old.items ++ word.now) }
{
    out.extend_from_slice(word)?;
    Ok(())
}

/// Puts the text of a number without a sign.
pub(crate) fn put_natural(out: &mut Vec<u8>, number: u32) -> Result<(), OutOfMemory>
    ensures { OnOk result (out.new.items ≡ out.old.items ++ decimal number) }
{
    let mut buffer = Buffer::new();
    put(out, buffer.format(number).as_bytes())
}

/// Puts the text of a number with a sign.
pub(crate) fn put_signed(out: &mut Vec<u8>, number: i32) -> Result<(), OutOfMemory>
    ensures { OnOk result (out.new.items ≡ out.old.items ++ signed_decimal number) }
{
    let mut buffer = Buffer::new();
    put(out, buffer.format(number).as_bytes())
}

/// Puts the name of a register.
#[tactic(auto, using(std::proofs::Common::append_assoc), unfolding(tk_model::specs::ScriptText::register_word))]
pub(crate) fn put_register(out: &mut Vec<u8>, register: u8) -> Result<(), OutOfMemory>
    ensures { OnOk result (out.new.items ≡ out.old.items ++ register_word register) }
{
    put(out, b"r")?;
    put_natural(out, u32::from(register))
}

/// Puts a number or the name of a register.
#[tactic(auto, unfolding(tk_model::specs::ScriptText::operand_word))]
pub(crate) fn put_operand(out: &mut Vec<u8>, operand: Operand) -> Result<(), OutOfMemory>
    ensures { OnOk result (out.new.items ≡ out.old.items ++ operand_word operand) }
{
    match operand {
        Operand::Number(number) => put_signed(out, number),
        Operand::Register(register) => put_register(out, register),
    }
}

/// Puts a space and a word.
#[tactic(auto, using(std::proofs::Common::append_assoc))]
pub(crate) fn put_next(out: &mut Vec<u8>, word: &[u8]) -> Result<(), OutOfMemory>
    ensures { OnOk result (out.new.items ≡ out.old.items ++ (32 ∷ word.now)) }
{
    put(out, b" ")?;
    put(out, word)
}

/// Puts a space and the text of a number without a sign.
#[tactic(auto, using(std::proofs::Common::append_assoc))]
pub(crate) fn put_next_natural(out: &mut Vec<u8>, number: u32) -> Result<(), OutOfMemory>
    ensures { OnOk result (out.new.items ≡ out.old.items ++ (32 ∷ decimal number)) }
{
    put(out, b" ")?;
    put_natural(out, number)
}

/// Puts a space and the name of a register.
#[tactic(auto, using(std::proofs::Common::append_assoc))]
pub(crate) fn put_next_register(out: &mut Vec<u8>, register: u8) -> Result<(), OutOfMemory>
    ensures { OnOk result (out.new.items ≡ out.old.items ++ (32 ∷ register_word register)) }
{
    put(out, b" ")?;
    put_register(out, register)
}

/// Puts a space and a number or the name of a register.
#[tactic(auto, using(std::proofs::Common::append_assoc))]
pub(crate) fn put_next_operand(out: &mut Vec<u8>, operand: Operand) -> Result<(), OutOfMemory>
    ensures { OnOk result (out.new.items ≡ out.old.items ++ (32 ∷ operand_word operand)) }
{
    put(out, b" ")?;
    put_operand(out, operand)
}

/// Puts the end of a line.
pub(crate) fn put_end(out: &mut Vec<u8>) -> Result<(), OutOfMemory>
    ensures { OnOk result (out.new.items ≡ out.old.items ++ (10 ∷ [])) }
{
    put(out, b"\n")
}
