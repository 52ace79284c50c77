//! Statements as printed lines.

ghost use Rattle.std.specs.Prelude.{◌≡◌, ◌++◌, ◌∷◌, [], OnOk, codes, slice_get};
ghost use Rattle.tk_model.specs.ScriptText.{table_of, body_word, name_or_dash, register_word, operand_word, arg_word, arg_words, operation_word, condition_words, label_name, stmt_words, gaps, joined, line_text};
ghost use Rattle.tk_types.specs.CallNames.{form_of, text_of};
ghost use Rattle.tk_model.specs.Lists.{texts};

use crate::put::{
    put, put_end, put_next, put_next_operand, put_next_register, put_register, put_signed,
};
use tk_text::push_list;
use tk_types::{
    ATTRIBUTE_WORDS, Arg, ArgumentKind, Body, CallName, Condition, FLAG_MODE_WORDS, Label,
    OPEN_MODE_WORDS, Operand, Operation, OutOfMemory, SUSPEND_MODE_WORDS, Stmt,
};

/// The table of the words of a kind of list.
#[tactic(auto, unfolding(tk_model::specs::ScriptText::table_of))]
fn table_of(kind: ArgumentKind) -> &'static [&'static str]
    ensures { texts result.now ≡ table_of kind }
{
    match kind {
        ArgumentKind::Attributes => &ATTRIBUTE_WORDS,
        ArgumentKind::FlagMode => &FLAG_MODE_WORDS,
        ArgumentKind::OpenMode => &OPEN_MODE_WORDS,
        ArgumentKind::SuspendMode => &SUSPEND_MODE_WORDS,
        ArgumentKind::Value => &[],
        ArgumentKind::TaskBody => &[],
        ArgumentKind::HandlerBody => &[],
        ArgumentKind::HandlerBodyOrNone => &[],
        ArgumentKind::ServiceBodyOrNone => &[],
        ArgumentKind::DeviceName => &[],
        ArgumentKind::Register => &[],
        ArgumentKind::Label => &[],
        ArgumentKind::Text => &[],
    }
}

/// Puts the name of the body in that place, or a dash where there is none.
fn put_name_or_dash(out: &mut Vec<u8>, bodies: &[Body], place: usize) -> Result<(), OutOfMemory>
    ensures { OnOk result (out.new.items ≡ out.old.items ++ name_or_dash (slice_get bodies.now place)) }
{
    match bodies.get(place) {
        None => put(out, b"-"),
        Some(body) => put(out, body.name.as_bytes()),
    }
}

/// Puts the name of the body with that number.
#[tactic(auto, unfolding(tk_model::specs::ScriptText::body_word))]
pub(crate) fn put_body(out: &mut Vec<u8>, bodies: &[Body], number: u8) -> Result<(), OutOfMemory>
    ensures { OnOk result (out.new.items ≡ out.old.items ++ body_word bodies.now number) }
{
    if number == 0 {
        return put(out, b"-");
    }
    put_name_or_dash(out, bodies, number as usize - 1)
}

/// Puts an argument, by its kind.
#[tactic(auto, unfolding(tk_model::specs::ScriptText::arg_word, tk_model::specs::ScriptText::register_word))]
fn put_arg(
    out: &mut Vec<u8>,
    bodies: &[Body],
    kind: ArgumentKind,
    arg: &Arg,
) -> Result<(), OutOfMemory>
    ensures { OnOk result (out.new.items ≡ out.old.items ++ arg_word bodies.now kind arg.now) }
{
    match arg {
        Arg::Number(number) => put_signed(out, *number),
        Arg::Register(register) => put_register(out, *register),
        Arg::List(bits) => push_list(out, table_of(kind), *bits),
        Arg::Body(number) => put_body(out, bodies, *number),
        Arg::Name(name) => put(out, name.as_bytes()),
    }
}

/// Puts arguments, with a space before each.
#[tactic(auto, using(std::proofs::Common::append_assoc), unfolding(tk_model::specs::ScriptText::arg_words, tk_model::specs::ScriptText::gaps))]
fn put_args(
    out: &mut Vec<u8>,
    bodies: &[Body],
    form: &[ArgumentKind],
    args: &[Arg],
) -> Result<(), OutOfMemory>
    ensures { OnOk result (out.new.items ≡ out.old.items ++ gaps (arg_words bodies.now form.now args.now)) }
{
    match form {
        [] => Ok(()),
        [kind, form @ ..] => match args {
            [] => Ok(()),
            [arg, args @ ..] => {
                put(out, b" ")?;
                put_arg(out, bodies, *kind, arg)?;
                put_args(out, bodies, form, args)
            }
        },
    }
}

/// The word of an operation.
#[tactic(auto, unfolding(tk_model::specs::ScriptText::operation_word))]
fn operation_word(operation: Operation) -> &'static str
    ensures { result.now ≡ operation_word operation }
{
    match operation {
        Operation::Set => "set",
        Operation::Add => "add",
        Operation::Sub => "sub",
        Operation::Mul => "mul",
        Operation::And => "and",
        Operation::Or => "or",
        Operation::Xor => "xor",
    }
}

/// Puts the words of a jump before its label.
#[tactic(auto, using(crate::proofs::Appends::one_word), unfolding(tk_model::specs::ScriptText::condition_words))]
fn put_condition(out: &mut Vec<u8>, condition: Condition) -> Result<(), OutOfMemory>
    ensures { OnOk result (out.new.items ≡ out.old.items ++ joined (condition_words condition)) }
{
    match condition {
        Condition::Always => put(out, b"jump"),
        Condition::Equal(register, value) => put_with_register(out, "jeq", register, value),
        Condition::NotEqual(register, value) => put_with_register(out, "jne", register, value),
        Condition::Less(register, value) => put_with_register(out, "jlt", register, value),
    }
}

/// Puts a space and the name of the label in that place, if there is one.
fn put_next_label(out: &mut Vec<u8>, labels: &[Label], place: usize) -> Result<(), OutOfMemory>
    ensures { OnOk result (out.new.items ≡ out.old.items ++ (32 ∷ label_name (slice_get labels.now place))) }
{
    match labels.get(place) {
        None => put(out, b" "),
        Some(label) => put_next(out, label.name.as_bytes()),
    }
}

/// Puts the words of a jump.
#[tactic(auto, using(crate::proofs::Appends::jump_words))]
fn put_jump(
    out: &mut Vec<u8>,
    labels: &[Label],
    condition: Condition,
    label: u32,
) -> Result<(), OutOfMemory>
    ensures { OnOk result (out.new.items ≡ out.old.items ++ joined (condition_words condition ++ label_name (slice_get labels.now label) ∷ [])) }
{
    put_condition(out, condition)?;
    put_next_label(out, labels, label as usize)
}

/// Puts a word and an operand.
#[tactic(auto, using(crate::proofs::Appends::two_words))]
fn put_with_operand(out: &mut Vec<u8>, word: &str, value: Operand) -> Result<(), OutOfMemory>
    ensures { OnOk result (out.new.items ≡ out.old.items ++ joined (word.now ∷ operand_word value ∷ [])) }
{
    put(out, word.as_bytes())?;
    put_next_operand(out, value)
}

/// Puts a word, a register and an operand.
#[tactic(auto, using(crate::proofs::Appends::three_words))]
fn put_with_register(
    out: &mut Vec<u8>,
    word: &str,
    register: u8,
    value: Operand,
) -> Result<(), OutOfMemory>
    ensures { OnOk result (out.new.items ≡ out.old.items ++ joined (word.now ∷ register_word register ∷ operand_word value ∷ [])) }
{
    put(out, word.as_bytes())?;
    put_next_register(out, register)?;
    put_next_operand(out, value)
}

/// Puts the words of a store.
#[tactic(auto, using(crate::proofs::Appends::three_words))]
fn put_store(out: &mut Vec<u8>, address: Operand, value: Operand) -> Result<(), OutOfMemory>
    ensures { OnOk result (out.new.items ≡ out.old.items ++ joined (codes "stb" ∷ operand_word address ∷ operand_word value ∷ [])) }
{
    put(out, b"stb")?;
    put_next_operand(out, address)?;
    put_next_operand(out, value)
}

/// Puts the words of a statement that prints a name.
#[tactic(auto, using(crate::proofs::Appends::two_words))]
fn put_say(out: &mut Vec<u8>, name: &[u8]) -> Result<(), OutOfMemory>
    ensures { OnOk result (out.new.items ≡ out.old.items ++ joined (codes "say" ∷ name.now ∷ [])) }
{
    put(out, b"say")?;
    put_next(out, name)
}

/// Puts a lone word.
#[tactic(auto, using(crate::proofs::Appends::one_word))]
fn put_alone(out: &mut Vec<u8>, word: &str) -> Result<(), OutOfMemory>
    ensures { OnOk result (out.new.items ≡ out.old.items ++ joined (word.now ∷ [])) }
{
    put(out, word.as_bytes())
}

/// Puts the words of a call.
#[tactic(auto, using(crate::proofs::Appends::first_word))]
fn put_call(
    out: &mut Vec<u8>,
    bodies: &[Body],
    name: CallName,
    args: &[Arg],
) -> Result<(), OutOfMemory>
    ensures { OnOk result (out.new.items ≡ out.old.items ++ joined (text_of name ∷ arg_words bodies.now (form_of name) args.now)) }
{
    put(out, name.text().as_bytes())?;
    put_args(out, bodies, name.form(), args)
}

/// Puts the words of a statement.
#[tactic(auto, unfolding(tk_model::specs::ScriptText::stmt_words))]
fn put_stmt(
    out: &mut Vec<u8>,
    bodies: &[Body],
    labels: &[Label],
    stmt: &Stmt,
) -> Result<(), OutOfMemory>
    ensures { OnOk result (out.new.items ≡ out.old.items ++ joined (stmt_words bodies.now labels.now stmt.now)) }
{
    match stmt {
        Stmt::Compute {
            operation,
            register,
            value,
        } => put_with_register(out, operation_word(*operation), *register, *value),
        Stmt::Load { register, address } => put_with_register(out, "ldb", *register, *address),
        Stmt::Store { address, value } => put_store(out, *address, *value),
        Stmt::Jump { condition, label } => put_jump(out, labels, *condition, *label),
        Stmt::Say(name) => put_say(out, name.as_bytes()),
        Stmt::Show(value) => put_with_operand(out, "show", *value),
        Stmt::Nop => put_alone(out, "nop"),
        Stmt::Halt => put_alone(out, "halt"),
        Stmt::Return(value) => put_with_operand(out, "return", *value),
        Stmt::Call { name, args } => put_call(out, bodies, *name, args.as_slice()),
    }
}

/// Prints the line of a statement.
#[tactic(auto, using(std::proofs::Common::append_assoc))]
pub(crate) fn print_stmt(
    out: &mut Vec<u8>,
    bodies: &[Body],
    labels: &[Label],
    stmt: &Stmt,
) -> Result<(), OutOfMemory>
    ensures { OnOk result (out.new.items ≡ out.old.items ++ line_text (stmt_words bodies.now labels.now stmt.now)) }
{
    put_stmt(out, bodies, labels, stmt)?;
    put_end(out)
}
