//! Laws of what objects hold in every state that the whole machine comes to, each the contract of a function that does nothing.

ghost use Rattle.std.specs.Prelude.{ℕ, List};
ghost use Rattle.tk_types.specs.declared.run.Mode.{Mode};
ghost use Rattle.tk_types.specs.declared.script.Script.{Script};
ghost use Rattle.kernel_model.specs.Bodies.Statements.{IsRunnable};
ghost use Rattle.machine_model.specs.Runs.Reached.{Move, state_after};
ghost use Rattle.mail_laws.specs.Rooms.{HaveRoom};
ghost use Rattle.mail_laws.specs.Turns.{AreInTurn};
ghost use Rattle.pool_laws.specs.Blocks.{AllLieApart};

/// In every state that a machine comes to, by whatever steps and endings, what lies in a message buffer takes no more than its size.
pub fn what_lies_in_a_buffer_has_room_in_every_state()
    ensures { (script : Script) (mode : Mode) (budget : ℕ) (moves : List Move) → IsRunnable script →
        HaveRoom (state_after script mode budget moves).objects.mails }
{}

/// In every state that a machine comes to, by whatever steps and endings, none of the messages of a mailbox that goes by priority
/// stands behind one of a lower priority.
pub fn a_mailbox_is_in_order_in_every_state()
    ensures { (script : Script) (mode : Mode) (budget : ℕ) (moves : List Move) → IsRunnable script →
        AreInTurn (state_after script mode budget moves).objects.mails }
{}

/// In every state that a machine comes to, by whatever steps and endings, the live blocks of each variable pool lie inside it, one
/// behind the other, and none is empty.
pub fn live_blocks_lie_apart_in_every_state()
    ensures { (script : Script) (mode : Mode) (budget : ℕ) (moves : List Move) → IsRunnable script →
        AllLieApart (state_after script mode budget moves).objects.pools }
{}
