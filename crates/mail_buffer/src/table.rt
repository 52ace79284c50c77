//! The table of mailboxes and message buffers.

ghost use Rattle.std.specs.Prelude.{◌≡◌, ◌≤◌, ◌∷◌, ◌++◌, true, IfNone, IfOk, None, Some, OnErr, OnOk, [], drop, length, option_copied, replicate, slice_get, slice_set};
ghost use Rattle.std.specs.Option.{is_some, option_map};
ghost use Rattle.kernel_model.specs.Words.Orders.{free_from};
ghost use Rattle.object_model.specs.Mails.Boxes.{put_in};
ghost use Rattle.object_model.specs.Mails.Calls.{asked_into, asked_to_send, free_box, free_buffer, has_place};
ghost use Rattle.object_model.specs.Mails.Tables.{Mailbox, MessageBuffer, box_at, buffer_at, bytes_of, has_mbf, has_mbx, mails_start, place_of, with_box, with_buffer};
ghost use Rattle.object_model.specs.Mails.Bytes.{with_bytes};
ghost use Rattle.mail_buffer.specs.Cuts.{MayEnter, oldest_of};
ghost use Rattle.mail_buffer.specs.Tables.{AreFreeFrom, AreNamed};

use crate::boxes::Mailbox;
use crate::buffers::MessageBuffer;
use object_model::mails::Message;
use std::alloc::{AllocError, Global};
use std::marker::Model;
use task_machine::Memory;

/// The bytes that a task sends.
#[derive(Drop)]
pub(crate) struct Bytes {
    bytes: Vec<u8>,
}

impl Model for Bytes {
    ghost use Rattle.std.specs.Prelude.{List, ℕ};

    ghost Value = { List ℕ };

    ghost view = { λ b. b.bytes.items };
}

impl Bytes {
    /// These bytes, which it owns from now on.
    pub(crate) fn of(bytes: Vec<u8>) -> Bytes
        ensures { result ≡ bytes.items }
    {
        Bytes { bytes }
    }

    /// The bytes.
    pub(crate) fn as_slice(&self) -> &[u8]
        ensures { result.now ≡ self.now }
    {
        self.bytes.as_slice()
    }
}

/// The mailboxes and the message buffers by ID, and what each task sends, or where its message goes, since it last waited
/// for a buffer.
#[derive(Drop)]
pub struct Mails {
    alloc: Global,
    boxes: Vec<Option<Mailbox>>,
    buffers: Vec<Option<MessageBuffer>>,
    sending: Vec<Bytes>,
    into: Vec<u32>,
    /// One more than the greatest ID whose slot for a mailbox was ever written, and 1 at first.
    boxes_used: u8,
    /// The same for message buffers.
    buffers_used: u8,
}

impl Model for Mails {
    ghost use Rattle.object_model.specs.Mails.Tables.{Mails as MailsView};
    ghost use Rattle.mail_buffer.specs.Tables.{AreTables};

    ghost Value = { MailsView };

    ghost view = { λ m. record { boxes = m.boxes.items; buffers = m.buffers.items; sending = m.sending.items; into = m.into.items } };

    ghost invariant = { λ m. AreTables m.boxes.items m.buffers.items m.sending.items m.into.items m.boxes_used m.buffers_used };
}

/// Free slots for mailboxes.
fn free_boxes(alloc: Global) -> Result<Vec<Option<Mailbox>>, AllocError>
    ensures { IfOk result (λ slots. slots.items ≡ replicate 65 None) }
{
    let mut slots = Vec::with_capacity(alloc, 65)?;
    'slots: for _id in 0..65usize {
        slots.push(None)?;
    }
    Ok(slots)
}

/// Free slots for message buffers.
fn free_buffers(alloc: Global) -> Result<Vec<Option<MessageBuffer>>, AllocError>
    ensures { IfOk result (λ slots. slots.items ≡ replicate 65 None) }
{
    let mut slots = Vec::with_capacity(alloc, 65)?;
    'slots: for _id in 0..65usize {
        slots.push(None)?;
    }
    Ok(slots)
}

/// No byte for each task.
fn no_bytes(alloc: Global) -> Result<Vec<Bytes>, AllocError>
    ensures { IfOk result (λ sending. sending.items ≡ replicate 256 []) }
{
    let mut sending = Vec::with_capacity(alloc, 256)?;
    'tasks: for _task in 0..256usize {
        sending.push(Bytes::of(Vec::new(alloc)))?;
    }
    Ok(sending)
}

/// The place 0 for each task.
fn no_places(alloc: Global) -> Result<Vec<u32>, AllocError>
    ensures { IfOk result (λ places. places.items ≡ replicate 256 0) }
{
    let mut places = Vec::with_capacity(alloc, 256)?;
    'tasks: for _task in 0..256usize {
        places.push(0u32)?;
    }
    Ok(places)
}

impl Mails {
    /// No mailbox and no message buffer, and slots for 64 of each.
    #[tactic(auto, using(crate::proofs::Tables::fit_at_start))]
    pub fn new(alloc: Global) -> Result<Mails, AllocError>
        ensures { IfOk result (λ table. table ≡ mails_start) }
    {
        Ok(Mails {
            alloc,
            boxes: free_boxes(alloc)?,
            buffers: free_buffers(alloc)?,
            sending: no_bytes(alloc)?,
            into: no_places(alloc)?,
            boxes_used: 1,
            buffers_used: 1,
        })
    }

    /// States, at no cost, that the table has a place for each task.
    pub fn known_of_tasks(&self)
        ensures sending { length self.now.sending ≡ 256 }
        ensures into { length self.now.into ≡ 256 }
    {
        let _sending = &self.sending;
    }

    /// States, at no cost, that the IDs of message buffers are from 1 to 64.
    pub fn known_of_buffers(&self)
        ensures { AreNamed self.now }
    {
        let _buffers = &self.buffers;
    }

    /// Where what the table keeps is allocated.
    pub(crate) fn alloc(&self) -> Global {
        self.alloc
    }

    /// How far the slots for mailboxes are used: no mailbox has that ID or a greater one.
    pub(crate) fn boxes_used(&self) -> u8
        ensures within { result ≤ length self.now.boxes }
        ensures few { result ≤ 65 }
        ensures free { AreFreeFrom result self.now.boxes }
    {
        self.boxes_used
    }

    /// Whether the mailbox with that ID exists.
    pub fn has_mbx(&self, id: u8) -> bool
        ensures { result ≡ has_mbx self.now id }
    {
        self.mailbox(id).is_some()
    }

    /// The mailbox with that ID.
    pub(crate) fn mailbox(&self, id: u8) -> Option<&Mailbox>
        ensures { option_copied result ≡ box_at self.now id }
    {
        if id as usize >= self.boxes.len() {
            return None;
        }
        self.boxes[id as usize].as_ref()
    }

    /// A message goes into a mailbox, where there is one with that ID. An error says that there was no memory, and that
    /// nothing changed.
    pub(crate) fn put_in_box(&mut self, id: u8, message: Message) -> Result<(), AllocError>
        requires { id ≤ 64 }
        ensures ok { OnOk result ((k : Mailbox) → box_at self.old id ≡ Some k → self.new ≡ with_box self.old id (Some (put_in k message))) }
        ensures err { OnErr result (self.new ≡ self.old) }
    {
        match &mut self.boxes[id as usize] {
            None => Ok(()),
            Some(k) => k.put_in(message),
        }
    }

    /// The first message of a mailbox leaves it. None, with nothing changed, comes where no message lies there.
    #[tactic(auto, using(crate::proofs::BoxMails::kept_box))]
    pub(crate) fn take_from_box(&mut self, id: u8) -> Option<Message>
        requires { id ≤ 64 }
        ensures first { (k : Mailbox) → box_at self.old id ≡ Some k → result ≡ slice_get k.messages 0 }
        ensures left { (k : Mailbox) → box_at self.old id ≡ Some k → self.new ≡ with_box self.old id (Some (record k { messages = drop 1 k.messages })) }
        ensures kept { IfNone result (self.new ≡ self.old) }
    {
        match &mut self.boxes[id as usize] {
            None => None,
            Some(k) => k.take_first(),
        }
    }

    /// Writes the slot of a mailbox.
    #[tactic(auto, using(crate::proofs::Tables::free_written))]
    pub(crate) fn set_box(&mut self, id: u8, slot: Option<Mailbox>)
        requires { id ≤ 64 }
        ensures { self.new ≡ with_box self.old id slot }
    {
        self.boxes[id as usize] = slot;
        self.boxes_used = self.boxes_used.max(id + 1);
    }

    /// How far the slots for message buffers are used: no message buffer has that ID or a greater one.
    pub(crate) fn buffers_used(&self) -> u8
        ensures within { result ≤ length self.now.buffers }
        ensures few { result ≤ 65 }
        ensures free { AreFreeFrom result self.now.buffers }
    {
        self.buffers_used
    }

    /// Whether the message buffer with that ID exists.
    pub fn has_mbf(&self, id: u8) -> bool
        ensures { result ≡ has_mbf self.now id }
    {
        self.buffer(id).is_some()
    }

    /// The message buffer with that ID.
    pub(crate) fn buffer(&self, id: u8) -> Option<&MessageBuffer>
        ensures { option_copied result ≡ buffer_at self.now id }
    {
        if id as usize >= self.buffers.len() {
            return None;
        }
        self.buffers[id as usize].as_ref()
    }

    /// Writes the slot of a message buffer.
    #[tactic(auto, using(crate::proofs::Tables::free_written, crate::proofs::Tables::unnamed_written))]
    pub(crate) fn set_buffer(&mut self, id: u8, slot: Option<MessageBuffer>)
        requires low { 1 ≤ id }
        requires high { id ≤ 64 }
        ensures { self.new ≡ with_buffer self.old id slot }
    {
        self.buffers[id as usize] = slot;
        self.buffers_used = self.buffers_used.max(id + 1);
    }

    /// A message goes into a message buffer, where there is one with that ID. Its bytes are copied once.
    pub(crate) fn store(&mut self, id: u8, bytes: &[u8])
        requires high { id ≤ 64 }
        requires may { (k : MessageBuffer) → buffer_at self.old id ≡ Some k → MayEnter k bytes.now }
        ensures { (k : MessageBuffer) → buffer_at self.old id ≡ Some k → self.new ≡ with_buffer self.old id (Some (record k { messages = k.messages ++ bytes.now ∷ [] })) }
    {
        if let Some(k) = &mut self.buffers[id as usize] {
            k.store(bytes);
        }
    }

    /// The message that a task sends goes into a message buffer, where there is one with that ID. Its bytes are copied once.
    pub(crate) fn store_sent(&mut self, id: u8, sender: u8)
        requires high { id ≤ 64 }
        requires may { (k : MessageBuffer) → buffer_at self.old id ≡ Some k → MayEnter k (bytes_of self.old sender) }
        ensures { (k : MessageBuffer) → buffer_at self.old id ≡ Some k → self.new ≡ with_buffer self.old id (Some (record k { messages = k.messages ++ bytes_of self.old sender ∷ [] })) }
    {
        let bytes = self.sending[sender as usize].as_slice();
        if let Some(k) = &mut self.buffers[id as usize] {
            k.store(bytes);
        }
    }

    /// The oldest message of a message buffer leaves it, and its bytes go into memory from an address on, where the longest
    /// has its place. Answers its length; 0, with nothing changed, comes where no message lies there.
    pub(crate) fn take_into(&mut self, id: u8, memory: &mut Memory, address: u32) -> u16
        requires high { id ≤ 64 }
        requires place { (k : MessageBuffer) → buffer_at self.old id ≡ Some k → has_place address k ≡ true }
        ensures length { (k : MessageBuffer) → buffer_at self.old id ≡ Some k → result ≡ length (oldest_of k.messages) }
        ensures read { (k : MessageBuffer) → buffer_at self.old id ≡ Some k → memory.new ≡ with_bytes memory.old address (oldest_of k.messages) }
        ensures left { (k : MessageBuffer) → buffer_at self.old id ≡ Some k → self.new ≡ with_buffer self.old id (Some (record k { messages = drop 1 k.messages })) }
    {
        match &mut self.buffers[id as usize] {
            None => 0,
            Some(k) => k.take_into(memory, address),
        }
    }

    /// The bytes that a task sends.
    pub(crate) fn bytes_of(&self, task: u8) -> &[u8]
        ensures { result.now ≡ bytes_of self.now task }
    {
        self.sending[task as usize].as_slice()
    }

    /// Where a task's message goes.
    pub(crate) fn place_of(&self, task: u8) -> u32
        ensures { result ≡ place_of self.now task }
    {
        self.into[task as usize]
    }

    /// Notes the bytes that a task sends.
    pub(crate) fn ask_to_send(&mut self, task: u8, bytes: Vec<u8>)
        ensures { self.new ≡ asked_to_send self.old task bytes.items }
    {
        self.sending[task as usize] = Bytes::of(bytes);
    }

    /// Notes where a task's message goes.
    pub(crate) fn ask_into(&mut self, task: u8, address: u32)
        ensures { self.new ≡ asked_into self.old task address }
    {
        self.into[task as usize] = address;
    }

    /// The least free ID of a message buffer, or 0.
    pub(crate) fn free_buffer(&self) -> u8
        ensures free { result ≡ free_buffer self.now }
        ensures within { result ≤ 64 }
    {
        least_free_buffer(&self.buffers)
    }

    /// The least free ID of a mailbox, or 0.
    pub(crate) fn free_box(&self) -> u8
        ensures free { result ≡ free_box self.now }
        ensures within { result ≤ 64 }
    {
        least_free_box(&self.boxes)
    }
}

/// The least free ID of a table of mailboxes, or 0.
#[tactic(auto, unfolding(kernel_model::specs::Words::Orders::free_from))]
fn least_free_box(slots: &[Option<Mailbox>]) -> u8
    requires { length slots.now ≡ 65 }
    ensures free { result ≡ free_from 1 (drop 1 slots.now) }
    ensures within { result ≤ 64 }
{
    'slots: for id in 1..65usize {
        if slots[id].is_none() {
            return id as u8;
        }
    }
    0
}

/// The least free ID of a table of message buffers, or 0.
#[tactic(auto, unfolding(kernel_model::specs::Words::Orders::free_from))]
fn least_free_buffer(slots: &[Option<MessageBuffer>]) -> u8
    requires { length slots.now ≡ 65 }
    ensures free { result ≡ free_from 1 (drop 1 slots.now) }
    ensures within { result ≤ 64 }
{
    'slots: for id in 1..65usize {
        if slots[id].is_none() {
            return id as u8;
        }
    }
    0
}
