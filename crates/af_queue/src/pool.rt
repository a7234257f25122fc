//! The messages of many queues in one table, each with the key of the one behind it.
ghost use Rattle.std.specs.Prelude.{◌≡◌, ◌≢◌, ◌<◌, ◌≤◌, ◌∷◌, ◌++◌, ℕ, [], Some, IfSome, IfNone};
ghost use Rattle.std.specs.Prelude.{IfOk, IsOk, OnOk, OnErr, drop, length, slice_get, true};
ghost use Rattle.std.specs.Option.{option_map_or};
ghost use Rattle.slab.specs.Slab as slots;
ghost use Rattle.af_base.specs.Take.{cut, keeps_borders, take_from, take_stream};
ghost use Rattle.af_base.specs.Whole.{IsMessageWithin};
ghost use Rattle.af_queue.specs.declared.chain.Node.{Node};
ghost use Rattle.af_queue.specs.Chains.{has_room, messages_of, IsChain, KeepsNodes, SameElsewhere};
ghost use Rattle.af_queue.specs.TakenView.{message_at, nothing_received, received};
ghost use Rattle.af_queue.specs.TakenView.{with_files_of};

use crate::chain::{Chain, Node};
use crate::message::Msg;
use crate::queue::Queue;
use crate::taken::Taken;
use af_base::events::SockType;
use af_base::items::Items;
use af_base::limits::MAX_MESSAGES;
use slab::Slab;
use std::alloc::{AllocError, Global};

/// Makes room for one message more, so that the next `push` cannot fail. No queue changes. Fails if
/// memory is refused, or if no key of 32 bits is left.
#[inline(always)]
pub fn room(nodes: &mut Slab<Node>) -> Result<(), AllocError>
    ensures ok { OnOk result (has_room nodes.new ≡ true) }
    ensures succeeds { has_room nodes.old ≡ true → IsOk result }
    ensures rest { nodes.new ≡ record nodes.old { capacity = nodes.new.capacity } }
{
    if nodes.vacant_key() > u32::MAX as usize {
        return Err(AllocError);
    }
    nodes.reserve(1)
}

/// Appends a message to `chain`, which is not full. Cannot fail, since there is room.
#[inline(always)]
pub fn push(nodes: &mut Slab<Node>, chain: &mut Chain, message: Msg)
    requires chain { IsChain nodes.old chain.old }
    requires few { length (messages_of nodes.old chain.old) < MAX_MESSAGES }
    requires within { IsMessageWithin message }
    requires room { has_room nodes.old ≡ true }
    ensures chain { IsChain nodes.new chain.new }
    ensures messages { messages_of nodes.new chain.new
        ≡ messages_of nodes.old chain.old ++ message ∷ [] }
    ensures others { SameElsewhere nodes.old chain.old nodes.new chain.new }
    ensures none_lost { KeepsNodes nodes.old chain.old nodes.new chain.new }
{
    let has_files = message.has_files();
    let key = nodes.insert_reserved(Node { message, next: 0 }) as u32;
    if chain.len == 0 {
        *chain = Chain {
            first: key,
            last: key,
            len: 1,
            has_files,
        };
        return;
    }
    link(nodes, chain.last, key);
    chain.last = key;
    chain.len += 1;
    chain.has_files |= has_files;
}

/// Links the node at `key` to the one at `next`.
#[inline(always)]
fn link(nodes: &mut Slab<Node>, key: u32, next: u32)
    ensures linked { (x : Node) → slots.get nodes.old key ≡ Some x
        → slots.get nodes.new key ≡ Some (record x { next = next }) }
    ensures others { (q : ℕ) → q ≢ key → slots.get nodes.new q ≡ slots.get nodes.old q }
    ensures none_lost { slots.slab_len nodes.new ≡ slots.slab_len nodes.old }
{
    if let Some(node) = nodes.get_mut(key as usize) {
        node.next = next;
    }
}

/// Removes the first message of `chain`, if there is one. Takes no memory.
#[inline(always)]
pub fn pop(nodes: &mut Slab<Node>, chain: &mut Chain) -> Option<Msg>
    requires chain { IsChain nodes.old chain.old }
    ensures chain { IsChain nodes.new chain.new }
    ensures some { IfSome result (λ m.
        messages_of nodes.old chain.old ≡ m ∷ messages_of nodes.new chain.new) }
    ensures none { IfNone result (messages_of nodes.old chain.old ≡ []) }
    ensures rest { messages_of nodes.new chain.new ≡ drop 1 (messages_of nodes.old chain.old) }
    ensures within { IfSome result IsMessageWithin }
    ensures others { SameElsewhere nodes.old chain.old nodes.new chain.new }
    ensures none_lost { KeepsNodes nodes.old chain.old nodes.new chain.new }
{
    if chain.len == 0 {
        return None;
    }
    let node = nodes.remove(chain.first as usize);
    chain.first = node.next;
    chain.len -= 1;
    Some(node.message)
}

/// Moves what a receive of at most `max` bytes gives (recvmsg(2)) from `chain` to `taken`: of
/// packets (SOCK_SEQPACKET) the first, without memory; of a stream (SOCK_STREAM) bytes across
/// messages, up to the end of the first one with files. On an error nothing has changed.
#[inline(always)]
pub fn take(
    nodes: &mut Slab<Node>,
    chain: &mut Chain,
    alloc: Global,
    kind: SockType,
    max: usize,
    taken: &mut Taken,
) -> Result<(), AllocError>
    requires chain { IsChain nodes.old chain.old }
    requires some { 0 < max }
    requires empty { taken.old ≡ nothing_received }
    ensures taken { OnOk result (taken.new ≡ received kind (messages_of nodes.old chain.old) max) }
    ensures rest { OnOk result (messages_of nodes.new chain.new
        ≡ (take_from kind (messages_of nodes.old chain.old) max).rest) }
    ensures chain { IsChain nodes.new chain.new }
    ensures others { SameElsewhere nodes.old chain.old nodes.new chain.new }
    ensures none_lost { KeepsNodes nodes.old chain.old nodes.new chain.new }
    ensures same { OnErr result
        (messages_of nodes.new chain.new ≡ messages_of nodes.old chain.old) }
    ensures unchanged { OnErr result (nodes.new ≡ nodes.old) }
    ensures nothing_taken { OnErr result (taken.new ≡ taken.old) }
    ensures succeeds { keeps_borders kind ≡ true → IsOk result }
{
    match kind {
        SockType::Stream => take_stream(nodes, chain, alloc, max, taken),
        SockType::Seqpacket | SockType::Dgram => {
            take_packet(nodes, chain, max, taken);
            Ok(())
        }
    }
}

/// Takes a packet: the first message, cut to `max` bytes.
#[inline(always)]
fn take_packet(nodes: &mut Slab<Node>, chain: &mut Chain, max: usize, taken: &mut Taken)
    requires chain { IsChain nodes.old chain.old }
    requires empty { taken.old ≡ nothing_received }
    ensures taken { taken.new ≡ received SockType.Seqpacket (messages_of nodes.old chain.old) max }
    ensures rest { messages_of nodes.new chain.new ≡ drop 1 (messages_of nodes.old chain.old) }
    ensures chain { IsChain nodes.new chain.new }
    ensures others { SameElsewhere nodes.old chain.old nodes.new chain.new }
    ensures none_lost { KeepsNodes nodes.old chain.old nodes.new chain.new }
{
    if let Some(message) = pop(nodes, chain) {
        message.give(max, taken);
    }
}

/// Takes bytes of a stream. Those of a message that is taken whole and alone are not copied.
fn take_stream(
    nodes: &mut Slab<Node>,
    chain: &mut Chain,
    alloc: Global,
    max: usize,
    taken: &mut Taken,
) -> Result<(), AllocError>
    requires chain { IsChain nodes.old chain.old }
    requires some { 0 < max }
    requires empty { taken.old ≡ nothing_received }
    ensures taken { OnOk result
        (taken.new ≡ received SockType.Stream (messages_of nodes.old chain.old) max) }
    ensures rest { OnOk result (messages_of nodes.new chain.new
        ≡ (take_stream (messages_of nodes.old chain.old) max).rest) }
    ensures chain { IsChain nodes.new chain.new }
    ensures others { SameElsewhere nodes.old chain.old nodes.new chain.new }
    ensures none_lost { KeepsNodes nodes.old chain.old nodes.new chain.new }
    ensures same { OnErr result
        (messages_of nodes.new chain.new ≡ messages_of nodes.old chain.old) }
    ensures unchanged { OnErr result (nodes.new ≡ nodes.old) }
    ensures nothing_taken { OnErr result (taken.new ≡ taken.old) }
{
    let queue = Queue::of(nodes, chain);
    // Most receives end within the first message.
    if let Some(first) = queue.first()
        && max < first.len()
    {
        taken.copy_bytes(&first.bytes()[..max])?;
        shorten_first(nodes, chain, max, taken);
        return Ok(());
    }
    let (count, _) = queue.stream_cut(max);
    if queue.front_len() == count {
        take_packet(nodes, chain, count, taken);
        return Ok(());
    }
    let bytes = queue.copy(alloc, count)?;
    taken.set_bytes(Items::of(bytes));
    cut(nodes, chain, count, taken);
    Ok(())
}

/// Removes the first `count` bytes. Moves the files of the message that has the last of them, and
/// their sender, to `taken`.
fn cut(nodes: &mut Slab<Node>, chain: &mut Chain, count: usize, taken: &mut Taken)
    requires chain { IsChain nodes.old chain.old }
    requires some { 0 < count }
    requires no_files { taken.old.message.attached ≡ [] }
    ensures messages { messages_of nodes.new chain.new
        ≡ cut count (messages_of nodes.old chain.old) }
    ensures taken { taken.new ≡ option_map_or (λ m. with_files_of m taken.old)
        (message_at count (messages_of nodes.old chain.old)) taken.old }
    ensures chain { IsChain nodes.new chain.new }
    ensures others { SameElsewhere nodes.old chain.old nodes.new chain.new }
    ensures none_lost { KeepsNodes nodes.old chain.old nodes.new chain.new }
{
    let mut left = count;
    while let Some(rest) = drop_shorter(nodes, chain, left) {
        left = rest;
    }
    cut_first(nodes, chain, left, taken);
}

/// Removes the first message, if it has fewer bytes than `count`. Returns how many more to remove.
fn drop_shorter(nodes: &mut Slab<Node>, chain: &mut Chain, count: usize) -> Option<usize>
    requires chain { IsChain nodes.old chain.old }
    ensures cut { IfSome result (λ rest.
        cut rest (messages_of nodes.new chain.new) ≡ cut count (messages_of nodes.old chain.old)) }
    ensures at { IfSome result (λ rest. message_at rest (messages_of nodes.new chain.new)
        ≡ message_at count (messages_of nodes.old chain.old)) }
    ensures more { IfSome result (λ rest. 0 < rest) }
    ensures fewer { IfSome result (λ _.
        length (messages_of nodes.new chain.new) < length (messages_of nodes.old chain.old)) }
    ensures chain { IsChain nodes.new chain.new }
    ensures others { SameElsewhere nodes.old chain.old nodes.new chain.new }
    ensures none_lost { KeepsNodes nodes.old chain.old nodes.new chain.new }
    ensures nodes { IfNone result (nodes.new ≡ nodes.old) }
    ensures same { IfNone result (chain.new ≡ chain.old) }
    ensures long { IfNone result
        (IfSome (slice_get (messages_of nodes.old chain.old) 0) (λ m. count ≤ length m.bytes)) }
{
    let size = Queue::of(nodes, chain).first()?.len();
    if count <= size {
        return None;
    }
    pop(nodes, chain);
    Some(count - size)
}

/// Removes `count` bytes from the first message, which has at least that many, and moves its files
/// and sender to `taken`. Removes the message if no byte is left.
fn cut_first(nodes: &mut Slab<Node>, chain: &mut Chain, count: usize, taken: &mut Taken)
    requires chain { IsChain nodes.old chain.old }
    requires some { 0 < count }
    requires long { IfSome (slice_get (messages_of nodes.old chain.old) 0) (λ m.
        count ≤ length m.bytes) }
    requires no_files { taken.old.message.attached ≡ [] }
    ensures messages { messages_of nodes.new chain.new
        ≡ cut count (messages_of nodes.old chain.old) }
    ensures taken { taken.new ≡ option_map_or (λ m. with_files_of m taken.old)
        (slice_get (messages_of nodes.old chain.old) 0) taken.old }
    ensures chain { IsChain nodes.new chain.new }
    ensures others { SameElsewhere nodes.old chain.old nodes.new chain.new }
    ensures none_lost { KeepsNodes nodes.old chain.old nodes.new chain.new }
{
    if count < Queue::of(nodes, chain).front_len() {
        shorten_first(nodes, chain, count, taken);
        return;
    }
    if let Some(mut message) = pop(nodes, chain) {
        taken.take_files(&mut message);
    }
}

/// Removes `count` bytes from the first message, which has more, and moves its files and sender to
/// `taken`. Takes no memory.
#[inline(always)]
fn shorten_first(nodes: &mut Slab<Node>, chain: &Chain, count: usize, taken: &mut Taken)
    requires chain { IsChain nodes.old chain.now }
    requires some { 0 < count }
    requires long { count
        < option_map_or (λ m. length m.bytes) (slice_get (messages_of nodes.old chain.now) 0) 0 }
    requires no_files { taken.old.message.attached ≡ [] }
    ensures messages { messages_of nodes.new chain.now
        ≡ cut count (messages_of nodes.old chain.now) }
    ensures taken { taken.new ≡ option_map_or (λ m. with_files_of m taken.old)
        (slice_get (messages_of nodes.old chain.now) 0) taken.old }
    ensures chain { IsChain nodes.new chain.now }
    ensures others { SameElsewhere nodes.old chain.now nodes.new chain.now }
    ensures none_lost { slots.slab_len nodes.new ≡ slots.slab_len nodes.old }
{
    if let Some(node) = nodes.get_mut(chain.first as usize) {
        node.message.drop_front(count);
        taken.take_files(&mut node.message);
    }
}
