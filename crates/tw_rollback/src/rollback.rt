//! Rollback and receipt, by the calls of a process alone.

ghost use Rattle.std.specs.Prelude.{◌≡◌, ◌≤◌, ◌↔◌, Err, IfOk, IfErr, IsOk, OnErr};
ghost use Rattle.tw_pool.specs.declared.refused.PoolRefused.TheVariants.{Full};
ghost use Rattle.tw_process.specs.Process.{IsFullBy, with_cut, SameButSpare};
ghost use Rattle.tw_rollback.specs.Received.{IsCame, need};
ghost use Rattle.tw_theory.specs.Contents.{steps_from, receive, receive_message, receive_anti};
ghost use Rattle.tw_theory.specs.Memory.{need_of_received};
ghost use Rattle.tw_theory.specs.Standing.{CanTake};

use tw_actions::Received;
use tw_atomic::Atomic;
use tw_msgs::{Item, Message, Sign};
use tw_pool::PoolRefused;
use tw_process::Process;
use tw_vtime::Stamp;

/// Takes back every step at or after this stamp, the last first, and answers how many. It takes no memory.
pub fn back_to<M: Atomic>(process: &mut Process<M>, stamp: Stamp) -> u64
    ensures cut { process.new ≡ with_cut stamp process.old }
    ensures count { result ≡ steps_from stamp process.old.process }
{
    let before = process.history_len();
    while let Some(last) = process.last_stamp() {
        if last < stamp {
            break;
        }
        process.undo_last();
    }
    (before - process.history_len()) as u64
}

/// Receives an item: a message for a transition of this component, or its anti-message, not before a step that was
/// committed.
///
/// - A message whose anti-message waits: one of each is annihilated.
/// - Else a message at or before the last step's stamp, a straggler: every step at or after its stamp is taken back,
///   and it is pending.
/// - Any other message is pending.
/// - An anti-message whose message is pending: one of each is annihilated.
/// - Else an anti-message whose message was consumed: the steps from its stamp on are taken back, and one of each is
///   annihilated.
/// - Any other anti-message waits for its message.
///
/// Refused only where the item takes a node, so never where it is annihilated: for want of memory (4), or exactly
/// where the lists would have more than 1,048,576 nodes (12). Then it is handed back, and the process is as it was.
pub fn receive<M: Atomic>(
    process: &mut Process<M>,
    item: Item,
) -> Result<Received, (Item, PoolRefused)>
    requires fits { CanTake process.old.component item.message }
    requires after { process.old.floor ≤ item.message.stamp }
    ensures received { IfOk result
        (IsCame process.old process.new (receive process.old.process item)) }
    ensures stays { OnErr result (SameButSpare process.old process.new) }
    ensures handed_back { IfErr result (λ refused. refused.0 ≡ item) }
    ensures limit { IsFullBy (need process.old.process item) process.old.process
        ↔ result ≡ Err (item, Full) }
    ensures succeeds { need process.old.process item ≡ 0 → IsOk result }
{
    let came = match item.sign {
        Sign::Positive => receive_message(process, &item.message),
        Sign::Anti => receive_anti(process, &item.message),
    };
    match came {
        Ok(came) => Ok(came),
        Err(refused) => Err((item, refused)),
    }
}

/// A message comes.
fn receive_message<M: Atomic>(
    process: &mut Process<M>,
    message: &Message,
) -> Result<Received, PoolRefused>
    requires fits { CanTake process.old.component message.now }
    requires after { process.old.floor ≤ message.now.stamp }
    ensures received { IfOk result
        (IsCame process.old process.new (receive_message process.old.process message.now)) }
    ensures stays { OnErr result (SameButSpare process.old process.new) }
    ensures limit { let came = (receive_message process.old.process message.now).0 in
        IsFullBy (need_of_received came) process.old.process ↔ result ≡ Err Full }
    ensures succeeds { let came = (receive_message process.old.process message.now).0 in
        need_of_received came ≡ 0 → IsOk result }
{
    process.count_law();
    if process.clear_orphan(message) {
        return Ok(Received::Annihilated(0));
    }
    process.reserve()?;
    let overtaken = back_to(process, message.stamp);
    process.put_reserved(message);
    if overtaken == 0 {
        return Ok(Received::Placed);
    }
    Ok(Received::Straggler(overtaken))
}

/// An anti-message comes.
fn receive_anti<M: Atomic>(
    process: &mut Process<M>,
    message: &Message,
) -> Result<Received, PoolRefused>
    ensures received { IfOk result
        (IsCame process.old process.new (receive_anti process.old.process message.now)) }
    ensures stays { OnErr result (SameButSpare process.old process.new) }
    ensures limit { let came = (receive_anti process.old.process message.now).0 in
        IsFullBy (need_of_received came) process.old.process ↔ result ≡ Err Full }
    ensures succeeds { let came = (receive_anti process.old.process message.now).0 in
        need_of_received came ≡ 0 → IsOk result }
{
    process.count_law();
    if process.withdraw(message) {
        return Ok(Received::Annihilated(0));
    }
    if process.has_consumed(message) {
        let undone = back_to(process, message.stamp);
        process.withdraw(message);
        return Ok(Received::Annihilated(undone));
    }
    process.note_orphan(*message)?;
    Ok(Received::Waiting)
}
