// What C calls. A call that finds no engine answers 61, as one after a fault of the device.
ghost use Rattle.std.specs.Prelude.{◌≡◌, Some, None, IfErr, IfOk, length};
ghost use Rattle.deferred_disk.specs.Bytes.{orders_bytes};
ghost use Rattle.deferred_disk.specs.Disk.{pending_of};
ghost use Rattle.lisp_object.specs.Refusal.{name_of as name};
ghost use Rattle.lisp_object.specs.declared.refusal.TheConstants.{REOPEN as reopen};
ghost use Rattle.pazturrok_c.specs.EngineCalls.{AnswersEach, BeginsWithMessages, ExecutesForm, ExecutesForms, AreBytesCopied, AreOrdersPerformed, MayRefuseToOpen, OnEngine, Opens, ShowsAnswer, TakesSnapshot, TellsNothing};
ghost use Rattle.pazturrok_c.specs.Engine.{IsOpenedOn};
ghost use Rattle.pazturrok_c.specs.declared.engine.Engine.{Engine as AnEngine};

use crate::calls::copy_out;
use crate::done::{CallResult, HalfReport, RequestHead, Setting};
use crate::engine::Engine;
use crate::slot::EngineSlot;
use lisp_object::refusal::{NO_MEMORY, REOPEN, name_of};
use std::alloc::Global;

const NO_ENGINE: CallResult = CallResult {
    number: REOPEN,
    answer: 0,
    orders: 0,
};

fn opened(alloc: Global, a: &[u8], b: &[u8], setting: &Setting) -> Result<Box<Engine>, u16>
    ensures opened { IfOk result (λ engine. IsOpenedOn a.now b.now setting.now.limit engine.value.store) }
    ensures refused { IfErr result (MayRefuseToOpen a.now b.now setting.now.limit) }
{
    let Ok(a) = Vec::from_slice(alloc, a) else {
        return Err(NO_MEMORY);
    };
    let Ok(b) = Vec::from_slice(alloc, b) else {
        return Err(NO_MEMORY);
    };
    let engine = Engine::open(alloc, a, b, setting)?;
    match Box::new(alloc, engine) {
        Ok(boxed) => Ok(boxed),
        Err(_) => Err(NO_MEMORY),
    }
}

/// Opens the store of two files that hold these bytes, in a slot that holds no engine. Its orders are to be carried out before the
/// first form.
#[unsafe(no_mangle)]
pub extern "C" fn pzt_open(
    alloc: Global,
    slot: &mut EngineSlot,
    a: &[u8],
    b: &[u8],
    setting: &Setting,
    done: &mut CallResult,
)
    ensures busy { (engine : AnEngine) → slot.old.handle.engine ≡ Some engine
        → (done.new.number ≡ reopen) × TellsNothing done.new × (slot.new.handle.engine ≡ Some engine) }
    ensures opens { slot.old.handle.engine ≡ None
        → Opens a.now b.now setting.now.limit slot.new.handle.engine done.new }
{
    done.answer = 0;
    done.orders = 0;
    if slot.is_open() {
        done.number = REOPEN;
        return;
    }
    match opened(alloc, a, b, setting) {
        Ok(engine) => {
            done.number = 0;
            done.orders = engine.orders().len();
            slot.put(engine);
        }
        Err(number) => done.number = number,
    }
}

/// Executes a form. Its answer is copied into `answer`, as far as there is room.
#[unsafe(no_mangle)]
pub extern "C" fn pzt_execute(
    alloc: Global,
    slot: &mut EngineSlot,
    rescue: bool,
    text: &[u8],
    answer: &mut [u8],
    done: &mut CallResult,
)
    ensures asks { OnEngine slot.old.handle.engine slot.new.handle.engine done.new.number
        (λ old new. ExecutesForm old new rescue text.now done.new) }
    ensures none { slot.old.handle.engine ≡ None → TellsNothing done.new }
    ensures copies { done.new.number ≡ 0 → ShowsAnswer slot.new.handle.engine answer.old answer.new }
{
    let Some(mut engine) = slot.take(alloc) else {
        *done = NO_ENGINE;
        return;
    };
    *done = engine.execute_for(rescue, text, answer);
    slot.put(engine);
}

/// Executes the forms whose texts end at these places, one after the other. What they wrote is logged together where there is room.
/// The answer has for each its number in two bytes, a length in eight, and so many bytes.
#[unsafe(no_mangle)]
pub extern "C" fn pzt_execute_all(
    alloc: Global,
    slot: &mut EngineSlot,
    rescue: bool,
    texts: &[u8],
    ends: &[u64],
    done: &mut CallResult,
)
    ensures asks { OnEngine slot.old.handle.engine slot.new.handle.engine done.new.number
        (λ old new. ExecutesForms old new rescue texts.now ends.now done.new) }
    ensures none { slot.old.handle.engine ≡ None → TellsNothing done.new }
{
    let Some(mut engine) = slot.take(alloc) else {
        *done = NO_ENGINE;
        return;
    };
    *done = engine.execute_all_for(rescue, texts, ends);
    slot.put(engine);
}

/// Begins with messages: gives the number of the last one that the store holds.
#[unsafe(no_mangle)]
pub extern "C" fn pzt_begin_messages(
    alloc: Global,
    slot: &mut EngineSlot,
    position: &mut u64,
    done: &mut CallResult,
)
    ensures asks { OnEngine slot.old.handle.engine slot.new.handle.engine done.new.number
        (λ old new. BeginsWithMessages old new position.new done.new) }
    ensures none { slot.old.handle.engine ≡ None → TellsNothing done.new }
{
    let Some(mut engine) = slot.take(alloc) else {
        *done = NO_ENGINE;
        return;
    };
    *done = engine.begin_messages_for(position);
    slot.put(engine);
}

/// Answers the requests whose texts end at these places, one after the other, after the message of the last number. What the messages
/// wrote is logged together, with the position: a crash leaves all of it or nothing. The answer has for each 1 in two bytes if it is
/// of a message that wrote, else 0, a length in eight, and so many bytes.
#[unsafe(no_mangle)]
pub extern "C" fn pzt_answer_requests(
    alloc: Global,
    slot: &mut EngineSlot,
    last: u64,
    texts: &[u8],
    heads: &[RequestHead],
    done: &mut CallResult,
)
    ensures asks { OnEngine slot.old.handle.engine slot.new.handle.engine done.new.number
        (λ old new. AnswersEach old new last texts.now heads.now done.new) }
    ensures none { slot.old.handle.engine ≡ None → TellsNothing done.new }
{
    let Some(mut engine) = slot.take(alloc) else {
        *done = NO_ENGINE;
        return;
    };
    *done = engine.answer_requests_for(last, texts, heads);
    slot.put(engine);
}

/// Takes a snapshot.
#[unsafe(no_mangle)]
pub extern "C" fn pzt_snapshot(alloc: Global, slot: &mut EngineSlot, done: &mut CallResult)
    ensures asks { OnEngine slot.old.handle.engine slot.new.handle.engine done.new.number
        (λ old new. TakesSnapshot old new done.new) }
    ensures none { slot.old.handle.engine ≡ None → TellsNothing done.new }
{
    let Some(mut engine) = slot.take(alloc) else {
        *done = NO_ENGINE;
        return;
    };
    *done = engine.snapshot_for();
    slot.put(engine);
}

/// Copies the last answer from a place on, as far as there is room. Gives how many bytes.
#[unsafe(no_mangle)]
pub extern "C" fn pzt_answer(
    alloc: Global,
    slot: &mut EngineSlot,
    at: usize,
    out: &mut [u8],
) -> usize
    ensures same { slot.new.handle.engine ≡ slot.old.handle.engine }
    ensures copies { (engine : AnEngine) → slot.old.handle.engine ≡ Some engine
        → AreBytesCopied engine.answer.items at out.old out.new result }
    ensures none { slot.old.handle.engine ≡ None → result ≡ 0 }
{
    let Some(engine) = slot.take(alloc) else {
        return 0;
    };
    let count = copy_out(engine.answer(), at, out);
    slot.put(engine);
    count
}

/// Copies the orders from a place on, as far as there is room. Gives how many bytes.
#[unsafe(no_mangle)]
pub extern "C" fn pzt_orders(
    alloc: Global,
    slot: &mut EngineSlot,
    at: usize,
    out: &mut [u8],
) -> usize
    ensures same { slot.new.handle.engine ≡ slot.old.handle.engine }
    ensures copies { (engine : AnEngine) → slot.old.handle.engine ≡ Some engine
        → AreBytesCopied (orders_bytes (pending_of engine.store.disk)) at out.old out.new result }
    ensures none { slot.old.handle.engine ≡ None → result ≡ 0 }
{
    let Some(engine) = slot.take(alloc) else {
        return 0;
    };
    let count = copy_out(engine.orders(), at, out);
    slot.put(engine);
    count
}

/// Says that so many bytes of orders were carried out: all that there were.
#[unsafe(no_mangle)]
pub extern "C" fn pzt_performed(alloc: Global, slot: &mut EngineSlot, count: usize)
    ensures { OnEngine slot.old.handle.engine slot.new.handle.engine reopen
        (λ old new. AreOrdersPerformed old new count) }
{
    if let Some(mut engine) = slot.take(alloc) {
        engine.report_done(count);
        slot.put(engine);
    }
}

/// What the store tells of its half in use.
#[unsafe(no_mangle)]
pub extern "C" fn pzt_tell(alloc: Global, slot: &mut EngineSlot, told: &mut HalfReport)
    ensures same { slot.new.handle.engine ≡ slot.old.handle.engine }
    ensures tells { (engine : AnEngine) → slot.old.handle.engine ≡ Some engine
        → (told.new.generation ≡ engine.store.generation) × (told.new.records ≡ engine.store.record_count)
        × (told.new.version ≡ engine.store.version) }
    ensures none { slot.old.handle.engine ≡ None
        → (told.new.generation ≡ 0) × (told.new.records ≡ 0) × (told.new.version ≡ 0) }
{
    told.generation = 0;
    told.records = 0;
    told.version = 0;
    if let Some(engine) = slot.take(alloc) {
        told.generation = engine.generation();
        told.records = engine.record_count();
        told.version = engine.version();
        slot.put(engine);
    }
}

/// Lets the engine go. Orders that were not carried out are lost, as in a crash.
#[unsafe(no_mangle)]
pub extern "C" fn pzt_close(alloc: Global, slot: &mut EngineSlot)
    ensures { slot.new.handle.engine ≡ None }
{
    let _engine = slot.take(alloc);
}

/// Copies the name of a number as far as there is room, and gives its length: 0 for a number that has none.
#[unsafe(no_mangle)]
pub extern "C" fn pzt_name(number: u16, out: &mut [u8]) -> usize
    ensures { AreBytesCopied (name number) 0 out.old out.new result }
{
    copy_out(name_of(number).as_bytes(), 0, out)
}
