// The call of a store with a table of clients.
ghost use Rattle.std.specs.Prelude.{◌≡◌, ◌≢◌, ◌<◌, ◌≤◌, [], length, None, Some, IfOk, IfErr, Err};
ghost use Rattle.client_table.specs.CallsByName.{AnswersFirstAsked};
ghost use Rattle.lisp_object.specs.declared.refusal.TheConstants.{DEVICE as DEVICE_FAULT, REOPEN as NOT_OPEN};
ghost use Rattle.plist_state.specs.State.{WorldState};

use crate::asked::AnyRequest;
use crate::turn::FirstAsked;
use disk_trait::Disk;
use lisp_object::refusal::REOPEN;
use messages::Replies;
use prevalence_store::Store;
use user_macros::MacroFunctions;

/// Answers the first of these, as `answer_first_requests` of messages does, and among them messages with a name, in a table of at most
/// `most` clients: up to the one with whose answer the answers have `ANSWER_BYTES` bytes, or all. The answer to a message with a name is
/// stored together with what the message wrote.
///
/// Of a message with a name, in this order: 56 where its text begins with no name; 48 where something else stands where its entry does; 50
/// under the number of the last message of its client. At that number the answer is given again, 49 if it is not kept, or 55 for another form. A client
/// without an entry is refused with 54 where the table is full, and with the number of the form that makes its symbol; then nothing was
/// carried out.
///
/// # Errors
///
/// As `answer_first_requests`; and 48 if the table is not as a form of the store's own should leave it: the store is then as it was.
pub fn answer_first_asked<D: Disk, R: MacroFunctions>(
    store: &mut Store<D, R>,
    last: u64,
    most: u64,
    asked: &[AnyRequest<'_>],
) -> Result<Replies, u16>
    ensures reopen { store.old.world ≡ None → (result ≡ Err NOT_OPEN) × (store.new ≡ store.old) }
    ensures answer { (world : WorldState) → store.old.world ≡ Some world
        → AnswersFirstAsked R.Meaning.functions D.state store.old store.new world most last asked.now result }
    ensures most { IfOk result (λ replies. length replies.answers.items ≤ length asked.now) }
    ensures some { asked.now ≢ [] → IfOk result (λ replies. 0 < length replies.answers.items) }
    ensures unchanged { IfErr result (λ number. number ≢ DEVICE_FAULT → store.new ≡ store.old) }
    ensures honest { (D.state store.new.disk).honest ≡ (D.state store.old.disk).honest }
    ensures macros { store.new.macros ≡ store.old.macros }
{
    if !store.is_open() {
        return Err(REOPEN);
    }
    let turn = FirstAsked { last, most, asked };
    match store.together(&turn) {
        Ok(made) => made,
        Err(cause) => Err(cause.number()),
    }
}
