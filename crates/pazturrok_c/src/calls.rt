// What C asks of an engine. While orders are open each of these calls is refused with 61, and changes nothing; after any refusal
// the answer has no bytes.
ghost use Rattle.std.specs.Prelude.{◌≡◌, length, min};
ghost use Rattle.pazturrok_c.specs.EngineCalls.{AnswersEach, BeginsWithMessages, ExecutesForm, ExecutesForms, AreBytesCopied, TakesSnapshot, TellsEnd};

use crate::done::{CallResult, RequestHead};
use crate::engine::Engine;

/// As many bytes as there is room for, from a place on. Gives how many.
pub(crate) fn copy_out(from: &[u8], at: usize, out: &mut [u8]) -> usize
    ensures { AreBytesCopied from.now at out.old out.new result }
{
    if at >= from.len() {
        return 0;
    }
    let rest = &from[at..];
    let count = rest.len().min(out.len());
    out[..count].copy_from_slice(&rest[..count]);
    count
}

impl Engine {
    // How a call ended that answers so many bytes, if it was not refused.
    fn done(&self, number: u16, answer: usize) -> CallResult
        ensures { TellsEnd self.now number answer result }
    {
        CallResult {
            number,
            answer: if number == 0 { answer } else { 0 },
            orders: self.orders().len(),
        }
    }

    /// Executes a form. As much of its answer is copied as there is room for; after a refusal nothing is said of `answer`.
    pub(crate) fn execute_for(&mut self, rescue: bool, text: &[u8], answer: &mut [u8]) -> CallResult
        ensures asked { ExecutesForm self.old self.new rescue text.now result }
        ensures copies { result.number ≡ 0 → AreBytesCopied self.new.answer.items 0 answer.old answer.new
            (min (length self.new.answer.items) (length answer.old)) }
    {
        let number = self.execute(rescue, text);
        if number == 0 {
            copy_out(self.answer(), 0, answer);
        }
        self.done(number, self.answer().len())
    }

    /// Executes the forms whose texts end at these places, one after the other. The number of one that is refused stands in
    /// the answer.
    pub(crate) fn execute_all_for(&mut self, rescue: bool, texts: &[u8], ends: &[u64]) -> CallResult
        ensures { ExecutesForms self.old self.new rescue texts.now ends.now result }
    {
        let number = self.execute_all(rescue, texts, ends);
        self.done(number, self.answer().len())
    }

    /// Begins with messages, and gives the position of the store; after a refusal nothing is said of `position`.
    pub(crate) fn begin_messages_for(&mut self, position: &mut u64) -> CallResult
        ensures { BeginsWithMessages self.old self.new position.new result }
    {
        let number = self.begin_messages(position);
        self.done(number, 0)
    }

    /// Answers the requests of these heads, one after the other, after the message of the number `last`. Their texts stand
    /// one behind the other, and each head says where its own ends.
    pub(crate) fn answer_requests_for(
        &mut self,
        last: u64,
        texts: &[u8],
        heads: &[RequestHead],
    ) -> CallResult
        ensures { AnswersEach self.old self.new last texts.now heads.now result }
    {
        let number = self.answer_requests(last, texts, heads);
        self.done(number, self.answer().len())
    }

    /// Takes a snapshot.
    pub(crate) fn snapshot_for(&mut self) -> CallResult
        ensures { TakesSnapshot self.old self.new result }
    {
        let number = self.snapshot();
        self.done(number, 0)
    }
}
