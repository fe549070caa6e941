//! What the table is for, as laws of the definitions.
ghost use Rattle.std.specs.Prelude.{◌≡◌, ◌≤◌, ℕ, List, Some, codes, false, true};
ghost use Rattle.client_table.specs.Entries.{KeptMessage, entry, is_of};
ghost use Rattle.client_table.specs.Laws.{AreAnsweredAlike, NamedDoesNothing, LeaveEntryAlone};
ghost use Rattle.client_table.specs.Named.{by_name, each_asked, told_again};
ghost use Rattle.client_table.specs.Names.{form_in, is_client_name, client_name_in};
ghost use Rattle.client_table.specs.declared.asked.AnyRequest.{AnyRequest};
ghost use Rattle.client_table.specs.declared.asked.TheConstants.{OTHER_TEXT as IS_OTHER};
ghost use Rattle.message_laws.specs.NearRounds.{Near};
ghost use Rattle.messages.specs.MessageAnswers.{Round, without_its_position, refusal_text, with_answer};
ghost use Rattle.user_macros.specs.Functions.{Functions};

/// Of a message with a name, by the world in which it comes:
///
/// - `again`: if its number and its form are those of the last one of its client, it has the answer that is kept, and does nothing else.
/// - `other`: if its number is that of the last one, and its form is another, it is refused, and never has the other's answer.
/// - `once`: if its number is not over that of the last one of its client, it is not carried out.
/// - `each_once`: and so it is after whatever others were asked since, of this client or of others, whose forms leave its entry alone
///   (`LeaveEntryAlone`): no message is carried out whose number is not over that of the last one that was answered.
/// - `one_order`: in which batches messages are answered changes neither answers nor the world, but for the position.
pub fn messages_have_one_answer()
    ensures again { (functions : Functions) (most number : ℕ)
        → (text form : List ℕ) (round : Round) (kept : KeptMessage)
        → is_client_name (client_name_in text) ≡ true → form_in text ≡ Some form
        → entry (without_its_position round).left (client_name_in text)
        ≡ Some (number, kept) → is_of kept form ≡ true
        → by_name functions most number text round
        ≡ with_answer (told_again kept) false (without_its_position round) }
    ensures other { (functions : Functions) (most number : ℕ)
        → (text form : List ℕ) (round : Round) (kept : KeptMessage)
        → is_client_name (client_name_in text) ≡ true → form_in text ≡ Some form
        → entry (without_its_position round).left (client_name_in text)
        ≡ Some (number, kept) → is_of kept form ≡ false
        → by_name functions most number text round
        ≡ with_answer (refusal_text IS_OTHER (codes "OTHER-TEXT")) false (without_its_position round) }
    ensures once { (functions : Functions) (most number last : ℕ)
        → (text form : List ℕ) (round : Round) (kept : KeptMessage)
        → form_in text ≡ Some form → entry (without_its_position round).left (client_name_in text)
        ≡ Some (last, kept) → number ≤ last
        → NamedDoesNothing round (by_name functions most number text round) }
    ensures each_once { (functions : Functions) (most number last : ℕ)
        → (text form name : List ℕ) (round : Round) (kept : KeptMessage) (all : List AnyRequest)
        → client_name_in text ≡ name → is_client_name name ≡ true → form_in text ≡ Some form
        → entry round.left name ≡ Some (last, kept)
        → LeaveEntryAlone functions most name round all → number ≤ last
        → NamedDoesNothing (each_asked functions most round all)
        (by_name functions most number text (each_asked functions most round all)) }
    ensures one_order { (functions : Functions) (most number : ℕ) (text : List ℕ) (a b : Round)
        → Near a b → AreAnsweredAlike a b (by_name functions most number text a)
        (by_name functions most number text b) }
{}
