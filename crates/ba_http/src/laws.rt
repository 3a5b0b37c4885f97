//! Laws of messages. Each function does nothing: its contract is the law.
ghost use Rattle.std.specs.Prelude.{◌≡◌, ◌≢◌, ◌<◌, ◌≤◌, ◌⊎◌, ℕ, List, ◌++◌, length, take, Option, Some, Result, Ok, Err};
ghost use Rattle.std.specs.Io.KnownBytes.{Consumes, IsAtEnd};
ghost use Rattle.ba_http_head.specs.declared.faults.HttpFault.{HttpFault};
ghost use Rattle.ba_http_head.specs.declared.headings.Heading.{Heading};
ghost use Rattle.ba_http_head.specs.Heads.{Opening, Opens};
ghost use Rattle.ba_http.specs.Answers.{SaysNoBody, SaysNoHead, SaysNoMessage, TakesLittleMore};
ghost use Rattle.ba_http.specs.Bodies.{GivesBody};
ghost use Rattle.ba_http.specs.Messages.{HttpMessage, Decides, EndsAtInput, IsCutShort, IsUnfinished, Reads};

use ba_http_body::Taker;

/// As bytes are taken one by one, at most one thing shows itself of a request or of a reply, at one byte: that it is whole and
/// which it is, or why there is none. Where one does, the message doesn't go on.
pub fn bytes_begin_with_one_message()
    ensures once { (heading : Heading) (bytes : List ℕ) (m n : ℕ) (a b : Result HttpMessage HttpFault) → m ≤ length bytes
        → n ≤ length bytes → Decides heading (take m bytes) a → Decides heading (take n bytes) b → (m ≡ n) × (a ≡ b) }
    ensures settled { (heading : Heading) (bytes : List ℕ) (n : ℕ) (result : Result HttpMessage HttpFault) → n ≤ length bytes
        → Decides heading (take n bytes) result → ¬ (IsUnfinished heading bytes) }
{}

/// Of any bytes something shows itself, or they go on: as a head or a trailer, as a body in chunks, as a request or a reply. It
/// can't be that none of these holds.
pub fn any_bytes_say_something()
    ensures head { (heading : Heading) (bytes : List ℕ) → ¬ (SaysNoHead heading bytes) }
    ensures body { (bytes : List ℕ) → ¬ (SaysNoBody bytes) }
    ensures request { (bytes : List ℕ) → ¬ (SaysNoMessage Heading.Request bytes) }
    ensures reply { (bytes : List ℕ) → ¬ (SaysNoMessage Heading.Reply bytes) }
{}

/// Where the input ends, bytes of which nothing has shown itself are cut short, or they are a message whose head says no
/// length. That message is one, and never both.
pub fn the_end_of_input_ends_one_message()
    ensures either { (heading : Heading) (bytes : List ℕ) → IsUnfinished heading bytes
        → IsCutShort heading bytes ⊎ ((message : HttpMessage) × EndsAtInput heading bytes message) }
    ensures once { (heading : Heading) (bytes : List ℕ) (a b : HttpMessage) → EndsAtInput heading bytes a
        → EndsAtInput heading bytes b → a ≡ b }
    ensures whole { (heading : Heading) (bytes : List ℕ) (message : HttpMessage) → EndsAtInput heading bytes message
        → ¬ (IsCutShort heading bytes) }

    ensures ends { (heading : Heading) (bytes : List ℕ) (message : HttpMessage) → EndsAtInput heading bytes message
        → IsUnfinished heading bytes }
    ensures cut { (heading : Heading) (bytes : List ℕ) → IsCutShort heading bytes → IsUnfinished heading bytes }
{}

/// A head that was read and then its body, which any taker was given, are a message that was read; so are their refusals.
pub fn a_head_and_its_body_are_a_message<T: Taker>()
    ensures message { (heading : Heading) (old mid new : Option (List ℕ)) (opening : Opening) (before after : T)
        → Opens heading old mid (Ok opening) → GivesBody (T.stands before) (T.stands after) opening.length opening.rest mid new (Ok tt)
        → (body : List ℕ) × ((given : List ℕ) → T.stands before given → T.stands after (given ++ body))
        × Reads heading old new (Ok (record { start = opening.start; body = body })) }
    ensures refused_body { (heading : Heading) (old mid new : Option (List ℕ)) (opening : Opening) (before after : T)
        (fault : HttpFault) → Opens heading old mid (Ok opening)
        → GivesBody (T.stands before) (T.stands after) opening.length opening.rest mid new (Err fault) → Reads heading old new (Err fault) }
    ensures refused_head { (heading : Heading) (old new : Option (List ℕ)) (fault : HttpFault) → Opens heading old new (Err fault)
        → Reads heading old new (Err fault) }
{}

/// Less than a block is taken after the byte at which a message or its refusal shows itself, and a read that fails was made
/// while nothing had.
pub fn less_than_a_block_is_taken_after_an_answer()
    ensures message { (heading : Heading) (old new : Option (List ℕ)) (message : HttpMessage) → Reads heading old new (Ok message)
        → TakesLittleMore heading old new (Ok message)
        ⊎ ((taken : List ℕ) × Consumes old new taken × EndsAtInput heading taken message × IsAtEnd new) }
    ensures refusal { (heading : Heading) (old new : Option (List ℕ)) (fault : HttpFault) → Reads heading old new (Err fault)
        → fault ≢ HttpFault.Memory → fault ≢ HttpFault.Truncated → fault ≢ HttpFault.Read
        → TakesLittleMore heading old new (Err fault) }
    ensures failure { (heading : Heading) (old new : Option (List ℕ)) → Reads heading old new (Err HttpFault.Read)
        → (taken : List ℕ) × Consumes old new taken × IsUnfinished heading taken }
{}

/// Whatever the cuts, what is read of a link that says its bytes is one answer, but for want of memory and faults of the link.
pub fn any_cuts_give_one_answer()
    ensures { (heading : Heading) (bytes : List ℕ) (one other : Option (List ℕ)) (a b : Result HttpMessage HttpFault)
        → Reads heading (Some bytes) one a → Reads heading (Some bytes) other b
        → a ≢ Err HttpFault.Memory → a ≢ Err HttpFault.Read → b ≢ Err HttpFault.Memory → b ≢ Err HttpFault.Read → a ≡ b }
{}
