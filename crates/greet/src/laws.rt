//! Laws about the definitions, for callers.
//!
//! A law is a function with an empty body: its clauses are proved of the definitions themselves. With the readers'
//! clauses they say that what is written is read back: no bytes have two meanings, and none are both a message and
//! refused.

ghost use Rattle.std.specs.Prelude.{◌≡◌, ◌⊎◌, ℕ, ◌<◌, ◌^◌, [], List, length, take, Option, Some, None};
ghost use Rattle.std.specs.List.{AllByRecursion};
ghost use Rattle.byteorder.specs.Endian.{little_bytes};
ghost use Rattle.greet.specs.Message.{GreetingValue, IsGreeting, FitsGreeting, greeting_bytes, ResponseValue, IsResponse, FitsResponse, response, IsSwitch, IsOkPacket, IsEofPacket, IsErrPacket, DumpValue, IsDump, FitsDump, dump_bytes};
ghost use Rattle.greet.specs.Complete.{HasGreeting, HasResponse, HasSwitch, HasDump, IsErrOf};
ghost use Rattle.greet.specs.Refusal.{server_error, kept_message, greeting_refusal, response_refusal, reply_refusal, ok_refusal, eof_refusal, dump_refusal};

/// A greeting has one meaning, is not refused, and is what is written of its value.
pub fn greetings()
    ensures one { (a b : GreetingValue) (payload : List ℕ) → IsGreeting a payload
        → IsGreeting b payload → a ≡ b }
    ensures not_refused { (g : GreetingValue) (payload : List ℕ) → IsGreeting g payload
        → greeting_refusal payload ≡ None }
    ensures some { (payload : List ℕ) → AllByRecursion (λ b. b < 256) payload
        → greeting_refusal payload ≡ None → HasGreeting payload }
    ensures written { (g : GreetingValue) → FitsGreeting g → length g.scramble ≡ 20
        → g.thread < 2 ^ 32 → g.capabilities < 2 ^ 32 → g.status < 2 ^ 16
        → IsGreeting g (greeting_bytes g) }
{}

/// A response has one meaning, is not refused, and is what is written of its value.
pub fn responses()
    ensures one { (a b : ResponseValue) (payload : List ℕ) → IsResponse a payload
        → IsResponse b payload → a ≡ b }
    ensures not_refused { (r : ResponseValue) (payload : List ℕ) → IsResponse r payload
        → response_refusal payload ≡ None }
    ensures some { (payload : List ℕ) → AllByRecursion (λ b. b < 256) payload
        → response_refusal payload ≡ None → HasResponse payload }
    ensures written { (r : ResponseValue) → FitsResponse r → IsResponse r (response r) }
{}

/// A switch has one scramble, and no switch, OK or EOF is refused where it is expected. No switch is an OK.
pub fn replies()
    ensures one { (a b payload : List ℕ) → IsSwitch a payload → IsSwitch b payload → a ≡ b }
    ensures a_switch { (scramble payload : List ℕ) → IsSwitch scramble payload
        → reply_refusal payload ≡ None }
    ensures an_ok { (payload : List ℕ) → IsOkPacket payload → ok_refusal payload ≡ None }
    ensures an_ok_reply { (payload : List ℕ) → IsOkPacket payload → reply_refusal payload ≡ None }
    ensures an_eof { (payload : List ℕ) → IsEofPacket payload → eof_refusal payload ≡ None }
    ensures some { (payload : List ℕ) → AllByRecursion (λ b. b < 256) payload
        → reply_refusal payload ≡ None → IsOkPacket payload ⊎ HasSwitch payload }
    ensures some_ok { (payload : List ℕ) → AllByRecursion (λ b. b < 256) payload
        → ok_refusal payload ≡ None → IsOkPacket payload }
    ensures some_eof { (payload : List ℕ) → eof_refusal payload ≡ None → IsEofPacket payload }
    ensures apart { (scramble payload : List ℕ) → IsSwitch scramble payload → IsOkPacket payload
        → ⊥ }
{}

/// An ERR has one meaning, and instead of any message of the source it is reported with its code, its state and the
/// first 512 bytes of its message. What is reported so is an ERR.
pub fn errors()
    ensures one { (m n : ℕ) (s t : Option (List ℕ)) (a b payload : List ℕ)
        → IsErrPacket m s a payload → IsErrPacket n t b payload → (m ≡ n) × (s ≡ t) × (a ≡ b) }
    ensures greeting { (code : ℕ) (state : Option (List ℕ)) (message payload : List ℕ)
        → IsErrPacket code state message payload → greeting_refusal payload
        ≡ Some (server_error code state (take kept_message message)) }
    ensures reply { (code : ℕ) (state : Option (List ℕ)) (message payload : List ℕ)
        → IsErrPacket code state message payload → reply_refusal payload
        ≡ Some (server_error code state (take kept_message message)) }
    ensures ok { (code : ℕ) (state : Option (List ℕ)) (message payload : List ℕ)
        → IsErrPacket code state message payload → ok_refusal payload
        ≡ Some (server_error code state (take kept_message message)) }
    ensures eof { (code : ℕ) (state : Option (List ℕ)) (message payload : List ℕ)
        → IsErrPacket code state message payload → eof_refusal payload
        ≡ Some (server_error code state (take kept_message message)) }
    ensures only_greeting { (code : ℕ) (state : Option (List ℕ)) (kept payload : List ℕ)
        → AllByRecursion (λ b. b < 256) payload → greeting_refusal payload
        ≡ Some (server_error code state kept) → IsErrOf code state kept payload }
    ensures only_reply { (code : ℕ) (state : Option (List ℕ)) (kept payload : List ℕ)
        → AllByRecursion (λ b. b < 256) payload → reply_refusal payload
        ≡ Some (server_error code state kept) → IsErrOf code state kept payload }
    ensures only_ok { (code : ℕ) (state : Option (List ℕ)) (kept payload : List ℕ)
        → AllByRecursion (λ b. b < 256) payload → ok_refusal payload
        ≡ Some (server_error code state kept) → IsErrOf code state kept payload }
    ensures only_eof { (code : ℕ) (state : Option (List ℕ)) (kept payload : List ℕ)
        → AllByRecursion (λ b. b < 256) payload → eof_refusal payload
        ≡ Some (server_error code state kept) → IsErrOf code state kept payload }
{}

/// A dump command has one meaning, is not refused, and is what is written of its value.
pub fn dumps()
    ensures one { (a b : DumpValue) (payload : List ℕ) → IsDump a payload → IsDump b payload
        → a ≡ b }
    ensures not_refused { (d : DumpValue) (payload : List ℕ) → IsDump d payload
        → dump_refusal payload ≡ None }
    ensures some { (payload : List ℕ) → AllByRecursion (λ b. b < 256) payload
        → dump_refusal payload ≡ None → HasDump payload }
    ensures written { (d : DumpValue) → FitsDump d → d.flags < 2 ^ 16 → d.server_id < 2 ^ 32
        → IsDump d (dump_bytes d [] (little_bytes 8 4)) }
{}
