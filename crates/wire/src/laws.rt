//! Laws about byte lists, for readers of this crate's definitions.
//!
//! A law is a function with an empty body: its clauses are proved of the definitions themselves.

ghost use Rattle.std.specs.Prelude.{◌≡◌, ℕ, ◌^◌, ◌<◌, ◌≤◌, ◌++◌, [], List, length};
ghost use Rattle.std.specs.List.{concat, AllByRecursion};
ghost use Rattle.wire.specs.Integer.{IsLengthEncoded, length_encoded};
ghost use Rattle.wire.specs.Packet.{IsPacking, packing_length};
ghost use Rattle.wire.specs.Payload.{IsWholePayload, IsUnfinished, IsOutOfSequence, IsTooLarge};
ghost use Rattle.wire.specs.Stream.{Ending, IsStream, Runs};

/// No encoding of a length-encoded integer is a proper prefix of another one, and each encodes one
/// value.
pub fn one_spelling()
    ensures { (m n : ℕ) (a b x y : List ℕ) → IsLengthEncoded m a → IsLengthEncoded n b
        → a ++ x ≡ b ++ y → (m ≡ n) × (a ≡ b) }
{}

/// What is written is an encoding of the value, and no encoding of it is shorter.
pub fn shortest_spelling()
    ensures spells { (n : ℕ) → n < 2 ^ 64 → IsLengthEncoded n (length_encoded n) }
    ensures shortest { (n : ℕ) (a : List ℕ) → IsLengthEncoded n a
        → length (length_encoded n) ≤ length a }
{}

/// Each payload has exactly one packing from each sequence id, four bytes longer for each packet. No
/// packing is a proper prefix of another one, from whichever ids.
pub fn one_packing()
    ensures some { (id : ℕ) (payload : List ℕ) → (bytes : List ℕ) × (next : ℕ)
        × IsPacking id payload bytes next }
    ensures one { (id m n : ℕ) (payload a b : List ℕ) → IsPacking id payload a m
        → IsPacking id payload b n → (a ≡ b) × (m ≡ n) }
    ensures length { (id next : ℕ) (payload bytes : List ℕ) → IsPacking id payload bytes next
        → length bytes ≡ packing_length (length payload) }
    ensures none_begins { (i j m n : ℕ) (p q a b x y : List ℕ) → IsPacking i p a m
        → IsPacking j q b n → a ++ x ≡ b ++ y → (p ≡ q) × (a ≡ b) × (x ≡ y) × (m ≡ n) }
{}

/// Bytes have at most one first wrong header, with one fault, and then they do not begin with a payload.
pub fn one_answer()
    ensures one_wrong_id { (due limit want got want' got' : ℕ) (bytes : List ℕ)
        → IsOutOfSequence due limit bytes want got → IsOutOfSequence due limit bytes want' got'
        → (want ≡ want') × (got ≡ got') }
    ensures one_fault { (due limit want got : ℕ) (bytes : List ℕ)
        → IsOutOfSequence due limit bytes want got → IsTooLarge due limit bytes → ⊥ }
    ensures in_sequence { (due limit want got next : ℕ) (bytes more payload : List ℕ)
        → IsWholePayload due limit bytes payload next
        → IsOutOfSequence due limit (bytes ++ more) want got → ⊥ }
    ensures not_too_large { (due limit next : ℕ) (bytes more payload : List ℕ) →
        IsWholePayload due limit bytes payload next → IsTooLarge due limit (bytes ++ more) → ⊥ }
{}

/// A wrong header is wrong whatever follows it.
pub fn faults_stay()
    ensures sequence { (due limit want got : ℕ) (bytes more : List ℕ)
        → IsOutOfSequence due limit bytes want got
        → IsOutOfSequence due limit (bytes ++ more) want got }
    ensures too_large { (due limit : ℕ) (bytes more : List ℕ) → IsTooLarge due limit bytes
        → IsTooLarge due limit (bytes ++ more) }
{}

/// The empty list of bytes is neither a payload nor wrong.
pub fn nothing_yet()
    ensures { (due limit : ℕ) → IsUnfinished due limit [] }
{}

/// Each stream of bytes has exactly one reading: its payloads, and then a fault or the bytes of an
/// unfinished payload.
pub fn one_reading()
    ensures some { (due limit : ℕ) (stream : List ℕ) → AllByRecursion (λ b. b < 256) stream →
        (payloads : List (List ℕ)) × (ending : Ending) × IsStream due limit stream payloads ending }
    ensures one { (due limit : ℕ) (stream : List ℕ) (a b : List (List ℕ)) (e f : Ending) →
        IsStream due limit stream a e → IsStream due limit stream b f → (a ≡ b) × (e ≡ f) }
{}

/// However a stream is cut into pieces, a reader makes the one reading of it: the same payloads and the
/// same ending. (The sequence ids go on without a break: a call of `expect` begins a new stream.)
pub fn any_pieces()
    ensures reads { (due limit : ℕ) (pieces payloads : List (List ℕ)) (ending : Ending)
        → Runs due limit [] pieces payloads ending
        → IsStream due limit (concat pieces) payloads ending }
    ensures same { (due limit : ℕ) (pieces others a b : List (List ℕ)) (e f : Ending)
        → concat pieces ≡ concat others → Runs due limit [] pieces a e
        → Runs due limit [] others b f → (a ≡ b) × (e ≡ f) }
{}
