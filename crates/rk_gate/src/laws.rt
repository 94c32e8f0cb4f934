// What holds of all bytes of journals.
ghost use Rattle.std.specs.Prelude.{◌≡◌, ℕ, List, Ok, map};
ghost use Rattle.rk_gate.specs.declared.record.Record.{Record as ARecord};
ghost use Rattle.rk_gate.specs.Records.{IsJournalOf, placed, recovered};

/// Bytes that are spelled as open records and a tail are read as these records, at their places, and bytes of which
/// records are read are spelled so.
pub fn one_reading(bytes: &[u8])
    ensures read { (payloads : List (List ℕ)) → IsJournalOf bytes.now payloads → recovered bytes.now ≡ Ok (placed 0 payloads) }
    ensures spelled { (rs : List ARecord) → recovered bytes.now ≡ Ok rs → IsJournalOf bytes.now (map (λ r. r.payload) rs) }
    ensures places { (rs : List ARecord) → recovered bytes.now ≡ Ok rs → rs ≡ placed 0 (map (λ r. r.payload) rs) }
{}
