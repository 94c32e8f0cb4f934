// What holds of all groups and their bytes.
ghost use Rattle.std.specs.Prelude.{◌≡◌, ℕ, List, Some, All, ◌<◌};
ghost use Rattle.rk_batch.specs.Grammar.{IsBatchOf};
ghost use Rattle.rk_model.specs.declared.op.Op.{Op};
ghost use Rattle.rk_log.specs.Batches.{batch_of};
ghost use Rattle.rk_log.specs.Groups.{GroupSeen, IsGroupOf, group_of};

/// The batch or group of bytes is the one that is read, and no other: each has one spelling, and no two share one.
pub fn one_spelling()
    ensures batch_read { (bytes : List ℕ) (ops : List Op) → All (λ b. b < 256) bytes → batch_of bytes ≡ Some ops → IsBatchOf bytes ops }
    ensures batch_spelled { (bytes : List ℕ) (ops : List Op) → IsBatchOf bytes ops → batch_of bytes ≡ Some ops }
    ensures group_read { (payload : List ℕ) (g : GroupSeen) → All (λ b. b < 256) payload → group_of payload ≡ Some g → IsGroupOf payload g }
    ensures group_spelled { (payload : List ℕ) (g : GroupSeen) → IsGroupOf payload g → group_of payload ≡ Some g }
{}
