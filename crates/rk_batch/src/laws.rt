// What holds of all batches and their bytes.
ghost use Rattle.std.specs.Prelude.{◌≡◌, ◌⊎◌, ℕ, List};
ghost use Rattle.rk_model.specs.declared.op.Op.{Op};
ghost use Rattle.rk_batch.specs.declared.error.BatchError.{BatchError as AnError};
ghost use Rattle.rk_batch.specs.Checks.{AllPass, IsFirst, checks};
ghost use Rattle.rk_batch.specs.Encoding.{batch_bytes};
ghost use Rattle.rk_batch.specs.Grammar.{IsBatch, IsBatchOf, IsBadBatch};

/// A batch has one spelling, which is read back, and no other batch has it.
#[tactic(auto, using(crate::proofs::Uniqueness::one_batch))]
pub fn one_spelling()
    ensures one_batch { (bytes : List ℕ) (a b : List Op) → IsBatchOf bytes a → IsBatchOf bytes b → a ≡ b }
    ensures one_spelling { (a b : List ℕ) (ops : List Op) → IsBatchOf a ops → IsBatchOf b ops → a ≡ b }
    ensures is_batch { (ops : List Op) → IsBatch ops → IsBatchOf (batch_bytes ops) ops }
{}

/// Bytes of which a place is told are no batch, and one place is told.
pub fn one_place()
    ensures no_batch { (bytes : List ℕ) (at : ℕ) (ops : List Op) → IsBadBatch bytes at → ¬ IsBatchOf bytes ops }
    ensures one_place { (bytes : List ℕ) (a b : ℕ) → IsBadBatch bytes a → IsBadBatch bytes b → a ≡ b }
{}

/// An operation either may be added, or one refusal comes first.
#[tactic(auto, using(crate::proofs::Firsts::one_first, crate::proofs::Refusing::first_fails, crate::proofs::FailedChecks::all_or_first))]
pub fn one_refusal()
    ensures added_or_refused { (ops : List Op) (op : Op) → AllPass (checks ops op) ⊎ ((error : AnError) × IsFirst (checks ops op) error) }
    ensures refused { (ops : List Op) (op : Op) (error : AnError) → IsFirst (checks ops op) error → ¬ AllPass (checks ops op) }
    ensures one_refusal { (ops : List Op) (op : Op) (a b : AnError) → IsFirst (checks ops op) a → IsFirst (checks ops op) b → a ≡ b }
{}
