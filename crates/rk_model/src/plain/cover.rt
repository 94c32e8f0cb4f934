// Lists of pairs of suffix and value.
ghost use Rattle.std.specs.Prelude.{◌≡◌, [], IfOk, OnOk};
ghost use Rattle.std.specs.List.{position};
ghost use Rattle.std.specs.Ordering.{is_lt};
ghost use Rattle.rk_key.specs.Keys.{suffix_cmp};
ghost use Rattle.rk_model.specs.Covers.{insert_pair};

use crate::SuffixValue;
use rk_outside::NoMemory;
use std::alloc::Global;
use std::marker::Model;

/// The pairs that hold at a key, ascending by suffix. Contracts see the list.
#[derive(Debug, Drop)]
pub(crate) struct Cover {
    pairs: Vec<SuffixValue>,
}

impl Model for Cover {
    ghost use Rattle.std.specs.Prelude.{List};
    ghost use Rattle.rk_model.specs.declared.span.SuffixValue.{SuffixValue};

    ghost Value = { List SuffixValue };

    ghost view = { λ c. c.pairs.items };
}

impl Cover {
    pub(crate) fn new(alloc: Global) -> Cover
        ensures { result ≡ [] }
    {
        Cover {
            pairs: Vec::new(alloc),
        }
    }

    /// The pairs of a vector, which is kept as it is.
    pub(crate) fn from_vec(pairs: Vec<SuffixValue>) -> Cover
        ensures { result ≡ pairs.items }
    {
        Cover { pairs }
    }

    pub(crate) fn pairs(&self) -> &[SuffixValue]
        ensures { result.now ≡ self.now }
    {
        &self.pairs
    }

    /// Puts a pair before the first with a greater suffix.
    pub(crate) fn insert(&mut self, pair: SuffixValue) -> Result<(), NoMemory>
        ensures { OnOk result (self.new ≡ insert_pair pair self.old) }
    {
        let at = first_greater(&self.pairs, &pair).unwrap_or(self.pairs.len());
        self.pairs.insert(at, pair)?;
        Ok(())
    }

    pub(crate) fn copy(&self) -> Result<Cover, NoMemory>
        ensures { IfOk result (λ c. c ≡ self.now) }
    {
        let pairs = self.pairs();
        let mut copied = Vec::new(*self.pairs.allocator());
        for pair in pairs {
            copied.push(pair.copy()?)?;
        }
        Ok(Cover { pairs: copied })
    }
}

/// The place of the first pair whose suffix is above that of a pair.
pub fn first_greater(pairs: &[SuffixValue], pair: &SuffixValue) -> Option<usize>
    ensures { result ≡ position (λ q. is_lt (suffix_cmp pair.now.suffix q.suffix)) pairs.now }
{
    pairs.iter().position(|q| pair.suffix < q.suffix)
}
