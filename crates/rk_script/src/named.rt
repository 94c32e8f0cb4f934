// Lists of things with names.
ghost use Rattle.std.specs.Prelude.{◌≡◌, ◌<◌, List, ℕ, false, map, take, length, IfNone, IfSome, slice_index_or};
ghost use Rattle.rk_script.specs.Naming.{is_called};

/// A thing with a name.
pub trait Named {
    /// Its name.
    ghost called: { Self → List ℕ };

    /// Lends its name.
    fn name(&self) -> &[u8]
        ensures { result.now ≡ called self.now };
}

/// The place of the first thing of this name.
pub fn find<T: Named>(things: &[T], name: &[u8]) -> Option<usize>
    ensures absent { IfNone result (is_called name.now (map T.called things.now) ≡ false) }
    ensures within { IfSome result (λ i. i < length things.now) }
    ensures first { IfSome result (λ i. is_called name.now (map T.called (take i things.now)) ≡ false) }
    ensures here { IfSome result (λ i. (d : T) → T.called (slice_index_or things.now i d) ≡ name.now) }
{
    for (i, thing) in things.iter().enumerate() {
        if thing.name() == name {
            return Some(i);
        }
    }
    None
}
