//! Where a seek or a pass cuts a sorted list.

/// A place between keys.
#[derive(Clone, Copy, Debug)]
pub enum Cut<K> {
    /// Before all keys.
    Start,
    /// Before this key.
    Below(K),
    /// Behind this key.
    Past(K),
    /// Behind all keys.
    End,
}
