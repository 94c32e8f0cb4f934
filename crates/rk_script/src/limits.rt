// How long a name may be, and how many names may be live at once.

/// The most bytes of a name.
pub(crate) const MOST_NAME_BYTES: usize = 32;

/// The most writers of a file.
pub(crate) const MOST_WRITERS: usize = 64;

/// The most iterators that are open at once.
pub(crate) const MOST_ITERATORS: usize = 100;

/// The most snapshots that are live at once.
pub(crate) const MOST_SNAPSHOTS: usize = 1000;
