// What the first byte of a batch and of each operation says.

/// The version of the format.
pub(crate) const VERSION: u8 = 1;

pub(crate) const PUT: u8 = 1;

pub(crate) const DEL: u8 = 2;

pub(crate) const RANGE_SET: u8 = 3;

pub(crate) const RANGE_UNSET: u8 = 4;

pub(crate) const RANGE_DEL: u8 = 5;
