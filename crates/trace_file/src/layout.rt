// Where each part of a trace file stands, counted in bytes; the definitions have theirs in `specs/Layout.antt`.

// The length stands first and counts the bytes from the version on.
pub(crate) const VERSION: usize = 4;

pub(crate) const COUNT: usize = 5;

pub(crate) const START: usize = 7;

pub(crate) const CODE: usize = 9;

pub(crate) const NUMBERS: usize = 10;
