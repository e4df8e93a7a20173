// Where each part of a job file stands, counted in bytes; the definitions have theirs in `specs/Layout.antt`.

// Of a surface, from its first byte on, where its kind stands.
pub(crate) const MARKS: usize = 1;

pub(crate) const FRAME: usize = 2;

pub(crate) const FIRST_SIZE: usize = 98;

pub(crate) const SECOND_SIZE: usize = 106;

pub(crate) const U_WINDOW: usize = 114;

pub(crate) const V_WINDOW: usize = 130;

pub(crate) const SURFACE_BYTES: usize = 146;

// Of the file, whose length field stands first.
pub(crate) const VERSION: usize = 4;

pub(crate) const SURFACE_A: usize = 5;

pub(crate) const SURFACE_B: usize = 151;

pub(crate) const CONFUSION: usize = 297;

pub(crate) const ANGULAR: usize = 305;

pub(crate) const GUESS: usize = 313;

pub(crate) const CAP: usize = 345;

pub(crate) const JOB_BYTES: usize = 347;

// What the length field says: the bytes behind it.
pub(crate) const FOLLOWING: u64 = 343;
