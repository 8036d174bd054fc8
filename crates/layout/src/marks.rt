// The marks' bytes: two boards that are kept under the names 0 and 1 lie in one more buffer that the host lends, one mark behind the other.

// The bytes of one mark: rows, killers, slots.
pub const MARK: usize = 21504;

// Both.
pub const MARKS: usize = 43008;
