// The bounds of tuples and of what their fields hold.

// The most fields of a tuple, and the most tuples of a space.
pub const FIELDS: usize = 6;

pub const TUPLES: usize = 256;

// The largest number of a process in a call.
pub const LARGEST_PROCESS: u64 = 4_294_967_295;

// The largest value of each kind; an offset's is its largest code.
pub const LARGEST_WORD: u64 = 255;

pub const LARGEST_COUNT: u64 = 18_446_744_073_709_551_615;

pub const LARGEST_CODE: u64 = 200_001;

pub const LARGEST_SET: u64 = 2_147_483_647;

// The largest offset; the least is its negative.
pub const LARGEST_OFFSET: i32 = 100_000;
