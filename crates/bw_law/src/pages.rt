/// The most pages that a table may come to have.
pub const MAX_PAGES: u32 = 1 << 24;
