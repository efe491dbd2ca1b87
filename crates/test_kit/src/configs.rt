use bw_keys::Config;

/// Pages and chains so small that a few puts split a leaf.
pub const SMALL: Config = Config {
    fanout: 4,
    chain: 4,
    pages: 64,
    tries: 100,
    first_version: 0,
};

/// Small pages and chains, room for hundreds of keys, and effort for workers that meet.
pub const LARGE: Config = Config {
    fanout: 4,
    chain: 4,
    pages: 4096,
    tries: 1000,
    first_version: 0,
};
