ghost use Rattle.std.specs.Prelude.{◌≡◌};
ghost use Rattle.bw_keys.specs.Limits.{usual_with};
ghost use Rattle.bw_law.specs.declared.pages.TheConstants.{MAX_PAGES as most};

use bw_keys::Config;
use bw_table::MAX_PAGES;

/// Returns the usual configuration of a map: pages of 64 entries, consolidated after each change,
/// and as many pages as there may be. They cost nothing, since a map takes its pages as it grows,
/// and they have room for 520 million pairs, inserted in any order.
pub fn usual_config() -> Config
    ensures { result ≡ usual_with most }
{
    Config {
        pages: MAX_PAGES,
        ..Config::default()
    }
}
