use std::marker::Brand;
use std::sync::ledger::Ledger;

/// A ledger of a tree that is made by one configuration.
pub trait MadeBy: Ledger {
    ghost use Rattle.bw_keys.specs.declared.config.Config.{Config};

    // the configuration
    ghost config: { Config };
}

impl MadeBy for Brand {
    ghost use Rattle.bw_keys.specs.Limits.{usual_config};

    ghost config = { usual_config };
}
