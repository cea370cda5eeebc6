// What a table holds in one place, and what an admitted call comes to.
ghost use Rattle.std.specs.Prelude.{◌≡◌, true};
ghost use Rattle.rules.specs.Sound.{sound};

use report::{Address, Report};
use rules::{Connection, Order};

// A connection at its address. Its numbers are within their types: whoever builds one proves so.
// What a place reports, orders and becomes are functions in modules of their own, each over the place and a tick: methods
// would only move the parameter.
#[derive(Clone, Copy, PartialEq, Eq, Debug)]
pub struct Place {
    pub address: Address,
    pub connection: Connection,
    pub ghost bounded: { sound connection ≡ true },
}

// What an admitted call asks of the host, and the report that goes, if one does.
#[derive(Clone, Copy, PartialEq, Eq, Debug)]
pub struct Outcome {
    pub order: Order,
    pub report: Option<Report>,
}
