//! Events of a run of transactions over sites, and the lines of a replay that give them.

use sgt_names::{Holding, Item, Listed, SiteNo, Tx, Value};

/// What is asked of the machine that runs transactions over sites.
#[derive(Clone, Copy, Debug, PartialEq, Eq)]
pub enum Event {
    /// A transaction begins. It gets the next number.
    Begin,
    /// The transaction reads the item at the site.
    Read {
        tx: Tx,
        site: SiteNo,
        item: Item,
    },
    /// It is to write this value: kept as its own until it is installed.
    Put {
        tx: Tx,
        site: SiteNo,
        item: Item,
        value: Value,
    },
    /// It is to add this value, modulo 2^64 and without reading the item: kept likewise.
    Add {
        tx: Tx,
        site: SiteNo,
        item: Item,
        value: Value,
    },
    /// Its conflicts at the site are gathered. The first of them opens its step.
    Gather {
        tx: Tx,
        site: SiteNo,
    },
    /// It is decided, once all sites that it touches are gathered.
    Decide {
        tx: Tx,
    },
    /// Its block is written at the site. The last of them closes its step.
    Install {
        tx: Tx,
        site: SiteNo,
    },
    /// It is gathered at each site that it touches, decided, and installed at each of them.
    Commit {
        tx: Tx,
    },
    /// It is given up by its caller.
    Withdraw {
        tx: Tx,
    },
    /// The window of transactions is closed.
    Close,
}

/// What a line of a replay asks, behind the lines of its sites.
#[derive(Clone, Copy, Debug, PartialEq, Eq)]
pub enum EventLine {
    /// One event. `Gather` and `Decide` have no line of their own.
    One(Event),
    /// The transaction is gathered at each site that it touches, by rising number, and decided.
    ToDecide(Tx),
}

impl EventLine {
    ghost use Rattle.std.specs.Prelude.{◌↔◌, IsTrue};
    ghost use Rattle.sgt_notation.specs.Events.{HasLine};

    /// Whether a line asks this: all but one `Gather` or one `Decide`.
    pub fn has_line(&self) -> bool
        ensures { IsTrue result ↔ HasLine self.now }
    {
        !matches!(
            self,
            EventLine::One(Event::Gather { .. } | Event::Decide { .. })
        )
    }
}

/// A site that a replay starts from.
#[derive(Drop)]
pub struct SiteLine {
    pub site: SiteNo,
    /// Its items with their initial values, names rising; there may be none.
    pub items: Listed<Holding>,
}
