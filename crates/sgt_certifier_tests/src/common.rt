//! A site with two items, handles and labels, and what the tests ask of them.

use sgt_arena::Handle;
use sgt_edges::Edge;
use sgt_names::{Holding, Item, Kind, Label, SiteNo, Tx};
use sgt_site::{Reader, Site, SiteFault, Writer};
use std::alloc::Global;
use std::test::Fail;

/// The names of a site, of its items and of its transactions.
#[derive(Clone, Copy)]
pub(crate) struct Names {
    pub(crate) site: SiteNo,
    pub(crate) x: Item,
    pub(crate) y: Item,
    pub(crate) one: Tx,
    pub(crate) two: Tx,
}

impl Names {
    /// Those of the site of this number.
    pub(crate) fn at(number: u64) -> Result<Names, Fail> {
        Ok(Names {
            site: SiteNo::new(number)?,
            x: Item::new(b"x")?,
            y: Item::new(b"y")?,
            one: Tx::new(1)?,
            two: Tx::new(2)?,
        })
    }

    /// An edge on x.
    pub(crate) fn edge(&self, from: Handle, to: Handle, kind: Kind) -> Edge {
        let label = Label {
            site: self.site,
            item: self.x,
            kind,
        };
        Edge { from, to, label }
    }
}

pub(crate) fn handle(index: u32, generation: u32) -> Handle {
    Handle { index, generation }
}

/// The site with x=5 and this value of y.
pub(crate) fn opened(alloc: Global, names: &Names, y: u64) -> Result<Site, SiteFault> {
    let items = [
        Holding {
            item: names.x,
            value: 5,
        },
        Holding {
            item: names.y,
            value: y,
        },
    ];
    Site::new(alloc, names.site, &items)
}

/// Whether these are the writers and the readers of the item, and the version that its last write made.
pub(crate) fn is_used_by(
    site: &Site,
    item: Item,
    writers: &[Writer],
    written: u64,
    readers: &[Reader],
) -> bool {
    match (site.writers(item), site.accesses(item)) {
        (Ok(wrote), Ok(all)) => {
            wrote == writers
                && all.writers == writers
                && all.version_written == written
                && all.readers == readers
        }
        _ => false,
    }
}

/// The next of a row of numbers that look random.
pub(crate) fn random(state: &mut u64) -> u64 {
    *state = state
        .wrapping_mul(6_364_136_223_846_793_005)
        .wrapping_add(1_442_695_040_888_963_407);
    *state >> 40
}
