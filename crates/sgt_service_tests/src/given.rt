//! Sites and scripts from their lines, and what is put in the place of a site.

use sgt_arena::Handle;
use sgt_names::{Draft, Holding, Item, Listed, SiteNo, Tx};
use sgt_notation::{Script, read_script, read_site};
use sgt_site::Site;
use std::alloc::Global;
use std::test::Fail;

pub fn sites_of(alloc: Global, lines: &[&str]) -> Option<Vec<Listed<Holding>>> {
    let mut sites = Vec::new(alloc);
    for line in lines {
        let site = read_site(alloc, line.as_bytes()).ok()?;
        sites.push(site.items).ok()?;
    }
    Some(sites)
}

pub fn scripts_of(alloc: Global, lines: &[&str]) -> Result<Vec<Script>, Fail> {
    let mut scripts = Vec::new(alloc);
    for line in lines {
        scripts.push(read_script(alloc, line.as_bytes())?)?;
    }
    Ok(scripts)
}

// A draft that writes the item at site 0.
fn write_of(alloc: Global, item: Item) -> Result<Draft, Fail> {
    let mut draft = Draft::new(alloc);
    draft.put(SiteNo::new(0)?, item, 6)?;
    Ok(draft)
}

/// Site 0 with these items, where transaction 1 wrote this one.
pub fn other_site(alloc: Global, items: &[Holding], item: Item) -> Result<Site, Fail> {
    let mut site = Site::new(alloc, SiteNo::new(0)?, items)?;
    let draft = write_of(alloc, item)?;
    site.pledge(Tx::new(1)?, &draft)?;
    site.install(Tx::new(1)?, Handle::default(), &draft)?;
    Ok(site)
}
