//! The sites that an input begins with.

ghost use Rattle.std.specs.Prelude.{◌≡◌, map, IfOk};
ghost use Rattle.sgt_input.specs.Sites.{TakesSite};

use sgt_names::{Holding, Listed};
use sgt_notation::{NotationFault, SiteLine, read_site};
use std::alloc::{AllocError, Global};

/// Keeps the site, if the line spells the next one. Err: memory ran out.
pub fn take_site(alloc: Global, sites: &mut Vec<SiteLine>, line: &[u8]) -> Result<bool, AllocError>
    ensures { IfOk result (TakesSite sites.old.items line.now sites.new.items) }
{
    let site = match read_site(alloc, line) {
        Ok(site) => site,
        Err(NotationFault::Memory) => return Err(AllocError),
        Err(NotationFault::NotALine | NotationFault::TooLong) => return Ok(false),
    };
    if usize::from(site.site.number()) != sites.len() {
        return Ok(false);
    }
    sites.push(site)?;
    Ok(true)
}

/// The items of the sites, each with its first value.
pub fn items_of(alloc: Global, sites: Vec<SiteLine>) -> Result<Vec<Listed<Holding>>, AllocError>
    ensures { IfOk result (λ items. items.items ≡ map (λ l. l.items) sites.items) }
{
    let mut items = Vec::new(alloc);
    for site in sites {
        items.push(site.items)?;
    }
    Ok(items)
}
