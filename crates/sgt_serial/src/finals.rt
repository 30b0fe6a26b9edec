//! The recorded final values.

ghost use Rattle.std.specs.Prelude.{◌≡◌, ◌++◌, ◌≤◌, length, map, OnOk, IfOk};
ghost use Rattle.sgt_names.specs.Limits.{max_sites};
ghost use Rattle.sgt_serial.specs.Report.{final_at, finals_of};

use crate::report::SiteValue;
use sgt_compact::CompactLog;
use sgt_names::{Holding, SiteNo};
use std::alloc::{AllocError, Global};

/// The recorded final values of all sites, by site and then by name.
pub fn finals(alloc: Global, sites: &[CompactLog]) -> Result<Vec<SiteValue>, AllocError>
    requires { length sites.now ≤ max_sites }
    ensures { IfOk result (λ finals. finals.items ≡ finals_of sites.now) }
{
    let mut finals = Vec::new(alloc);
    for (number, log) in sites.iter().enumerate() {
        let site = SiteNo::new(number as u64).unwrap();
        add_finals(&mut finals, site, log.finals())?;
    }
    Ok(finals)
}

fn add_finals(
    finals: &mut Vec<SiteValue>,
    site: SiteNo,
    holdings: &[Holding],
) -> Result<(), AllocError>
    ensures { OnOk result
        (finals.new.items ≡ finals.old.items ++ map (final_at site) holdings.now) }
{
    for holding in holdings {
        finals.push(SiteValue {
            site,
            item: holding.item,
            value: holding.value,
        })?;
    }
    Ok(())
}
