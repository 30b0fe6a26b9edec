//! What stands in logs.

ghost use Rattle.std.specs.Prelude.{◌↔◌, Contains, IsTrue};
ghost use Rattle.sgt_certify_logs.specs.Witness.{IsIn};

use sgt_bundle::SiteLog;
use sgt_names::Entry;

fn has_entry(entries: &[Entry], entry: &Entry) -> bool
    ensures { IsTrue result ↔ Contains entries.now entry.now }
{
    entries.contains(entry)
}

/// Whether the entry stands in one of the logs.
pub fn stands_in(sites: &[SiteLog], entry: &Entry) -> bool
    ensures { IsTrue result ↔ IsIn sites.now entry.now }
{
    for log in sites {
        if has_entry(log.entries.as_slice(), entry) {
            return true;
        }
    }
    false
}
