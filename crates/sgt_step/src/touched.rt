//! Which sites a draft touches.

ghost use Rattle.std.specs.Prelude.{◌≡◌, ◌<◌, ◌≤◌, ℕ, true, false, length, get_or, All, Any, IsTrue};
ghost use Rattle.sgt_names.specs.Draft.{IsUsed, Touches};
ghost use Rattle.sgt_step.specs.private.Flags.{Marks};

use sgt_names::{Draft, MAX_SITES, Part, SiteNo, Touch};
use std::alloc::AllocError;
use std::marker::Model;

const SITES: usize = MAX_SITES as usize;

/// The sites that a draft touches.
#[derive(Drop)]
pub struct TouchedSites {
    // of each site, whether it is one of them
    flags: [bool; SITES],
}

impl Model for TouchedSites {
    ghost use Rattle.std.specs.Prelude.{List, Bool};

    ghost Value = { List Bool };

    ghost view = { λ t. t.flags };
}

impl TouchedSites {
    ghost use Rattle.std.specs.Prelude.{◌≡◌, ◌↔◌, ◌<◌, ◌≤◌, ℕ, false, filter, IsTrue, OnOk};
    ghost use Rattle.std.specs.List.{range_with_len};
    ghost use Rattle.sgt_names.specs.Limits.{max_sites};
    ghost use Rattle.sgt_step.specs.Touched.{is_in, IsIn, AreSitesOf};

    /// Those of a draft. Goes over it once.
    pub fn of(draft: &Draft) -> TouchedSites
        ensures { AreSitesOf result draft.now.touched }
    {
        let mut flags = [false; SITES];
        let (few, parts) = draft.touched();
        mark_all(&mut flags, few);
        mark_parts(&mut flags, parts);
        TouchedSites { flags }
    }

    /// Whether the site is one of them.
    pub fn contains(&self, site: SiteNo) -> bool
        ensures { result ≡ is_in self.now site }
    {
        is_set(&self.flags, site.number() as usize)
    }

    /// Whether all of them are below this number.
    pub fn are_below(&self, count: usize) -> bool
        ensures all { IsTrue result → (s : ℕ) → count ≤ s → is_in self.now s ≡ false }
        ensures beyond { result ≡ false → (s : ℕ) × (count ≤ s) × IsIn self.now s }
    {
        for number in count..SITES {
            if is_set(&self.flags, number) {
                return false;
            }
        }
        true
    }

    /// Puts those below a number into a list, rising. What was there is taken out. Errs where there was no memory.
    pub fn list_below(&self, sites: &mut Vec<SiteNo>, count: usize) -> Result<(), AllocError>
        requires few { count ≤ max_sites }
        ensures { OnOk result
            (sites.new.items ≡ filter (is_in self.now) (range_with_len 0 count)) }
    {
        sites.clear();
        for number in 0..count {
            if is_set(&self.flags, number) {
                let Ok(site) = SiteNo::new(number as u64) else {
                    unreachable!();
                };
                sites.push(site)?;
            }
        }
        Ok(())
    }
}

// Whether the flag of the site of this number is set.
fn is_set(flags: &[bool; SITES], number: usize) -> bool
    requires { number < 64 }
    ensures { result ≡ get_or flags.now number false }
{
    flags[number]
}

// Sets the flags of the sites of these parts.
fn mark_parts(flags: &mut [bool; SITES], parts: &[Part])
    requires long { length flags.old ≡ 64 }
    ensures { Marks flags.old flags.new (λ s. Any (λ p. Touches p.touched s) parts.now) }
{
    for part in parts {
        mark_all(flags, part.touched());
    }
}

// Sets the flags of the sites of these items.
fn mark_all(flags: &mut [bool; SITES], touched: &[Touch])
    requires long { length flags.old ≡ 64 }
    requires used { All IsUsed touched.now }
    ensures marks { Marks flags.old flags.new (Touches touched.now) }
    ensures long { length flags.new ≡ 64 }
{
    for touch in touched {
        flags[touch.site.number() as usize] = true;
    }
}
