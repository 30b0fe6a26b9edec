//! The text of the bundle of what was logged, written from the sites, and the last values of their items.

ghost use Rattle.std.specs.Prelude.{◌≡◌, ◌++◌, ◌≤◌, IfOk, IfErr, OnOk, length, map};
ghost use Rattle.sgt_names.specs.Limits.{max_sites};
ghost use Rattle.sgt_notation.specs.Spelling.{line_text, text_of_lines};
ghost use Rattle.sgt_bundle.specs.Text.{has_increments, section_lines, sections_from, text_of};
ghost use Rattle.sgt_core_model.specs.Core.{CoreState, bundle_of, finals_of, site_log};
ghost use Rattle.sgt_core_model.specs.declared.reply.CoreFault.TheVariants.{Memory as NoMemory};
ghost use Rattle.sgt_core_machine.specs.Cut.{finals_at, last_values, logs_at};
ghost use Rattle.sgt_core_machine.specs.Machine.{parts_of, StandsFor, Stands};

use crate::machine::{Machine, Place};
use crate::records::{push_site, records_from, records_text, with_room_for};
use sgt_bundle::push_head;
use sgt_core_model::CoreFault;
use sgt_names::{Holding, Listed, SiteNo};
use std::alloc::{AllocError, Global};

/// The text of a bundle, and the last values of the items of each site.
#[derive(Drop)]
pub(crate) struct Written {
    pub(crate) text: Vec<u8>,
    pub(crate) finals: Vec<Listed<Holding>>,
}

impl Machine {
    /// The text of the bundle, with the last values. Err: memory ran out.
    pub(crate) fn written(&self, alloc: Global) -> Result<Written, AllocError>
        requires { Stands (parts_of self.now) }
        ensures text { IfOk result
            (λ w. (c : CoreState) → StandsFor (parts_of self.now) c
            → w.text.items ≡ text_of (bundle_of c)) }
        ensures finals { IfOk result
            (λ w. (c : CoreState) → StandsFor (parts_of self.now) c
            → w.finals.items ≡ last_values c) }
    {
        let places = self.places.as_slice();
        let count = places.len() as u8;
        let mut text = Vec::with_capacity(alloc, room_for(places))?;
        let Ok(certificate) = self.certifier.certificate(alloc, count) else {
            return Err(AllocError);
        };
        push_head(&mut text, any_site_increments(places), &certificate)?;
        drop(certificate);
        let finals = push_sections(alloc, &mut text, places)?;
        Ok(Written { text, finals })
    }

    /// The text of the bundle of a machine that is given up: of each site its items, its log and its last values are
    /// kept and no more, and they are let go once they are written. The certifier's walks are moved into the
    /// certificate.
    pub(crate) fn into_text(self, alloc: Global) -> Result<Vec<u8>, CoreFault>
        requires { Stands (parts_of self) }
        ensures ok { IfOk result
            (λ text. (c : CoreState) → StandsFor (parts_of self) c → text.items ≡ text_of (bundle_of c)) }
        ensures refused { IfErr result (λ f. f ≡ NoMemory) }
    {
        let Machine {
            places,
            certifier,
            ..
        } = self;
        let count = places.len() as u8;
        let Ok(records) = records_from(alloc, places) else {
            return Err(CoreFault::Memory);
        };
        let Ok(certificate) = certifier.into_certificate(alloc, count) else {
            return Err(CoreFault::Memory);
        };
        match records_text(alloc, certificate, records) {
            Ok(text) => Ok(text),
            Err(_) => Err(CoreFault::Memory),
        }
    }
}

// How much room a text is made with. The text may outgrow it.
fn room_for(places: &[Place]) -> usize {
    let mut room = 64usize;
    for place in places {
        room = with_room_for(room, place.site.log());
    }
    room
}

// Whether an entry of these sites' logs is an increment, or asks for one.
fn any_site_increments(places: &[Place]) -> bool
    ensures { result ≡ has_increments (logs_at places.now) }
{
    for place in places {
        if place.site.log().any_increment() {
            return true;
        }
    }
    false
}

// Writes the section of a site, and gives the last values of its items.
fn push_place(
    alloc: Global,
    out: &mut Vec<u8>,
    site: SiteNo,
    place: &Place,
) -> Result<Listed<Holding>, AllocError>
    ensures text { OnOk result
        (out.new.items
        ≡ out.old.items
        ++ text_of_lines (map line_text
        (section_lines site (site_log place.now.site.items place.now.site.entries)))) }
    ensures finals { IfOk result
        (λ finals. finals ≡ finals_of place.now.site.items place.now.site.entries) }
{
    let Ok(finals) = place.site.final_values(alloc) else {
        return Err(AllocError);
    };
    push_site(
        out,
        site,
        place.site.items(),
        place.site.log(),
        finals.as_slice(),
    )?;
    Ok(Listed::new(finals))
}

// Writes the sections of the sites, and gives the last values of their items.
fn push_sections(
    alloc: Global,
    out: &mut Vec<u8>,
    places: &[Place],
) -> Result<Vec<Listed<Holding>>, AllocError>
    requires { length places.now ≤ max_sites }
    ensures text { OnOk result
        (out.new.items
        ≡ out.old.items
        ++ text_of_lines (map line_text (sections_from 0 (logs_at places.now)))) }
    ensures finals { IfOk result (λ finals. finals.items ≡ finals_at places.now) }
{
    let mut finals = Vec::new(alloc);
    for (k, place) in places.iter().enumerate() {
        let Ok(site) = SiteNo::new(k as u64) else {
            unreachable!();
        };
        finals.push(push_place(alloc, out, site, place)?)?;
    }
    Ok(finals)
}
