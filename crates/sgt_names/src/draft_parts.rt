//! Touched items site by site.

ghost use Rattle.std.specs.Prelude.{◌≡◌, ◌<◌, ◌≤◌, true, false, All, IfOk, IfErr, OnOk, OnErr, vec_len, vec_capacity, []};
ghost use Rattle.std.specs.Ordering.{nat_cmp};
ghost use Rattle.sgt_names.specs.Ordered.{IsAt, IsGapFor};
ghost use Rattle.sgt_names.specs.Draft.{IsUsed};
ghost use Rattle.sgt_names.specs.DraftParts.{IsPart, PartsRise, InsertsPart, touched_in, all_fit};

use crate::draft::Touch;
use crate::item::Item;
use crate::site_no::SiteNo;
use crate::touch_list::TouchList;
use std::alloc::{AllocError, Global};
use std::marker::Model;
use std::mem;

/// What a draft touches at one site.
#[derive(Drop)]
pub struct Part {
    site: SiteNo,
    list: TouchList,
}

impl Model for Part {
    ghost use Rattle.sgt_names.specs.DraftParts.{PartView, IsPart};

    ghost Value = { PartView };

    ghost view = { λ p. record { site = p.site; touched = p.list.touched; has_room = p.list.has_room } };

    ghost invariant = { λ p. IsPart (record { site = p.site; touched = p.list.touched; has_room = p.list.has_room }) };
}

impl Part {
    ghost use Rattle.std.specs.Prelude.{◌≡◌, ◌⊎◌, true, false, IsTrue, IsSome, IsOk, OnOk, OnErr, All};
    ghost use Rattle.sgt_names.specs.Draft.{AreRising, IsUsed, place_of, touched_at, ChangesOnly};
    ghost use Rattle.sgt_names.specs.DraftParts.{IsPart};

    pub fn site(&self) -> SiteNo
        ensures { result ≡ self.now.site }
    {
        self.site
    }

    /// The touched items, by rising name.
    pub fn touched(&self) -> &[Touch]
        ensures all { result.now ≡ self.now.touched }
        ensures rising { AreRising self.now.touched }
        ensures used { All IsUsed self.now.touched }
        ensures here { All (λ t. t.site ≡ self.now.site) self.now.touched }
    {
        self.list.touched()
    }

    pub(crate) fn get(&self, item: Item) -> Option<Touch>
        ensures { result ≡ touched_at self.now.touched (self.now.site, item) }
    {
        self.list.get(self.site, item)
    }

    pub(crate) fn room(&mut self) -> Result<(), AllocError>
        ensures ok { OnOk result (self.new ≡ record self.old { has_room = true }) }
        ensures err { OnErr result ((self.new ≡ self.old) × (self.old.has_room ≡ false)) }
    {
        self.list.room()
    }

    pub(crate) fn keep(&mut self, touch: Touch) -> Result<(), AllocError>
        requires here { touch.site ≡ self.old.site }
        requires used { IsUsed touch }
        ensures site { self.new.site ≡ self.old.site }
        ensures ok { OnOk result (ChangesOnly self.old.touched self.new.touched touch) }
        ensures err { OnErr result (self.new ≡ self.old) }
        ensures succeeds { IsTrue self.old.has_room
            ⊎ IsSome (touched_at self.old.touched (place_of touch)) → IsOk result }
        ensures room { IsSome (touched_at self.old.touched (place_of touch))
            → self.new.has_room ≡ self.old.has_room }
        ensures part { IsPart self.new }
    {
        let kept = self.list.keep(touch);
        let _touched = self.list.touched();
        kept
    }
}

// Touched items, site by site.
#[derive(Drop)]
pub struct Parts {
    alloc: Global,
    // by rising site
    parts: Vec<Part>,
    // the list of the next part, where room was made for one
    spare: Vec<Touch>,
}

impl Model for Parts {
    ghost use Rattle.std.specs.Prelude.{◌≡◌, [], All, vec_len, vec_capacity, nat_lt, ◌&&◌};
    ghost use Rattle.sgt_names.specs.Draft.{DraftView};
    ghost use Rattle.sgt_names.specs.DraftParts.{PartsRise, IsPart, touched_in, all_fit};

    ghost Value = { DraftView };

    ghost view = { λ d. record {
      touched = touched_in d.parts.items;
      has_room = all_fit d.parts.items && (nat_lt (vec_len d.parts) (vec_capacity d.parts) && nat_lt 0 (vec_capacity d.spare));
    } };

    ghost invariant = { λ d. PartsRise d.parts.items × All IsPart d.parts.items × (d.spare.items ≡ []) };
}

impl Parts {
    ghost use Rattle.std.specs.Prelude.{◌≡◌, ◌↔◌, ◌⊎◌, [], true, IsTrue, IsSome, IsOk, OnOk, OnErr, IfOk, Some, None, All};
    ghost use Rattle.sgt_names.specs.Draft.{place_of, AreRising, IsUsed, at_site, touched_at, seen_at, change_at, Touches, ChangesOnly};

    // The touched items of a list, which is left as it is.
    pub(crate) fn of(alloc: Global, touched: &[Touch]) -> Result<Parts, AllocError>
        requires rising { AreRising touched.now }
        requires used { All IsUsed touched.now }
        ensures { IfOk result (λ parts. parts.touched ≡ touched.now) }
    {
        let mut parts = Parts {
            alloc,
            parts: Vec::new(alloc),
            spare: Vec::new(alloc),
        };
        for touch in touched {
            parts.keep(*touch)?;
            // That they rise shows that the item stands at the end.
            let _parts = parts.parts();
        }
        Ok(parts)
    }

    pub(crate) fn alloc(&self) -> Global {
        self.alloc
    }

    pub(crate) fn parts(&self) -> &[Part]
        ensures all { touched_in result.now ≡ self.now.touched }
        ensures rising { AreRising self.now.touched }
        ensures used { All IsUsed self.now.touched }
    {
        self.parts.as_slice()
    }

    pub(crate) fn at(&self, site: SiteNo) -> &[Touch]
        ensures part { result.now ≡ at_site site self.now.touched }
        ensures rising { AreRising result.now }
        ensures used { All IsUsed result.now }
    {
        match find(self.parts.as_slice(), site) {
            Ok(at) => self.parts[at].touched(),
            Err(_) => &[],
        }
    }

    pub(crate) fn room(&mut self) -> Result<(), AllocError>
        ensures ok { OnOk result (self.new ≡ record self.old { has_room = true }) }
        ensures err { OnErr result (self.new ≡ self.old) }
    {
        self.spare.reserve(1)?;
        self.parts.reserve(1)?;
        make_rooms(&mut self.parts)
    }

    pub(crate) fn get(&self, site: SiteNo, item: Item) -> Option<Touch>
        ensures { result ≡ touched_at self.now.touched (site, item) }
    {
        match find(self.parts.as_slice(), site) {
            Ok(at) => self.parts[at].get(item),
            Err(_) => None,
        }
    }

    // Keeps what is touched, in place of what was touched there.
    pub(crate) fn keep(&mut self, touch: Touch) -> Result<(), AllocError>
        requires { IsUsed touch }
        ensures ok { OnOk result (ChangesOnly self.old.touched self.new.touched touch) }
        ensures err { OnErr result (self.new ≡ self.old) }
        ensures succeeds { IsTrue self.old.has_room
            ⊎ IsSome (touched_at self.old.touched (place_of touch)) → IsOk result }
        ensures room { IsSome (touched_at self.old.touched (place_of touch))
            → self.new.has_room ≡ self.old.has_room }
    {
        match find(self.parts.as_slice(), touch.site) {
            Ok(at) => self.parts[at].keep(touch),
            Err(at) => add_part(self.alloc, &mut self.parts, &mut self.spare, at, touch),
        }
    }

    pub(crate) fn touches(&self, site: SiteNo) -> bool
        ensures { IsTrue result ↔ Touches self.now.touched site }
    {
        find(self.parts.as_slice(), site).is_ok()
    }
}

// Where the part of the site is, or where it would go.
fn find(parts: &[Part], site: SiteNo) -> Result<usize, usize>
    requires { PartsRise parts.now }
    ensures found { IfOk result (IsAt (λ p. p.site) parts.now site) }
    ensures absent { IfErr result (IsGapFor (λ p. p.site) nat_cmp parts.now site) }
{
    parts.binary_search_by(|part| part.site().number().cmp(&site.number()))
}

// Puts a part of one item among the parts. Where no memory is had, nothing changes.
fn add_part(
    alloc: Global,
    parts: &mut Vec<Part>,
    spare: &mut Vec<Touch>,
    at: usize,
    touch: Touch,
) -> Result<(), AllocError>
    requires within { at ≤ vec_len parts.old }
    requires used { IsUsed touch }
    requires blank { spare.old.items ≡ [] }
    ensures ok { OnOk result (InsertsPart parts.old.items parts.new.items at touch) }
    ensures err { OnErr result
        ((parts.new.items ≡ parts.old.items) × (vec_len parts.new ≡ vec_len parts.old)) }
    ensures blank { spare.new.items ≡ [] }
    ensures full { OnErr result
        (vec_len parts.old < vec_capacity parts.old → 0 < vec_capacity spare.old → ⊥) }
    ensures stays_full { OnErr result
        (vec_len parts.new < vec_capacity parts.new → 0 < vec_capacity spare.new → ⊥) }
{
    spare.reserve(1)?;
    parts.reserve(1)?;
    let site = touch.site;
    let mut touched = mem::replace(spare, Vec::new(alloc));
    touched.push_reserved(touch);
    let list = TouchList { touched };
    let _ = parts.insert(at, Part { site, list });
    Ok(())
}

// Makes room for one more item at each site.
fn make_rooms(parts: &mut Vec<Part>) -> Result<(), AllocError>
    ensures same { touched_in parts.new.items ≡ touched_in parts.old.items }
    ensures parts { PartsRise parts.old.items × All IsPart parts.old.items
        → PartsRise parts.new.items × All IsPart parts.new.items }
    ensures ok { OnOk result (all_fit parts.new.items ≡ true) }
    ensures err { OnErr result
        ((all_fit parts.old.items ≡ false) × (all_fit parts.new.items ≡ false)) }
    ensures slots { (vec_len parts.new ≡ vec_len parts.old)
        × (vec_capacity parts.new ≡ vec_capacity parts.old) }
{
    for at in 0..parts.len() {
        parts[at].room()?;
    }
    Ok(())
}
