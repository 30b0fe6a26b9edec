//! Which transactions of a bundle are drawn.

ghost use Rattle.std.specs.Prelude.{◌≡◌, ◌++◌, ℕ, [], ◌∷◌, All, Contains, Some, IfOk, OnOk, slice_get};
ghost use Rattle.std.specs.List.{filter_map};
ghost use Rattle.sgt_bundle.specs.declared.certificate.Decision.TheVariants.{Commit};
ghost use Rattle.sgt_draw.specs.Gathering.{AddsDecision, HoldsAll, IsScene};
ghost use Rattle.sgt_draw.specs.Private.{IsRanked, numbered_in, with_next};
ghost use Rattle.sgt_draw.specs.declared.scene.Numbered.{Numbered as AnyNumbered};

use sgt_bundle::Decision;
use sgt_names::Tx;
use std::alloc::{AllocError, Global};

/// So many transactions of each fate are drawn at most.
pub const MOST_DRAWN: u32 = 200;

/// A transaction with a number: its rank, its place in the row, or the number of its decision.
#[derive(Clone, Copy)]
pub struct Numbered {
    pub tx: Tx,
    pub number: u32,
}

/// How many transactions there are of each fate.
#[derive(Clone, Copy)]
pub struct Counts {
    pub committed: u32,
    pub refused: u32,
    pub withdrawn: u32,
}

/// The transactions that are drawn, and how many there are.
#[derive(Drop)]
pub struct Scene {
    /// The first committed ones by rank.
    pub committed: Vec<Numbered>,
    /// The numbers of the first decisions that refuse.
    pub refusals: Vec<usize>,
    /// The first withdrawn ones.
    pub withdrawn: Vec<Tx>,
    pub counts: Counts,
    // The committed ones by transaction, each with its place.
    places: Vec<Numbered>,
}

impl Scene {
    fn new(alloc: Global) -> Scene
        ensures { (result.committed.items ≡ []) × (result.refusals.items ≡ []) × (result.withdrawn.items ≡ [])
            × (result.places.items ≡ []) }
    {
        Scene {
            committed: Vec::new(alloc),
            refusals: Vec::new(alloc),
            withdrawn: Vec::new(alloc),
            counts: Counts {
                committed: 0,
                refused: 0,
                withdrawn: 0,
            },
            places: Vec::new(alloc),
        }
    }

    /// One more committed transaction. It is drawn where its rank is less than so many.
    fn add_committed(&mut self, tx: Tx, rank: u32, most: u64) -> Result<(), AllocError>
        ensures committed { OnOk result (self.new.committed.items ≡ self.old.committed.items
            ++ filter_map (numbered_in most) (Commit tx rank ∷ [])) }
        ensures refusals { OnOk result (self.new.refusals ≡ self.old.refusals) }
        ensures withdrawn { OnOk result (self.new.withdrawn ≡ self.old.withdrawn) }
    {
        self.counts.committed = self.counts.committed.saturating_add(1);
        if u64::from(rank) < most {
            self.committed.push(Numbered { tx, number: rank })?;
            return Ok(());
        }
        Ok(())
    }

    /// One more decision that refuses, of this number.
    fn add_refused(&mut self, number: usize, most: u64) -> Result<(), AllocError>
        ensures refusals { OnOk result
            (self.new.refusals.items ≡ with_next most self.old.refusals.items number) }
        ensures committed { OnOk result (self.new.committed ≡ self.old.committed) }
        ensures withdrawn { OnOk result (self.new.withdrawn ≡ self.old.withdrawn) }
    {
        self.counts.refused = self.counts.refused.saturating_add(1);
        if (self.refusals.len() as u64) < most {
            self.refusals.push(number)?;
            return Ok(());
        }
        Ok(())
    }

    /// One more withdrawn transaction.
    fn add_withdrawn(&mut self, tx: Tx, most: u64) -> Result<(), AllocError>
        ensures withdrawn { OnOk result
            (self.new.withdrawn.items ≡ with_next most self.old.withdrawn.items tx) }
        ensures committed { OnOk result (self.new.committed ≡ self.old.committed) }
        ensures refusals { OnOk result (self.new.refusals ≡ self.old.refusals) }
    {
        self.counts.withdrawn = self.counts.withdrawn.saturating_add(1);
        if (self.withdrawn.len() as u64) < most {
            self.withdrawn.push(tx)?;
            return Ok(());
        }
        Ok(())
    }

    /// One more decision, of this number.
    fn add(&mut self, number: usize, decision: &Decision, most: u64) -> Result<(), AllocError>
        ensures { OnOk result (AddsDecision most number decision.now self.old self.new) }
    {
        match decision {
            Decision::Commit { tx, rank } => self.add_committed(*tx, *rank, most),
            Decision::Refuse { .. } => self.add_refused(number, most),
            Decision::Withdraw { tx } => self.add_withdrawn(*tx, most),
        }
    }

    /// All that these decisions are of, not yet by rank.
    fn gathered(alloc: Global, decisions: &[Decision], most: u64) -> Result<Scene, AllocError>
        ensures { IfOk result (HoldsAll most decisions.now) }
    {
        let mut scene = Scene::new(alloc);
        for (number, decision) in decisions.iter().enumerate() {
            scene.add(number, decision, most)?;
        }
        Ok(scene)
    }

    /// Puts the committed ones by rank, and notes their places.
    fn settle(&mut self) -> Result<(), AllocError>
        ensures committed { OnOk result (IsRanked self.old.committed.items self.new.committed.items) }
        ensures refusals { OnOk result (self.new.refusals ≡ self.old.refusals) }
        ensures withdrawn { OnOk result (self.new.withdrawn ≡ self.old.withdrawn) }
    {
        self.committed.sort_by_key(|one| one.number)?;
        note_places(&mut self.places, self.committed.as_slice())?;
        Ok(())
    }

    /// What these decisions are of, with the first ranks and the first transactions of other fates, so many of each.
    pub(crate) fn of(alloc: Global, decisions: &[Decision], most: u64) -> Result<Scene, AllocError>
        ensures { IfOk result (IsScene most decisions.now) }
    {
        let mut scene = Scene::gathered(alloc, decisions, most)?;
        scene.settle()?;
        Ok(scene)
    }

    /// One more of these transactions: the one at this place, if there is one.
    fn add_at(&mut self, committed: &[Numbered], place: usize) -> Result<(), AllocError>
        ensures own { OnOk result ((c : AnyNumbered) → slice_get committed.now place ≡ Some c
            → Contains self.new.committed.items c) }
        ensures kept { OnOk result ((c : AnyNumbered) → Contains self.old.committed.items c
            → Contains self.new.committed.items c) }
        ensures others { OnOk result (All (Contains committed.now) self.old.committed.items
            → All (Contains committed.now) self.new.committed.items) }
    {
        match committed.get(place) {
            Some(one) => {
                self.counts.committed = self.counts.committed.saturating_add(1);
                self.committed.push(*one)?;
                Ok(())
            }
            None => Ok(()),
        }
    }

    /// Those of these transactions that stand at the places, not yet by rank.
    fn picked(alloc: Global, committed: &[Numbered], places: &[usize]) -> Result<Scene, AllocError>
        ensures own { IfOk result (λ scene. (place : ℕ) (c : AnyNumbered) → Contains places.now place
            → slice_get committed.now place ≡ Some c → Contains scene.committed.items c) }
        ensures others { IfOk result (λ scene. All (Contains committed.now) scene.committed.items) }
    {
        let mut scene = Scene::new(alloc);
        for place in places {
            scene.add_at(committed, *place)?;
        }
        Ok(scene)
    }

    /// The transactions at these places alone.
    pub(crate) fn only(&self, alloc: Global, places: &[usize]) -> Result<Scene, AllocError>
        ensures own { IfOk result (λ scene. (place : ℕ) (c : AnyNumbered) → Contains places.now place
            → slice_get self.now.committed.items place ≡ Some c → Contains scene.committed.items c) }
        ensures others { IfOk result (λ scene. All (Contains self.now.committed.items) scene.committed.items) }
    {
        let mut scene = Scene::picked(alloc, self.committed.as_slice(), places)?;
        scene.settle()?;
        Ok(scene)
    }

    /// The place of a committed transaction in the row, if it is drawn. A binary search.
    pub(crate) fn place_of(&self, tx: Tx) -> Option<u32> {
        let places = self.places.as_slice();
        let at = places.partition_point(|one| one.tx.number() < tx.number());
        match places.get(at) {
            Some(found) if found.tx == tx => Some(found.number),
            _ => None,
        }
    }

    /// Whether all transactions are few enough for names and labels beside them: forty.
    pub(crate) fn is_small(&self) -> bool {
        let counts = self.counts;
        let all = counts
            .committed
            .saturating_add(counts.refused)
            .saturating_add(counts.withdrawn);
        all <= 40
    }

    /// Whether some transactions are not drawn.
    pub(crate) fn leaves_out(&self) -> bool {
        let counts = self.counts;
        counts.committed > MOST_DRAWN
            || counts.refused > MOST_DRAWN
            || counts.withdrawn > MOST_DRAWN
    }
}

/// Notes the places of committed transactions.
fn note_places(places: &mut Vec<Numbered>, committed: &[Numbered]) -> Result<(), AllocError> {
    let mut place = 0u32;
    for one in committed {
        places.push(Numbered {
            tx: one.tx,
            number: place,
        })?;
        place = place.saturating_add(1);
    }
    places.sort_by_key(|one| one.tx.number())
}
