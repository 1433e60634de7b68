// Two pmaps of any make, kept alike: what both hold is held.
ghost use Rattle.std.specs.Prelude.{◌≡◌, true, is_some};
ghost use Rattle.pmap.specs.Meaning.{Cleared, Enters, Removes, Lowers, Drops, Unwires, Accesses, Unmarks};
ghost use Rattle.layers.specs.Twins.{Twins, Twins-prop, agreed};

use pmap::access::Access;
use pmap::interface::Pmap;
use pmap::range::allows;
use refusal::pmap::PmapRefusal;

#[derive(Drop)]
pub struct Replica<P: Pmap, Q: Pmap> {
    first: P,
    second: Q,
    ghost twins: { Twins (P.view first) (Q.view second) } by { Twins-prop (P.view first) (Q.view second) },
}

impl<P: Pmap, Q: Pmap> Replica<P, Q> {
    ghost use Rattle.layers.specs.Agreement.{joint, BothKeep, Jointly, ToBoth};

    // Clears both pmaps and owns them.
    pub fn new(first: P, second: Q) -> Replica<P, Q>
        ensures meaning { Cleared (joint result) }
        ensures kept { BothKeep result }
        ensures halves { Cleared (P.view result.first) × Cleared (Q.view result.second) }
    {
        Replica {
            first: cleared(first),
            second: cleared(second),
        }
    }

    pub fn first(&self) -> &P
        ensures { result.now ≡ self.now.first }
    {
        &self.first
    }

    pub fn second(&self) -> &Q
        ensures { result.now ≡ self.now.second }
    {
        &self.second
    }

    // An unwire of a place that both halves hold.
    fn unwire_both(&mut self, space: u8, page: u32) -> Result<(), PmapRefusal>
        requires kept { BothKeep self.old }
        requires held { is_some ((joint self.old).held space page) ≡ true }
        ensures meaning { Jointly self.old self.new (λ v w. Unwires v w space page result) }
        ensures kept { BothKeep self.new }
        ensures halves { ToBoth self.old self.new (λ v w. Unwires v w space page result) }
    {
        self.first.unwire(space, page)?;
        self.second.unwire(space, page)
    }
}

fn cleared<P: Pmap>(mut pmap: P) -> P
    ensures meaning { Cleared (P.view result) }
    ensures kept { P.kept result }
{
    pmap.clear();
    pmap
}

// The mapping that two answers of `find` agree on.
fn agree(one: Option<(u16, u8, bool)>, two: Option<(u16, u8, bool)>) -> Option<(u16, u8, bool)>
    ensures { result ≡ agreed one two }
{
    if one == two { one } else { None }
}

impl<P: Pmap, Q: Pmap> Pmap for Replica<P, Q> {
    ghost use Rattle.layers.specs.Agreement.{joint, BothKeep, Jointly, ToBoth, ToHolders, ToOne};

    ghost view = { joint };

    ghost kept = { BothKeep };

    fn clear(&mut self)
        ensures meaning { Cleared (joint self.new) }
        ensures kept { BothKeep self.new }
        ensures halves { Cleared (P.view self.new.first) × Cleared (Q.view self.new.second) }
    {
        self.first.clear();
        self.second.clear();
    }

    fn enter(
        &mut self,
        space: u8,
        page: u32,
        frame: u16,
        protection: u8,
        wired: bool,
    ) -> Result<(), PmapRefusal>
        requires { BothKeep self.old }
        ensures meaning { Jointly self.old self.new (λ v w. Enters v w space page frame protection wired result) }
        ensures kept { BothKeep self.new }
        ensures halves { ToBoth self.old self.new (λ v w. Enters v w space page frame protection wired result) }
    {
        self.first.enter(space, page, frame, protection, wired)?;
        self.second.enter(space, page, frame, protection, wired)
    }

    fn remove(&mut self, space: u8, page: u32) -> Result<(), PmapRefusal>
        requires { BothKeep self.old }
        ensures meaning { Jointly self.old self.new (λ v w. Removes v w space page result) }
        ensures kept { BothKeep self.new }
        ensures halves { ToBoth self.old self.new (λ v w. Removes v w space page result) }
    {
        self.first.remove(space, page)?;
        self.second.remove(space, page)
    }

    fn lower(&mut self, space: u8, page: u32) -> Result<(), PmapRefusal>
        requires { BothKeep self.old }
        ensures meaning { Jointly self.old self.new (λ v w. Lowers v w space page result) }
        ensures kept { BothKeep self.new }
        ensures halves { ToBoth self.old self.new (λ v w. Lowers v w space page result) }
    {
        self.first.lower(space, page)?;
        self.second.lower(space, page)
    }

    fn drop_frame(&mut self, frame: u16) -> Result<(), PmapRefusal>
        requires { BothKeep self.old }
        ensures meaning { Jointly self.old self.new (λ v w. Drops v w frame result) }
        ensures kept { BothKeep self.new }
        ensures halves { ToBoth self.old self.new (λ v w. Drops v w frame result) }
    {
        self.first.drop_frame(frame)?;
        self.second.drop_frame(frame)
    }

    // A half may forget other mappings while it unwires, so it is asked only where both hold the place.
    fn unwire(&mut self, space: u8, page: u32) -> Result<(), PmapRefusal>
        requires { BothKeep self.old }
        ensures meaning { Jointly self.old self.new (λ v w. Unwires v w space page result) }
        ensures kept { BothKeep self.new }
        ensures halves { ToHolders self.old self.new ((joint self.old).held space page) (λ v w. Unwires v w space page result) }
    {
        match self.find(space, page)? {
            Some(_) => self.unwire_both(space, page),
            None => Ok(()),
        }
    }

    // An access is served by the first half for an even space, by the second for an odd one.
    fn access(&mut self, space: u8, page: u32, write: bool) -> Result<Access, PmapRefusal>
        requires { BothKeep self.old }
        ensures meaning { Jointly self.old self.new (λ v w. Accesses v w space page write result) }
        ensures kept { BothKeep self.new }
        ensures halves { ToOne self.old self.new space result (λ v w. Accesses v w space page write result) }
    {
        let Some((_, protection, _)) = self.find(space, page)? else {
            return Ok(Access::Miss);
        };
        if !allows(protection, write) {
            return Ok(Access::Miss);
        }
        if space % 2 == 0 {
            self.first.access(space, page, write)
        } else {
            self.second.access(space, page, write)
        }
    }

    fn find(&self, space: u8, page: u32) -> Result<Option<(u16, u8, bool)>, PmapRefusal> {
        let one = self.first.find(space, page)?;
        let two = self.second.find(space, page)?;
        Ok(agree(one, two))
    }

    fn modified(&self, frame: u16) -> Result<bool, PmapRefusal> {
        let first = self.first.modified(frame)?;
        let second = self.second.modified(frame)?;
        Ok(first || second)
    }

    fn clear_modified(&mut self, frame: u16) -> Result<(), PmapRefusal>
        requires { BothKeep self.old }
        ensures meaning { Jointly self.old self.new (λ v w. Unmarks v w frame result) }
        ensures kept { BothKeep self.new }
        ensures halves { ToBoth self.old self.new (λ v w. Unmarks v w frame result) }
    {
        self.first.clear_modified(frame)?;
        self.second.clear_modified(frame)
    }
}
