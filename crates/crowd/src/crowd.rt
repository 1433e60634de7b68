// The crowd.
ghost use Rattle.std.specs.Prelude.{◌≡◌, ◌≤◌, length, IfOk};
ghost use Rattle.crowd.specs.Crowd.{Gone, Crowds};

use crate::outcome::Outcome;
use pmap::interface::Pmap;
use refusal::pmap::PmapRefusal;

// The mapping that a crowd is to drive out: its place and its frame.
#[derive(Clone, Copy)]
pub struct Target {
    pub space: u8,
    pub page: u32,
    pub frame: u16,
}

// Enters another page of the space, and answers whether nothing is held at the target's place then.
fn enter_other<P: Pmap>(pmap: &mut P, target: Target, other: u32) -> Result<bool, PmapRefusal>
    requires { P.kept pmap.old }
    ensures kept { P.kept pmap.new }
    ensures marks { (P.view pmap.new).modified ≡ (P.view pmap.old).modified }
    ensures gone { IfOk result (λ gone. Gone (P.view pmap.new) target.space target.page gone) }
{
    pmap.enter(target.space, other, target.frame ^ 1, 1, false)?;
    let held = pmap.find(target.space, target.page)?;
    Ok(held.is_none())
}

// Enters other pages one after the other until nothing is held at the target's place, and answers how many it entered.
// A `for` with a `?` and no `position`: an enter may be refused.
fn drive_out<P: Pmap>(pmap: &mut P, target: Target, others: &[u32]) -> Result<usize, PmapRefusal>
    requires { P.kept pmap.old }
    ensures kept { P.kept pmap.new }
    ensures marks { (P.view pmap.new).modified ≡ (P.view pmap.old).modified }
    ensures count { IfOk result (λ n. n ≤ length others.now) }
{
    for (i, other) in others.iter().enumerate() {
        if enter_other(pmap, target, *other)? {
            return Ok(i + 1);
        }
    }
    Ok(others.len())
}

// Crowds the mapping of a target with other pages of its space, which map another frame, until it is forgotten.
// No frame joins or leaves the modified ones by that.
pub fn crowd<P: Pmap>(pmap: &mut P, target: Target, others: &[u32]) -> Result<Outcome, PmapRefusal>
    requires { P.kept pmap.old }
    ensures kept { P.kept pmap.new }
    ensures marks { (P.view pmap.new).modified ≡ (P.view pmap.old).modified }
    ensures tells { Crowds (P.view pmap.old) (P.view pmap.new) target.space target.page target.frame (length others.now) result }
{
    let others = drive_out(pmap, target, others)?;
    let held = pmap.find(target.space, target.page)?;
    let modified = pmap.modified(target.frame)?;
    Ok(Outcome {
        others,
        forgotten: held.is_none(),
        modified,
    })
}
